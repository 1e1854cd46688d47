// Moments that are taken down to the intervals of a configuration.
ghost use Rattle.std.specs.Prelude.{◌≡◌, ◌^◌, All, IfSome, pos};
ghost use Rattle.tf_bound.specs.Moments.{IsWithin};
ghost use Rattle.tf_model.specs.Bounds as spec;
ghost use Rattle.tf_model.specs.Conditions.{IsBetween, IsGroupInRange, IsInRange, greatest_date};
ghost use Rattle.tf_model.specs.Keys.{groups_of};
ghost use Rattle.tf_model.specs.declared.config.Group.{Group};

use tf_model::{Config, Group, GroupKind, Shape, Text};
use tf_time::floor_to;

/// A moment in milliseconds since 1970, taken down to a multiple of the interval to which the bounds of a transform are aligned:
/// that of the first date histogram by name over its sync field. Where there is none, or bounds are not to be aligned, it stays.
/// The moment is within plus and minus 2^60.
#[tactic(auto, unfolding(tf_model::specs::Bounds::aligned, tf_model::specs::Keys::floor_to), using(std::proofs::lemmas::Int::ints))]
pub fn aligned(config: &Config, ms: i64) -> i64
    requires config { IsInRange config.now }
    requires ms { IsWithin (2 ^ 60) ms }
    ensures { result ≡ spec.aligned config.now ms }
{
    match align_step(config) {
        Some(step) => floor_to(ms, step),
        None => ms,
    }
}

// The interval to which bounds are aligned, where they are.
fn align_step(config: &Config) -> Option<i64>
    requires { IsInRange config.now }
    ensures value { result ≡ spec.align_step config.now }
    ensures within { IfSome result (IsBetween (pos 1) greatest_date) }
{
    if !config.align {
        return None;
    }
    match &config.sync {
        Some(sync) => first_step(&sync.field, groups_of(&config.shape)),
        None => None,
    }
}

fn groups_of(shape: &Shape) -> &[Group]
    ensures { result.now ≡ groups_of shape.now }
{
    match shape {
        Shape::Pivot { groups, .. } => groups.as_slice(),
        Shape::Latest { .. } => &[],
    }
}

// The interval of the first group by dates of a field.
fn first_step(field: &Text, groups: &[Group]) -> Option<i64>
    requires { All (λ (group : Group). IsGroupInRange group.kind) groups.now }
    ensures value { result ≡ spec.first_step field.now groups.now }
    ensures within { IfSome result (IsBetween (pos 1) greatest_date) }
{
    for group in groups {
        if let Some(step) = step_for(field, group) {
            return Some(step);
        }
    }
    None
}

// The interval of a group by dates of a field.
fn step_for(field: &Text, group: &Group) -> Option<i64>
    requires { IsGroupInRange group.now.kind }
    ensures value { result ≡ spec.step_for field.now group.now }
    ensures within { IfSome result (IsBetween (pos 1) greatest_date) }
{
    match group.kind {
        GroupKind::DateHistogram { ms } if &group.field == field => Some(ms),
        _ => None,
    }
}
