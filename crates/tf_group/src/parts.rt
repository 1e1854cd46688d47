// The parts of keys.
ghost use Rattle.std.specs.Prelude.{◌≡◌, ◌≤ℤ◌, ◌^◌, ◌-ℤ◌, IfOk, Some, pos};
ghost use Rattle.std.specs.Option.{option_map};
ghost use Rattle.tf_group.specs.Comparing.{part_value};
ghost use Rattle.tf_model.specs.Conditions.{FitsGroup, IsGroupInRange};
ghost use Rattle.tf_model.specs.Keys as spec;
ghost use Rattle.tf_model.specs.Values.{value_of};

use std::alloc::Global;
use tf_model::{Doc, Group, GroupKind, OutOfMemory, Text, TryCopy, Value};
use tf_time::floor_to;

// The first moment of the year 0, in milliseconds since 1970.
const LEAST_DATE: i64 = -62_167_219_200_000;

/// A part of a key: a value that a document lends, or one that was made.
#[derive(Drop)]
pub(crate) enum Part<'a> {
    Lent(&'a Value),
    Made(Value),
}

impl<'a> Part<'a> {
    /// The part as a value. Takes no memory.
    pub(crate) fn as_value(&self) -> &Value
        ensures { result.now ≡ part_value self.now }
    {
        match self {
            Part::Lent(value) => value,
            Part::Made(value) => value,
        }
    }

    /// The part as a value that is kept, copied where it is lent. The error is want of memory alone.
    pub(crate) fn into_value(self, alloc: Global) -> Result<Value, OutOfMemory>
        ensures { IfOk result (λ value. value ≡ part_value self.entry) }
    {
        match self {
            Part::Lent(value) => value.try_copy(alloc),
            Part::Made(value) => Ok(value),
        }
    }
}

/// A part of a latest key: the value, or nothing where it is missing. Takes no memory.
pub(crate) fn latest_part<'a>(field: &Text, doc: &'a Doc) -> Part<'a>
    ensures { part_value result ≡ spec.latest_part doc.now field.now }
{
    match doc.value(field) {
        Some(value) => Part::Lent(value),
        None => Part::Made(Value::Null),
    }
}

/// A part of a pivot's key, `None` where it is missing and needed. Takes no memory.
pub(crate) fn pivot_part<'a>(group: &Group, doc: &'a Doc) -> Option<Part<'a>>
    requires group { IsGroupInRange group.now.kind }
    requires fits { FitsGroup group.now.kind (value_of doc.now group.now.field) }
    ensures { option_map part_value result ≡ spec.part_of doc.now group.now }
{
    match doc.value(&group.field) {
        Some(value) => Some(grouped(group.kind, value)),
        None => {
            if group.missing_bucket {
                Some(Part::Made(Value::Null))
            } else {
                None
            }
        }
    }
}

// What a group makes of a value.
#[tactic(auto, unfolding(tf_model::specs::Keys::floor_to), using(std::proofs::lemmas::Int::ints))]
fn grouped<'a>(kind: GroupKind, value: &'a Value) -> Part<'a>
    requires group { IsGroupInRange kind }
    requires fits { FitsGroup kind (Some value.now) }
    ensures { part_value result ≡ spec.grouped kind value.now }
{
    match kind {
        GroupKind::Terms => Part::Lent(value),
        GroupKind::Histogram { interval } => match value {
            Value::Int(n) => Part::Made(Value::Int(floor_wide(*n, i128::from(interval)))),
            other => Part::Lent(other),
        },
        GroupKind::DateHistogram { ms: step } => match value {
            Value::Date(ms) => Part::Made(Value::Date(floor_to(*ms, step).max(LEAST_DATE))),
            other => Part::Lent(other),
        },
    }
}

// The greatest multiple of a step that is at most a number.
#[tactic(auto, unfolding(tf_model::specs::Keys::floor_to), using(std::proofs::lemmas::Int::ints))]
fn floor_wide(n: i128, step: i128) -> i128
    requires low { (pos 0 -ℤ pos (2 ^ 64)) ≤ℤ n }
    requires step_low { pos 1 ≤ℤ step }
    requires step_high { step ≤ℤ pos (2 ^ 64) }
    ensures { result ≡ spec.floor_to n step }
{
    n - n.rem_euclid(step)
}
