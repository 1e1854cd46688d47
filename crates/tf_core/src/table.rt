// The transforms that are there.
ghost use Rattle.std.specs.Prelude.{◌≡◌, filter, vec_len, vec_capacity, ◌≤◌};
ghost use Rattle.std.specs.Option.{option_copied};
ghost use Rattle.tf_core.specs.Table.{is_other, place_in, transform_at};

use crate::transform::Transform;
use tf_model::Text;

/// The place of a transform, or the number of transforms where it is not there.
pub fn place_of(transforms: &[Transform], id: &Text) -> usize
    ensures place { result ≡ place_in id.now transforms.now }
{
    for (at, transform) in transforms.iter().enumerate() {
        if *id == transform.id {
            return at;
        }
    }
    transforms.len()
}

/// The transform of an id.
pub fn find<'a>(transforms: &'a [Transform], id: &Text) -> Option<&'a Transform>
    ensures { option_copied result ≡ transform_at id.now transforms.now }
{
    for transform in transforms {
        if *id == transform.id {
            return Some(transform);
        }
    }
    None
}

/// Takes a transform out. Takes no memory.
pub fn remove(transforms: &mut Vec<Transform>, id: &Text)
    ensures items { transforms.new.items ≡ filter (is_other id.now) transforms.old.items }
    ensures capacity { vec_capacity transforms.new ≡ vec_capacity transforms.old }
{
    transforms.retain(|transform| *id != transform.id);
}
