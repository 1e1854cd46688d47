// What commands find in a core.
ghost use Rattle.std.specs.Prelude.{◌≡◌, is_some, reverse};
ghost use Rattle.std.specs.Option.{option_map};
ghost use Rattle.tf_history.specs.Catalogue.{catalogue, number_of};
ghost use Rattle.tf_history.specs.Lives.{life};
ghost use Rattle.tf_history.specs.Transforms.{transform_of};
ghost use Rattle.tf_core.specs.Legal.{read};
ghost use Rattle.tf_decide.specs.Asking as spec;

use crate::standing::Standing;
use tf_core::Core;
use tf_model::Text;

/// The number of the index with a name.
pub fn index_number(core: &Core, name: &Text) -> Option<u32>
    ensures { result ≡ number_of name.now (catalogue (reverse core.now.history)) }
{
    core.is_taken();
    match core.index_number(name) {
        Some(number) => Some(number as u32),
        None => None,
    }
}

/// Whether a destination has a name.
pub fn is_dest(core: &Core, name: &Text) -> bool
    ensures { result ≡ spec.is_dest (reverse core.now.history) name.now }
{
    core.transform_into(name).is_some()
}

/// Whether an index has a name.
pub fn is_index(core: &Core, name: &Text) -> bool
    ensures { result ≡ spec.is_index (reverse core.now.history) name.now }
{
    core.index_number(name).is_some()
}

/// Whether a transform has an id.
pub fn is_transform(core: &Core, id: &Text) -> bool
    ensures { result ≡ is_some (transform_of id.now (reverse core.now.history)) }
{
    core.transform(id).is_some()
}

/// How the transform with an id stands.
pub fn standing_of(core: &Core, id: &Text) -> Option<Standing>
    ensures { result ≡ option_map spec.standing_of (life id.now (read (reverse core.now.history))) }
{
    match core.transform(id) {
        None => None,
        Some(transform) => Some(Standing {
            state: transform.state,
            is_over: transform.is_over(),
        }),
    }
}
