// Names that are in use.
ghost use Rattle.std.specs.Prelude.{◌≡◌};
ghost use Rattle.tf_core.specs.Allowing as spec;

use crate::index::Index;
use crate::transform::Transform;
use tf_model::Text;

/// Whether an index has this name.
pub fn is_index(indices: &[Index], name: &Text) -> bool
    ensures { result ≡ spec.is_index indices.now name.now }
{
    indices
        .iter()
        .any(|index| name.as_str() == index.name().as_str())
}

/// Whether a destination has this name.
pub fn is_dest(transforms: &[Transform], name: &Text) -> bool
    ensures { result ≡ spec.is_dest transforms.now name.now }
{
    transforms.iter().any(|transform| name.as_str() == transform.config.dest.as_str())
}

/// Whether neither an index nor a destination has this name.
pub fn is_free(indices: &[Index], transforms: &[Transform], name: &Text) -> bool
    ensures { result ≡ spec.is_free_name indices.now transforms.now name.now }
{
    !is_index(indices, name) && !is_dest(transforms, name)
}
