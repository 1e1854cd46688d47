// How many scalars a field has, as far as it matters.
ghost use Rattle.std.specs.Prelude.{◌≡◌};
ghost use Rattle.tf_mapping.specs.Findings.{shown};
ghost use Rattle.tf_mapping.specs.Scalars.{with_one};

use tf_model::Tree;

/// The scalars that were found.
#[derive(Clone, Copy)]
pub(crate) enum Found<'a> {
    Nothing,
    One(&'a Tree),
    /// Two or more.
    Many,
}

/// One scalar more.
pub(crate) fn with_one<'a>(found: Found<'a>, scalar: &'a Tree) -> Found<'a>
    ensures { shown result ≡ with_one (shown found.entry) scalar.now }
{
    match found {
        Found::Nothing => Found::One(scalar),
        Found::One(_) | Found::Many => Found::Many,
    }
}
