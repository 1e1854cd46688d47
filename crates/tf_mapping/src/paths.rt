// Paths that grow by a name and lose it again.
ghost use Rattle.std.specs.Prelude.{◌≡◌, OnOk, ◌++◌, ◌∷◌, length, take, ℕ, List};
ghost use Rattle.std.specs.String.{string_bytes};
ghost use Rattle.tf_mapping.specs.Settings.{joined};
ghost use Rattle.tf_mapping.specs.Paths.{IsFront};

use tf_model::OutOfMemory;

/// Appends a dot and a name.
pub(crate) fn go_in(path: &mut String, name: &str) -> Result<(), OutOfMemory>
    ensures { OnOk result (string_bytes path.new ≡ joined (string_bytes path.old) name.now) }
{
    path.push_str(".")?;
    path.push_str(name)?;
    Ok(())
}

/// Cuts off all from the dot at a place on.
#[tactic(auto, using(crate::proofs::CutLaws::cuts))]
pub(crate) fn go_out(path: &mut String, len: usize)
    requires { IsFront len (string_bytes path.old) }
    ensures { string_bytes path.new ≡ take len (string_bytes path.old) }
{
    path.truncate(len);
}
