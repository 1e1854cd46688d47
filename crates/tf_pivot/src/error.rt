// Why there are no rows.
ghost use Rattle.std.specs.Prelude.{◌≡◌};
ghost use Rattle.tf_pivot.specs.declared.error.PivotError.TheVariants.{Memory};

use tf_model::{OutOfMemory, SumRange};

/// Why the rows of some keys are not given.
#[derive(Drop)]
pub enum PivotError {
    /// Memory was wanted that the system has not.
    Memory,
    /// A sum is outside `i64`: of the least of the keys that have such a sum, the first aggregation by name.
    SumRange(SumRange),
}

impl From<OutOfMemory> for PivotError {
    ghost from_gives = { λ _ e. e ≡ Memory };

    fn from(_error: OutOfMemory) -> PivotError {
        PivotError::Memory
    }
}
