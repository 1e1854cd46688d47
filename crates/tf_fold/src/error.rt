// Why there is no row.
ghost use Rattle.std.specs.Prelude.{◌≡◌};
ghost use Rattle.tf_fold.specs.declared.error.FoldError.TheVariants.{Memory};

use tf_model::{OutOfMemory, SumRange};

/// Why a fold gives no row.
#[derive(Drop)]
pub enum FoldError {
    /// No memory was found for the row.
    Memory,
    /// A sum is outside `i64`: the key, the first such aggregation by name, and its exact sum.
    SumRange(SumRange),
}

impl From<OutOfMemory> for FoldError {
    ghost from_gives = { λ _ e. e ≡ Memory };

    fn from(_error: OutOfMemory) -> FoldError {
        FoldError::Memory
    }
}
