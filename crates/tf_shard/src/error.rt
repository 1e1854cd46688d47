// Errors.
ghost use Rattle.std.specs.Prelude.{◌≡◌};
ghost use Rattle.tf_shard.specs.declared.error.ShardError.TheVariants.{Memory};

use std::alloc::AllocFailed;
use tf_model::OutOfMemory;

/// Why a document is not taken.
#[derive(Debug, Drop)]
pub enum ShardError {
    /// No memory was found.
    Memory,
    /// The document with this number has its id.
    VersionConflict { seq: u64 },
    /// The shard has as many documents as it may have.
    Full,
}

impl From<OutOfMemory> for ShardError {
    ghost from_gives = { λ _ e. e ≡ Memory };

    fn from(_error: OutOfMemory) -> ShardError {
        ShardError::Memory
    }
}

impl<T: Drop> From<AllocFailed<T>> for ShardError {
    ghost from_gives = { λ _ e. e ≡ Memory };

    fn from(_error: AllocFailed<T>) -> ShardError {
        ShardError::Memory
    }
}
