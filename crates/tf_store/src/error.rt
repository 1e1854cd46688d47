// Why a call of a store was refused.
ghost use Rattle.std.specs.Prelude.{◌≡◌};
ghost use Rattle.tf_store.specs.declared.error.OpenError.TheVariants as open_error;
ghost use Rattle.tf_store.specs.declared.error.StoreError.TheVariants as store_error;

use tf_model::OutOfMemory;

/// Why a store was not opened.
#[derive(Debug, Drop)]
pub enum OpenError {
    /// No memory was found.
    Memory,
    /// A call of the disk failed, and this is its count of faults.
    DiskFault { count: u64 },
    /// This frame is the first damaged one, by its bytes, by a body that spells no entries, or by an entry that
    /// is not taken. Frames are counted from 1, and 0 is the file's beginning.
    Damaged { frame: u64 },
}

/// Why a call of a store was refused.
#[derive(Debug, Drop)]
pub enum StoreError {
    /// No memory was found.
    Memory,
    /// A call of the disk failed, and this is its count of faults. The store is broken from then on.
    Disk { count: u64 },
    /// An earlier call answered `Disk` with this count.
    Broken { count: u64 },
    /// The file has this length in bytes, and with the frame it would have more than 2^40.
    Full { len: u64 },
}

impl From<OutOfMemory> for OpenError {
    ghost from_gives = { λ _ e. e ≡ open_error.Memory };

    fn from(_: OutOfMemory) -> Self {
        OpenError::Memory
    }
}

impl From<OutOfMemory> for StoreError {
    ghost from_gives = { λ _ e. e ≡ store_error.Memory };

    fn from(_: OutOfMemory) -> Self {
        StoreError::Memory
    }
}
