// The calls of a disk.
ghost use Rattle.std.specs.Prelude.{◌≡◌, ◌≤◌, ℕ, List, length, Some, IfOk, OnOk};
ghost use Rattle.std.specs.Io.{ReadsAtMost};
ghost use Rattle.tf_model.specs.Causes.{HasCause};
ghost use Rattle.tf_disk.specs.Disk.{Meaning, IsLength, Torn, Cut, Kept, Writes, Cuts, Reads, IsDurable, Makes, IsUntouched};

use tf_model::Failed;

/// A disk that holds one file, with a count of its faults.
///
/// Contracts see what a read gives, what a crash now may leave, and what a crash at some moment since an
/// earlier one may have left. A disk may tell none of this, as a real file does; whether it does never
/// changes. A call answers `Failed` only where the count of faults rose in it.
pub trait Disk {
    ghost meaning: { Meaning Self };

    /// How often a call has failed. The count never falls, and stays at the largest u64.
    fn faults(&self) -> u64
        ensures { result ≡ meaning.faults self.now };

    /// The file's length in bytes.
    fn len(&mut self) -> Result<u64, Failed>
        ensures value { IfOk result (IsLength (meaning.seen self.old)) }
        ensures same { IsUntouched meaning self.old self.new }
        ensures cause { HasCause (meaning.faults self.old) (meaning.faults self.new) result };

    /// Reads bytes from a place on, counted from 0, to the front of the buffer, and says how many they are.
    /// 0 for a buffer that has room is the end of the file.
    fn read(&mut self, place: u64, buf: &mut [u8]) -> Result<usize, Failed>
        ensures bound { ReadsAtMost result buf.new }
        ensures bytes { IfOk result (Reads (meaning.seen self.old) place buf.new) }
        ensures same { IsUntouched meaning self.old self.new }
        ensures cause { HasCause (meaning.faults self.old) (meaning.faults self.new) result };

    /// Writes all these bytes at a place, with zeros between the old end and the place. Until a sync a crash
    /// may leave any bytes in the range and past the old end, also where the call failed.
    fn write_at(&mut self, place: u64, bytes: &[u8]) -> Result<(), Failed>
        ensures written { OnOk result (Writes place bytes.now (meaning.seen self.old) (meaning.seen self.new)) }
        ensures model { Makes meaning (Torn place (length bytes.now)) self.old self.new }
        ensures cause { HasCause (meaning.faults self.old) (meaning.faults self.new) result };

    /// Cuts the file to so many bytes; a file that is not longer stays as it is. Until a sync a crash may undo
    /// the cut or a part of it, also where the call failed.
    fn cut(&mut self, len: u64) -> Result<(), Failed>
        ensures cut { OnOk result (Cuts len (meaning.seen self.old) (meaning.seen self.new)) }
        ensures model { Makes meaning (Cut len) self.old self.new }
        ensures cause { HasCause (meaning.faults self.old) (meaning.faults self.new) result };

    /// After `Ok` a crash leaves what a read gives. After `Failed` a crash may leave only what it might have
    /// left before. What a read gives stays in both cases.
    fn sync(&mut self) -> Result<(), Failed>
        ensures durable { OnOk result (IsDurable meaning self.new) }
        ensures same { meaning.seen self.new ≡ meaning.seen self.old }
        ensures model { Makes meaning Kept self.old self.new }
        ensures cause { HasCause (meaning.faults self.old) (meaning.faults self.new) result };

    /// The disk as it reads is one of the images that a crash may leave.
    ghost as_it_reads: { (disk : Self) (bytes : List ℕ) → meaning.seen disk ≡ Some bytes → meaning.may_leave disk bytes };

    /// This moment is one of those since an earlier one.
    ghost counts_now: { (disk : Self) (t : ℕ) (image : List ℕ) → t ≤ meaning.moment disk → meaning.may_leave disk image → meaning.left_since disk t image };

    /// Since this moment there is no other.
    ghost only_now: { (disk : Self) (image : List ℕ) → meaning.left_since disk (meaning.moment disk) image → meaning.may_leave disk image };
}
