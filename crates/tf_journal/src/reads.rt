// All the bytes of a file.
ghost use Rattle.std.specs.Prelude.{◌≡◌, ◌<◌, ◌≤◌, ◌+◌, length, take, IfOk, IfErr};
ghost use Rattle.tf_disk.specs.Disk.{Tells, IsUntouched};
ghost use Rattle.tf_journal.specs.Answers.{IsReadRefusal, ReadsOn};

use crate::error::JournalError;
use crate::through::fault;
use std::alloc::Global;
use tf_disk::Disk;
use tf_model::Failed;

/// The file's bytes, in one buffer. It asks for the length once, and reads no more than that.
pub fn read_bytes<D: Disk>(alloc: Global, disk: &mut D) -> Result<Vec<u8>, JournalError>
    ensures bytes { IfOk result (λ bytes. Tells (D.meaning.seen disk.old) bytes.items) }
    ensures refused { IfErr result (IsReadRefusal (D.meaning.faults disk.old) (D.meaning.faults disk.new)) }
    ensures same { IsUntouched D.meaning disk.old disk.new }
    ensures later { D.meaning.faults disk.old ≤ D.meaning.faults disk.new }
{
    let len = match disk.len() {
        Ok(len) => len,
        Err(Failed) => return Err(fault(disk)),
    };
    let mut bytes = vec![in alloc; 0u8; len as usize]?;
    let mut at = 0;
    'reads: while at < bytes.len() {
        let count = match read_on(disk, &mut bytes, at) {
            Ok(count) => count,
            Err(error) => return Err(error),
        };
        if count == 0 {
            bytes.truncate(at);
            return Ok(bytes);
        }
        at += count;
    }
    Ok(bytes)
}

// Reads some bytes more into a buffer whose front is filled so far, and says how many.
fn read_on<D: Disk>(disk: &mut D, buf: &mut [u8], at: usize) -> Result<usize, JournalError>
    requires { at < length buf.old }
    ensures front { IfOk result (λ count. ReadsOn (D.meaning.seen disk.old) (take at buf.old) (take (at + count) buf.new) count) }
    ensures bound { IfOk result (λ count. at + count ≤ length buf.new) }
    ensures len { length buf.new ≡ length buf.old }
    ensures refused { IfErr result (IsReadRefusal (D.meaning.faults disk.old) (D.meaning.faults disk.new)) }
    ensures same { IsUntouched D.meaning disk.old disk.new }
    ensures later { D.meaning.faults disk.old ≤ D.meaning.faults disk.new }
{
    match disk.read(at as u64, &mut buf[at..]) {
        Ok(count) => Ok(count),
        Err(Failed) => Err(fault(disk)),
    }
}
