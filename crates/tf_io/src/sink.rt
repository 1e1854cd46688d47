// A sink for bytes.
ghost use Rattle.std.specs.Prelude.{◌≡◌, List, ℕ, length, is_some, OnOk, IfErr, ◌≤◌, ◌<◌, ◌^◌};
ghost use Rattle.std.specs.declared.option.Option.{Option};
ghost use Rattle.std.specs.Io.{WritesAtMost};
ghost use Rattle.std.specs.Io.KnownBytes.{WriteAppends, Appends};
ghost use Rattle.tf_model.specs.Causes.{HasWriteCause};
ghost use Rattle.tf_io.specs.Writes.{IsWriteFault};

use tf_model::Failed;

/// A sink for bytes, with a count of its faults.
pub trait Sink {
    /// The bytes that were written, where the sink tells them. Whether it does never changes.
    ghost written: { Self → Option (List ℕ) };

    /// How often a write has failed, or taken no byte of a piece that has some. It is a u64 that stays at its
    /// largest value.
    ghost faults: { Self → ℕ };

    /// Writes bytes from the front of the piece, and says how many.
    ///
    /// `Failed` comes only where the count of faults rose in this call. The write then took no byte. The count
    /// rises too where the write takes no byte of a piece that has some.
    fn write(&mut self, bytes: &[u8]) -> Result<usize, Failed>
        ensures bound { WritesAtMost result bytes.now }
        ensures bytes { WriteAppends (written self.old) (written self.new) result bytes.now }
        ensures tells { is_some (written self.new) ≡ is_some (written self.old) }
        ensures cause { HasWriteCause (faults self.old) (faults self.new) result (length bytes.now) }
        ensures range { faults self.new < 2 ^ 64 };
}

/// A piece was not written to its end.
#[derive(Clone, Copy, Debug, PartialEq, Eq)]
pub struct WriteFault {
    /// How many bytes from the front of the piece the sink took, which is fewer than all.
    pub taken: u64,
}

/// Writes the whole piece, in as many calls as it needs.
///
/// A `WriteFault` comes only where the sink's count of faults rose in this call. The sink then has the first
/// `taken` bytes of the piece.
pub fn write_out<K: Sink>(out: &mut K, bytes: &[u8]) -> Result<(), WriteFault>
    ensures written { OnOk result (Appends (K.written out.old) (K.written out.new) bytes.now) }
    ensures fault { IfErr result (λ e. IsWriteFault (K.faults out.old) (K.faults out.new) (K.written out.old) (K.written out.new) bytes.now e.taken) }
    ensures later { K.faults out.old ≤ K.faults out.new }
    ensures tells { is_some (K.written out.new) ≡ is_some (K.written out.old) }
{
    let mut taken = 0usize;
    while taken < bytes.len() {
        match out.write(&bytes[taken..]) {
            Ok(0) | Err(Failed) => {
                return Err(WriteFault {
                    taken: taken as u64,
                });
            }
            Ok(count) => taken += count,
        }
    }
    Ok(())
}
