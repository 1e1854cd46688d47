// A source of bytes.
ghost use Rattle.std.specs.Prelude.{◌≡◌, List, ℕ, is_some, ◌<◌, ◌^◌};
ghost use Rattle.std.specs.declared.option.Option.{Option};
ghost use Rattle.std.specs.Io.{ReadsAtMost};
ghost use Rattle.std.specs.Io.KnownBytes.{ReadConsumes};
ghost use Rattle.tf_model.specs.Causes.{HasCause};

use tf_model::Failed;

/// A source of bytes, with a count of its faults.
pub trait Source {
    /// The bytes that are left, where the source tells them. Whether it does never changes.
    ghost left: { Self → Option (List ℕ) };

    /// How often a read has failed. It is a u64 that stays at its largest value.
    ghost faults: { Self → ℕ };

    /// Reads bytes to the front of the buffer, and says how many. No byte for a buffer that has room is the
    /// end of the source.
    ///
    /// `Failed` comes only where the count of faults rose in this call. The read then took no byte.
    fn read(&mut self, buf: &mut [u8]) -> Result<usize, Failed>
        ensures bound { ReadsAtMost result buf.new }
        ensures bytes { ReadConsumes (left self.old) (left self.new) result buf.new }
        ensures tells { is_some (left self.new) ≡ is_some (left self.old) }
        ensures cause { HasCause (faults self.old) (faults self.new) result }
        ensures range { faults self.new < 2 ^ 64 };
}
