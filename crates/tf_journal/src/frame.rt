// A frame's body, kept as it is written.
ghost use Rattle.std.specs.Prelude.{◌≡◌, ◌≤◌, ◌<◌, ◌++◌, [], ◌∷◌, List, ℕ, ◌+◌, ◌-◌, ◌^◌, length, take, drop, IfOk, OnOk, OnErr};
ghost use Rattle.tf_journal.specs.Frames.{spelled};
ghost use Rattle.tf_journal.specs.Buffers.{body_of};
ghost use Rattle.tf_journal.specs.Sizes.{size_bytes};

use std::alloc::Global;
use std::marker::Model;
use tf_model::{List, OutOfMemory};

/// A frame, which contracts see as the list of its body's bytes. Its one buffer has the body's length
/// before the body and a closed gate behind it, so that one write takes all three.
#[derive(Debug, Drop)]
pub struct Frame {
    bytes: Vec<u8>,
}

impl Model for Frame {
    ghost use Rattle.std.specs.Prelude.{◌≡◌, List, ℕ};
    ghost use Rattle.tf_journal.specs.Frames.{spelled};
    ghost use Rattle.tf_journal.specs.Buffers.{body_of};

    ghost Value = { List ℕ };

    ghost view = { λ f. body_of f.bytes.items };

    ghost invariant = { λ f. f.bytes.items ≡ spelled (body_of f.bytes.items) };
}

impl Frame {
    /// The frame with this body. It fails only for want of memory.
    pub fn of(alloc: Global, body: &List<u8>) -> Result<Frame, OutOfMemory>
        ensures { IfOk result (λ frame. frame ≡ body.now) }
    {
        Frame::of_slice(alloc, body.as_slice())
    }

    /// The frame with these bytes as its body.
    pub(crate) fn of_slice(alloc: Global, body: &[u8]) -> Result<Frame, OutOfMemory>
        ensures { IfOk result (λ frame. frame ≡ body.now) }
    {
        let bytes = spell(alloc, body)?;
        Ok(Frame { bytes })
    }

    /// Appends the bytes to the body. It fails only for want of memory, and the body then stays.
    pub fn extend(&mut self, more: &[u8]) -> Result<(), OutOfMemory>
        ensures ok { OnOk result (self.new ≡ self.old ++ more.now) }
        ensures err { OnErr result (self.new ≡ self.old) }
    {
        spell_more(&mut self.bytes, more)?;
        Ok(())
    }

    /// Keeps the body's first `len` bytes, of which it has so many. Takes no memory.
    pub fn cut(&mut self, len: usize)
        requires { len ≤ length self.old }
        ensures { self.new ≡ take len self.old }
    {
        spell_less(&mut self.bytes, len);
    }

    /// The body's bytes. Takes no memory.
    pub fn body(&self) -> &[u8]
        ensures { result.now ≡ self.now }
    {
        spelled_body(&self.bytes)
    }

    /// The length, the body and the closed gate, as they are written.
    pub(crate) fn spelling(&self) -> &[u8]
        ensures bytes { result.now ≡ spelled self.now }
        ensures fits { length self.now < 2 ^ 64 }
    {
        &self.bytes
    }
}

// A number as eight bytes, the least first.
#[tactic(auto, unfolding(crate::specs::Sizes::size_bytes))]
fn size_as_bytes(size: u64) -> [u8; 8]
    ensures { result ≡ size_bytes size }
{
    size.to_le_bytes()
}

// A body with its length before it and a closed gate behind it.
fn spell(alloc: Global, body: &[u8]) -> Result<Vec<u8>, OutOfMemory>
    ensures { IfOk result (λ bytes. bytes.items ≡ spelled body.now) }
{
    let size = size_as_bytes(body.len() as u64);
    let mut bytes = Vec::with_capacity(alloc, body.len() + 9)?;
    bytes.extend_from_slice(&size)?;
    bytes.extend_from_slice(body)?;
    bytes.push(0)?;
    Ok(bytes)
}

// Appends to the body in a buffer.
fn spell_more(bytes: &mut Vec<u8>, more: &[u8]) -> Result<(), OutOfMemory>
    requires { 9 ≤ length bytes.old.items }
    ensures ok { (body : List ℕ) → bytes.old.items ≡ spelled body → OnOk result (bytes.new.items ≡ spelled (body ++ more.now)) }
    ensures err { OnErr result (bytes.new.items ≡ bytes.old.items) }
{
    let gate = bytes.len() - 1;
    bytes.extend_from_slice(more)?;
    let size = size_as_bytes((bytes.len() - 9) as u64);
    move_gate(bytes, gate, &size);
    Ok(())
}

// Moves the gate at a place to the end, and writes the length again.
fn move_gate(bytes: &mut [u8], gate: usize, size: &[u8])
    requires front { 8 ≤ gate }
    requires within { gate < length bytes.old }
    requires size { length size.now ≡ 8 }
    ensures { bytes.new ≡ size.now ++ drop 8 (take gate bytes.old ++ (drop 1 (drop gate bytes.old) ++ take 1 (drop gate bytes.old))) }
{
    bytes[gate..].rotate_left(1);
    bytes[..8].copy_from_slice(size);
}

// Keeps the first bytes of the body in a buffer.
fn spell_less(bytes: &mut Vec<u8>, len: usize)
    requires { 9 + len ≤ length bytes.old.items }
    ensures { (body : List ℕ) → bytes.old.items ≡ spelled body → bytes.new.items ≡ spelled (take len body) }
{
    bytes.truncate(9 + len);
    let size = size_as_bytes(len as u64);
    close(bytes, &size);
}

// Writes a length at the front and a closed gate at the end.
fn close(bytes: &mut [u8], size: &[u8])
    requires room { 9 ≤ length bytes.old }
    requires size { length size.now ≡ 8 }
    ensures { bytes.new ≡ size.now ++ drop 8 (take (length bytes.old - 1) bytes.old ++ 0 ∷ []) }
{
    let gate = bytes.len() - 1;
    bytes[gate] = 0;
    bytes[..8].copy_from_slice(size);
}

// The body in a buffer.
fn spelled_body(bytes: &[u8]) -> &[u8]
    requires { 9 ≤ length bytes.now }
    ensures { (body : List ℕ) → bytes.now ≡ spelled body → result.now ≡ body }
{
    &bytes[8..bytes.len() - 1]
}
