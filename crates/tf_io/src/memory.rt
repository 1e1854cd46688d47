// A source and a sink in memory, whose calls fail by a list.
ghost use Rattle.std.specs.Prelude.{◌≡◌, [], length, take, min, Some, IfOk, IsOk, IsErr, IsTrue, is_some, is_err, ◌≢◌, ◌⊎◌, true, ◌<◌, ◌^◌, ◌&&◌, not, if◌then◌else◌};
ghost use Rattle.std.specs.Io.{ReadsAtMost, WritesAtMost};
ghost use Rattle.std.specs.Io.KnownBytes.{ReadConsumes, WriteAppends};
ghost use Rattle.tf_model.specs.Causes.{HasCause, HasWriteCause};
ghost use Rattle.tf_io.specs.InMemory.{counted, is_listed, counted_if, fails_next, takes_none_next, is_write_fault};

use crate::sink::Sink;
use crate::source::Source;
use std::alloc::Global;
use std::marker::Model;
use tf_model::{Failed, OutOfMemory};

/// A source over bytes in memory, which tells them. Its calls are counted from 1, and those in its list fail.
/// Each other call gives as many bytes as are left and fit.
#[derive(Drop)]
pub struct MemSource {
    bytes: Vec<u8>,
    place: usize,
    failing: Vec<u64>,
    calls: u64,
    faults: u64,
}

impl Model for MemSource {
    ghost use Rattle.std.specs.Prelude.{◌≤◌, length, drop};
    ghost use Rattle.tf_io.specs.InMemory.{SourceState};

    ghost Value = { SourceState };

    ghost view = { λ s. record {
      left = drop s.place s.bytes.items;
      failing = s.failing.items;
      calls = s.calls;
      faults = s.faults;
    } };

    ghost invariant = { λ s. s.place ≤ length s.bytes.items };
}

impl MemSource {
    /// A source of a copy of these bytes, of which no call was made. The calls whose numbers are in `failing` will
    /// fail. `OutOfMemory` comes where a copy finds no room.
    pub fn new(alloc: Global, bytes: &[u8], failing: &[u64]) -> Result<MemSource, OutOfMemory>
        ensures { IfOk result (λ s. (s.left ≡ bytes.now) × (s.failing ≡ failing.now) × (s.calls ≡ 0) × (s.faults ≡ 0)) }
    {
        let bytes = bytes.to_vec(alloc)?;
        let failing = failing.to_vec(alloc)?;
        Ok(MemSource {
            bytes,
            place: 0,
            failing,
            calls: 0,
            faults: 0,
        })
    }
}

impl Source for MemSource {
    ghost left = { λ s. Some s.left };

    ghost faults = { λ s. s.faults };

    fn read(&mut self, buf: &mut [u8]) -> Result<usize, Failed>
        ensures bound { ReadsAtMost result buf.new }
        ensures bytes { ReadConsumes (Some self.old.left) (Some self.new.left) result buf.new }
        ensures tells { is_some (Some self.new.left) ≡ is_some (Some self.old.left) }
        ensures cause { HasCause self.old.faults self.new.faults result }
        ensures call { (self.new.calls ≡ counted self.old.calls) × (self.new.failing ≡ self.old.failing) }
        ensures fails { is_err result ≡ is_listed self.old.failing (counted self.old.calls) }
        ensures count { IfOk result (λ count. count ≡ min (length self.old.left) (length buf.new)) }
        ensures faults { self.new.faults ≡ counted_if (is_err result) self.old.faults }
        ensures range { self.new.faults < 2 ^ 64 }
    {
        self.calls = self.calls.saturating_add(1);
        if self.failing.contains(&self.calls) {
            self.faults = self.faults.saturating_add(1);
            return Err(Failed);
        }
        let count = copy_front(&self.bytes[self.place..], buf);
        self.place += count;
        Ok(count)
    }
}

// Copies as many bytes as there are and fit.
fn copy_front(from: &[u8], to: &mut [u8]) -> usize
    ensures count { result ≡ min (length from.now) (length to.old) }
    ensures copied { take result to.new ≡ take result from.now }
{
    let count = from.len().min(to.len());
    to[..count].copy_from_slice(&from[..count]);
    count
}

/// A sink in memory, which tells its bytes. Its calls are counted from 1. Those in its first list fail, and of the
/// others those in its second list take no byte. Each other call takes the whole piece, or fails where the growth
/// finds no memory, which is counted apart.
#[derive(Drop)]
pub struct MemSink {
    bytes: Vec<u8>,
    failing: Vec<u64>,
    empty: Vec<u64>,
    calls: u64,
    faults: u64,
    wanted: u64,
}

impl Model for MemSink {
    ghost use Rattle.tf_io.specs.InMemory.{SinkState};

    ghost Value = { SinkState };

    ghost view = { λ s. record {
      written = s.bytes.items;
      failing = s.failing.items;
      empty = s.empty.items;
      calls = s.calls;
      faults = s.faults;
      wanted = s.wanted;
    } };
}

impl MemSink {
    /// A sink without a byte, of which no call was made. The calls whose numbers are in `failing` will fail, and
    /// those in `empty` alone will take no byte. `OutOfMemory` comes where a copy of a list finds no room.
    pub fn new(alloc: Global, failing: &[u64], empty: &[u64]) -> Result<MemSink, OutOfMemory>
        ensures { IfOk result (λ s. (s.written ≡ []) × (s.failing ≡ failing.now) × (s.empty ≡ empty.now) × (s.calls ≡ 0) × (s.faults ≡ 0) × (s.wanted ≡ 0)) }
    {
        let failing = failing.to_vec(alloc)?;
        let empty = empty.to_vec(alloc)?;
        Ok(MemSink {
            bytes: Vec::new(alloc),
            failing,
            empty,
            calls: 0,
            faults: 0,
            wanted: 0,
        })
    }

    /// The bytes that were written.
    pub fn bytes(&self) -> &[u8]
        ensures { result.now ≡ self.now.written }
    {
        &self.bytes
    }

    /// How many calls failed for want of memory. It stays at the largest u64.
    pub fn wanted(&self) -> u64
        ensures { result ≡ self.now.wanted }
    {
        self.wanted
    }
}

impl Sink for MemSink {
    ghost written = { λ s. Some s.written };

    ghost faults = { λ s. s.faults };

    fn write(&mut self, bytes: &[u8]) -> Result<usize, Failed>
        ensures bound { WritesAtMost result bytes.now }
        ensures bytes { WriteAppends (Some self.old.written) (Some self.new.written) result bytes.now }
        ensures tells { is_some (Some self.new.written) ≡ is_some (Some self.old.written) }
        ensures cause { HasWriteCause self.old.faults self.new.faults result (length bytes.now) }
        ensures call { (self.new.calls ≡ counted self.old.calls) × (self.new.failing ≡ self.old.failing) × (self.new.empty ≡ self.old.empty) }
        ensures range { self.new.faults < 2 ^ 64 }
        ensures fails { IsTrue (fails_next self.old) → IsErr result }
        ensures empty { IsTrue (takes_none_next self.old) → IsOk result }
        ensures taken { IfOk result (λ taken. taken ≡ (if takes_none_next self.old then 0 else length bytes.now)) }
        ensures faults { self.new.faults ≡ counted_if (is_write_fault result (length bytes.now)) self.old.faults }
        ensures wanted { self.new.wanted ≡ counted_if (is_err result && not (fails_next self.old)) self.old.wanted }
        ensures caused { self.old.faults ≢ self.new.faults → (is_listed self.old.failing (counted self.old.calls) ≡ true) ⊎ ((is_listed self.old.empty (counted self.old.calls) ≡ true) ⊎ (self.new.wanted ≡ counted self.old.wanted)) }
    {
        let faults = self.faults;
        self.calls = self.calls.saturating_add(1);
        if self.failing.contains(&self.calls) {
            self.faults = faults.saturating_add(1);
            return Err(Failed);
        }
        if self.empty.contains(&self.calls) {
            if !bytes.is_empty() {
                self.faults = faults.saturating_add(1);
            }
            return Ok(0);
        }
        if self.bytes.extend_from_slice(bytes).is_err() {
            self.wanted = self.wanted.saturating_add(1);
            self.faults = faults.saturating_add(1);
            return Err(Failed);
        }
        Ok(bytes.len())
    }
}
