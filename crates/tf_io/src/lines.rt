// The lines of a source.
ghost use Rattle.std.specs.Prelude.{◌≡◌, ℕ, ◌+◌, drop, slice_range, ◌<◌, ◌≤◌, List, length, is_some, slice_index_or, [], IfOk, IfErr};
ghost use Rattle.tf_io.specs.Lines.{script_lines, parts_from, ArePlaces};
ghost use Rattle.tf_io.specs.Reads.{ReadsLines, TakesAll, IsReadRefusal};

use crate::source::Source;
use std::alloc::Global;
use std::marker::Model;
use tf_model::{Failed, OutOfMemory};

// How many bytes a read is asked for.
const BUFFER: usize = 65_536;

/// Why a source was not read to its end. The source has then lost the bytes that were taken.
#[derive(Clone, Copy, Debug, PartialEq, Eq)]
pub enum ReadError {
    /// No memory was found, or the source has 4 GiB or more, which no table of lines can hold.
    Memory,
    /// A read failed. This comes only where the source's count of faults rose in this call.
    ReadFault {
        /// How many bytes were taken before.
        taken: u64,
    },
    /// The source has more bytes than the limit. This comes exactly where more were taken.
    TooLong {
        /// How many bytes were taken, which is more than the limit.
        taken: u64,
    },
}

/// The lines of a text, without their newlines. Contracts see it as the list of its lines.
///
/// It keeps the text in one piece, and four bytes for each line.
#[derive(Drop)]
pub struct Lines {
    text: Vec<u8>,
    ends: Vec<u32>,
}

impl Model for Lines {
    ghost use Rattle.std.specs.Prelude.{ℕ, List, length};
    ghost use Rattle.tf_io.specs.Lines.{parts_from, ArePlaces};

    ghost Value = { List (List ℕ) };

    ghost view = { λ l. parts_from l.text.items 0 l.ends.items };

    ghost invariant = { λ l. ArePlaces (length l.text.items) 0 l.ends.items };
}

impl Lines {
    /// How many lines there are.
    pub fn len(&self) -> usize
        ensures { result ≡ length self.now }
    {
        self.ends.len()
    }

    /// The line at place i, counted from 0.
    pub fn get(&self, i: usize) -> &[u8]
        requires { i < length self.now }
        ensures { result.now ≡ slice_index_or self.now i [] }
    {
        part(&self.text, &self.ends, i)
    }
}

/// The lines of the bytes that the source gives up to its end, of which there are at most `max`. The text is cut
/// at each newline, and a last line without one counts if it has a byte.
///
/// A `ReadFault` comes only where the source's count of faults rose in this call, and `TooLong` exactly where more
/// than `max` bytes were taken.
pub fn read_lines<S: Source>(alloc: Global, src: &mut S, max: u64) -> Result<Lines, ReadError>
    ensures lines { IfOk result (ReadsLines (S.left src.old) (S.left src.new) max) }
    ensures refused { IfErr result (IsReadRefusal (S.faults src.old) (S.faults src.new) (S.left src.old) (S.left src.new) max) }
    ensures later { S.faults src.old ≤ S.faults src.new }
    ensures tells { is_some (S.left src.new) ≡ is_some (S.left src.old) }
{
    let text = read_all(alloc, src, max)?;
    match cut(alloc, text) {
        Ok(lines) => Ok(lines),
        Err(_) => Err(ReadError::Memory),
    }
}

// The part that ends at the i-th place.
fn part<'a>(text: &'a [u8], ends: &[u32], i: usize) -> &'a [u8]
    requires places { ArePlaces (length text.now) 0 ends.now }
    requires within { i < length ends.now }
    ensures { result.now ≡ slice_index_or (parts_from text.now 0 ends.now) i [] }
{
    let end = ends[i] as usize;
    if i == 0 {
        between(text, 0, end)
    } else {
        let before = ends[i - 1] as usize;
        between(text, before + 1, end)
    }
}

// The bytes of a text between two places.
fn between(text: &[u8], start: usize, end: usize) -> &[u8]
    requires order { start ≤ end }
    requires within { end ≤ length text.now }
    ensures { result.now ≡ slice_range text.now start end }
{
    &text[start..end]
}

// The source's bytes, to its end.
fn read_all<S: Source>(alloc: Global, src: &mut S, max: u64) -> Result<Vec<u8>, ReadError>
    ensures bytes { IfOk result (λ text. TakesAll (S.left src.old) (S.left src.new) max text.items) }
    ensures refused { IfErr result (IsReadRefusal (S.faults src.old) (S.faults src.new) (S.left src.old) (S.left src.new) max) }
    ensures later { S.faults src.old ≤ S.faults src.new }
    ensures tells { is_some (S.left src.new) ≡ is_some (S.left src.old) }
{
    let mut text = Vec::new(alloc);
    let mut buf = [0u8; BUFFER];
    'reads: loop {
        let so_far = text.len() as u64;
        let count = match src.read(&mut buf) {
            Ok(count) => count,
            Err(Failed) => return Err(ReadError::ReadFault { taken: so_far }),
        };
        if count == 0 {
            return Ok(text);
        }
        if count as u64 > max - so_far {
            return Err(ReadError::TooLong {
                taken: so_far + count as u64,
            });
        }
        if text.extend_from_slice(&buf[..count]).is_err() {
            return Err(ReadError::Memory);
        }
    }
}

// Cuts a text into its lines.
fn cut(alloc: Global, text: Vec<u8>) -> Result<Lines, OutOfMemory>
    ensures { IfOk result (λ lines. lines ≡ script_lines text.items) }
{
    let Ok(size) = u32::try_from(text.len()) else {
        return Err(OutOfMemory);
    };
    let mut ends = Vec::new(alloc);
    let mut start = 0u32;
    for (place, byte) in text.iter().enumerate() {
        if *byte == b'\n' {
            ends.push(place as u32)?;
            start = place as u32 + 1;
        }
    }
    if start < size {
        ends.push(size)?;
    }
    Ok(Lines { text, ends })
}
