// A journal over a disk in memory.
ghost use Rattle.std.specs.Prelude.{◌≡◌, IfOk};

use std::alloc::Global;
use std::test::*;
use tf_disk::{Disk, MemDisk};
use tf_journal::{Frame, Journal, JournalError, read_only};
use tf_model::List;

// Two frames, "abc" and "z", and a closed gate.
const FILE: &[u8] = b"TFJRNL1\n\x01\x03\0\0\0\0\0\0\0abc\x01\x01\0\0\0\0\0\0\0z\0";

// The same, and bytes behind the closed gate.
const LONGER: &[u8] = b"TFJRNL1\n\x01\x03\0\0\0\0\0\0\0abc\x01\x01\0\0\0\0\0\0\0z\0\x01\0x";

fn byte(bytes: &[u8], at: usize) -> u8 {
    bytes.get(at).copied().unwrap_or(0)
}

// The body behind a gate, where a whole frame stands there.
fn body_at(bytes: &[u8], gate: usize) -> Option<&[u8]> {
    let mut size = 0usize;
    for back in 0..8usize {
        let digit = byte(bytes, gate.saturating_add(8 - back)) as usize;
        size = size.saturating_mul(256).saturating_add(digit);
    }
    let start = gate.saturating_add(9);
    let end = start.saturating_add(size);
    if size == 0 || end >= bytes.len() {
        return None;
    }
    bytes.get(start..end)
}

// Whether these frames, and this damaged one, are those of a file: a plain walk from gate to gate.
fn is_reading(bytes: &[u8], frames: &[Frame], damaged: Option<u64>) -> bool {
    if bytes.len() <= 9 {
        return frames.is_empty() && damaged.is_none();
    }
    if &bytes[..8] != b"TFJRNL1\n".as_slice() {
        return frames.is_empty() && damaged == Some(0);
    }
    let mut gate = 8usize;
    for frame in frames {
        if byte(bytes, gate) != 1 || body_at(bytes, gate) != Some(frame.body()) {
            return false;
        }
        gate = gate.saturating_add(9).saturating_add(frame.body().len());
    }
    if byte(bytes, gate) != 1 {
        return damaged.is_none();
    }
    let next = (frames.len() as u64).saturating_add(1);
    body_at(bytes, gate).is_none() && damaged == Some(next)
}

// Whether a file is read, and opened, as the plain walk says. A damaged file stays as it is.
fn opens_plainly(alloc: Global, bytes: &[u8]) -> Result<bool, Fail> {
    let mut disk = MemDisk::new(alloc, bytes, &[])?;
    let is_read = match read_only(alloc, &mut disk) {
        Ok(frames) => is_reading(bytes, frames.as_slice(), None),
        Err(JournalError::Damaged { frame, before }) => {
            is_reading(bytes, before.as_slice(), Some(frame))
        }
        Err(_) => false,
    };
    let is_opened = match Journal::open(alloc, disk) {
        Ok((journal, frames)) => {
            let left = journal.into_disk();
            is_reading(bytes, frames.as_slice(), None)
                && is_reading(left.bytes(), frames.as_slice(), None)
        }
        Err((error, left)) => match error {
            JournalError::Damaged { frame, before } => {
                is_reading(bytes, before.as_slice(), Some(frame)) && left.bytes() == bytes
            }
            _ => false,
        },
    };
    Ok(is_read && is_opened)
}

#[test]
fn every_prefix_and_every_flipped_bit_is_opened_plainly(rt: HostRuntime) -> Result<(), Fail> {
    let alloc = rt.alloc();
    for len in 0..FILE.len() + 1 {
        assert!(rt; opens_plainly(alloc, &FILE[..len])?, "cut to {len}");
    }
    for at in 0..FILE.len() {
        for bit in 0..8u32 {
            let mut bytes = FILE.to_vec(alloc)?;
            bytes[at] ^= 1 << bit;
            assert!(rt; opens_plainly(alloc, &bytes)?, "bit {bit} of {at}");
        }
    }
    Ok(())
}

// How many frames a file has, and the damaged one. Every other refusal is 999.
fn found(alloc: Global, bytes: &[u8]) -> Result<(usize, Option<u64>), Fail> {
    let mut disk = MemDisk::new(alloc, bytes, &[])?;
    Ok(match read_only(alloc, &mut disk) {
        Ok(frames) => (frames.len(), None),
        Err(JournalError::Damaged { frame, before }) => (before.len(), Some(frame)),
        Err(_) => (0, Some(999)),
    })
}

#[test]
fn a_damaged_frame_is_told_with_its_number(rt: HostRuntime) -> Result<(), Fail> {
    let alloc = rt.alloc();
    // (the file, its frames, the damaged one)
    let rows: [(&[u8], usize, Option<u64>); 8] = [
        (b"", 0, None),
        (b"123456789", 0, None),
        (b"1234567890", 0, Some(0)),
        (b"TFJRNL1\n\x02\x01", 0, None),
        (b"TFJRNL1\n\x01\0\0\0\0\0\0\0\0\0", 0, Some(1)),
        (b"TFJRNL1\n\x01\x01\0\0\0\0\0\0\0a", 0, Some(1)),
        (&FILE[..30], 1, Some(2)),
        (LONGER, 2, None),
    ];
    for (bytes, frames, damaged) in rows {
        assert_eq!(rt; found(alloc, bytes)?, (frames, damaged));
    }
    Ok(())
}

fn frame(alloc: Global, body: &[u8]) -> Result<Frame, Fail>
    ensures { IfOk result (λ frame. frame ≡ body.now) }
{
    let frame = Frame::of(alloc, &List::from_vec(body.to_vec(alloc)?))?;
    Ok(frame)
}

#[test]
fn frames_are_appended_by_four_calls_each(rt: HostRuntime) -> Result<(), Fail> {
    let alloc = rt.alloc();
    let disk = MemDisk::new(alloc, b"", &[])?;
    let Some((mut journal, _)) = Journal::open(alloc, disk).ok() else {
        panic!(rt; "not opened")
    };
    let mut first = frame(alloc, b"ab!")?;
    first.cut(2);
    first.extend(b"c")?;
    assert_eq!(rt; first.body(), b"abc".as_slice());
    assert!(rt; journal.append(&first).is_ok());
    assert!(rt; journal.append(&frame(alloc, b"z")?).is_ok());
    let disk = journal.into_disk();
    assert_eq!(rt; disk.bytes(), FILE);
    // a sync, the length, the header and a sync, and then four calls for each frame
    assert_eq!(rt; disk.calls(), 12);
    Ok(())
}

// Whether each image that a crash now may leave has so many frames at least and so many at most.
fn leaves(alloc: Global, disk: &MemDisk, least: usize, most: usize) -> Result<bool, Fail> {
    for fill in [0u8, 1, 9, 255] {
        for keep in 0..3u64 {
            let image = disk.image(fill, keep)?;
            let (frames, damaged) = found(alloc, image.bytes())?;
            if damaged.is_some() || frames < least || frames > most {
                return Ok(false);
            }
        }
    }
    Ok(true)
}

#[test]
fn a_faulty_append_breaks_the_journal(rt: HostRuntime) -> Result<(), Fail> {
    let alloc = rt.alloc();
    let third = frame(alloc, b"third")?;
    // Opening makes three calls: a sync, the length and a read. Those of the append are a write, a sync, the
    // gate's write and a sync. (the call that fails, the frames that a crash leaves at least and at most)
    let rows: [(u64, usize, usize); 4] = [(4, 2, 2), (5, 2, 2), (6, 2, 3), (7, 2, 3)];
    for (failing, least, most) in rows {
        let disk = MemDisk::new(alloc, FILE, &[failing])?;
        let Some((mut journal, _)) = Journal::open(alloc, disk).ok() else {
            panic!(rt; "not opened")
        };
        let first = journal.append(&third);
        assert!(rt; matches!(first, Err(JournalError::DiskFault { count: 1 })));
        let second = journal.append(&third);
        assert!(rt; matches!(second, Err(JournalError::Broken { count: 1 })));
        let disk = journal.into_disk();
        assert_eq!(rt; disk.calls(), failing);
        assert!(rt; leaves(alloc, &disk, least, most)?);
    }
    Ok(())
}

#[test]
fn a_fault_at_opening_leaves_the_frames(rt: HostRuntime) -> Result<(), Fail> {
    let alloc = rt.alloc();
    // a sync, the length, a read, a cut and a sync
    for failing in 1..6u64 {
        let disk = MemDisk::new(alloc, LONGER, &[failing])?;
        let Err((error, disk)) = Journal::open(alloc, disk) else {
            panic!(rt; "opened")
        };
        assert!(rt; matches!(error, JournalError::DiskFault { count: 1 }));
        assert_eq!(rt; disk.calls(), failing);
        assert!(rt; leaves(alloc, &disk, 2, 2)?);
    }
    Ok(())
}
