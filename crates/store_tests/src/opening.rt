// Opening files over a disk in memory.
use std::alloc::Global;
use std::test::*;
use tf_disk::{Disk, MemDisk};
use tf_store::{OpenError, Store};

// A whole file with a frame whose body spells no entries.
const UNSPELLED: &[u8] = b"TFJRNL1\n\x01\x03\0\0\0\0\0\0\0abc\0";

// The same, and behind it a frame that runs past the end.
const LATER_CUT: &[u8] = b"TFJRNL1\n\x01\x03\0\0\0\0\0\0\0abc\x01\x09\0";

fn damaged(error: &OpenError) -> Option<u64> {
    match error {
        OpenError::Damaged { frame } => Some(*frame),
        _ => Some(999),
    }
}

// The opening of a file: how many entries it found, or the damaged frame. Every other refusal is 999.
fn opened(alloc: Global, bytes: &[u8]) -> Result<(u64, Option<u64>), Fail> {
    let disk = MemDisk::new(alloc, bytes, &[])?;
    Ok(match Store::open(alloc, disk) {
        Ok(store) => (store.count(), None),
        Err((error, _disk)) => (0, damaged(&error)),
    })
}

#[test]
fn a_file_is_opened_or_its_first_damaged_frame_is_told(rt: HostRuntime) -> Result<(), Fail> {
    let alloc = rt.alloc();
    // (the file, its entries, the damaged frame)
    let rows: [(&[u8], u64, Option<u64>); 7] = [
        (b"", 0, None),
        (b"123456789", 0, None),
        (b"1234567890", 0, Some(0)),
        (b"TFJRNL1\n\0", 0, None),
        (b"TFJRNL1\n\x02\x01", 0, None),
        (UNSPELLED, 0, Some(1)),
        (LATER_CUT, 0, Some(1)),
    ];
    for (bytes, count, damaged) in rows {
        assert_eq!(rt; opened(alloc, bytes)?, (count, damaged));
    }
    Ok(())
}

#[test]
fn a_fault_at_opening_is_told_with_its_count(rt: HostRuntime) -> Result<(), Fail> {
    let alloc = rt.alloc();
    // a sync, the length, and a read
    for failing in 1..4u64 {
        let disk = MemDisk::new(alloc, UNSPELLED, &[failing])?;
        let Err((error, disk)) = Store::open(alloc, disk) else {
            panic!(rt; "opened")
        };
        assert!(rt; matches!(error, OpenError::DiskFault { count: 1 }));
        assert_eq!(rt; disk.calls(), failing);
    }
    Ok(())
}
