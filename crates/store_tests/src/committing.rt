// Committing over a disk in memory.
use std::alloc::Global;
use std::test::*;
use tf_disk::{Disk, MemDisk};
use tf_event::decode;
use tf_store::{Store, StoreError};

// An index `s` of one shard with a keyword `k` and a long `v`, at 1000 by actor 0.
const INDEX: &[u8] =
    b"\xe8\x03\0\0\0\0\0\0\0\x01\x01\0\0\0s\x01\0\0\0\x02\0\0\0\x01\0\0\0k\0\x01\0\0\0v\x01\0\0";

// Its first document, of id `1`, at 1000 by actor 0.
const WRITE: &[u8] =
    b"\xe8\x03\0\0\0\0\0\0\0\x02\0\0\0\0\0\0\0\0\0\0\0\0\0\0\0\0\x01\0\0\x001\x0f\0\0\0{\"k\":\"a\",\"v\":1}";

// Commits the one entry of a body, where it is taken next.
fn commit_body<D: Disk>(
    alloc: Global,
    store: &mut Store<D>,
    body: &[u8],
) -> Result<Result<u64, StoreError>, Fail> {
    let entries = decode(alloc, body)?.ok_or("no body")?;
    match entries.as_slice() {
        [entry] => {
            if !store.core().allowed(entry)? {
                return Err("not taken".into());
            }
        }
        _ => return Err("not one entry".into()),
    }
    Ok(store.commit(entries))
}

// How many entries a file has. A refusal is 999.
fn found(alloc: Global, disk: MemDisk) -> u64 {
    match Store::open(alloc, disk) {
        Ok(store) => store.count(),
        Err(_refused) => 999,
    }
}

// Whether each image that a crash now may leave has so many entries at least and so many at most.
fn leaves(alloc: Global, disk: &MemDisk, least: u64, most: u64) -> Result<bool, Fail> {
    for fill in [0u8, 1, 9, 255] {
        for keep in 0..3u64 {
            let count = found(alloc, disk.image(fill, keep)?);
            if count < least || count > most {
                return Ok(false);
            }
        }
    }
    Ok(true)
}

#[test]
fn commits_are_found_again(rt: HostRuntime) -> Result<(), Fail> {
    let alloc = rt.alloc();
    let disk = MemDisk::new(alloc, b"", &[])?;
    let Some(mut store) = Store::open(alloc, disk).ok() else {
        panic!(rt; "not opened")
    };
    assert!(rt; matches!(commit_body(alloc, &mut store, INDEX)?, Ok(1)));
    assert!(rt; matches!(commit_body(alloc, &mut store, WRITE)?, Ok(2)));
    assert_eq!(rt; store.count(), 2);
    let disk = store.into_disk();
    // a sync, the length, the header and a sync, and then four calls for each commit
    assert_eq!(rt; disk.calls(), 12);
    assert!(rt; leaves(alloc, &disk, 2, 2)?);
    Ok(())
}

#[test]
fn a_faulty_commit_breaks_the_store(rt: HostRuntime) -> Result<(), Fail> {
    let alloc = rt.alloc();
    // The opening and the first commit make eight calls. Those of the second are a write, a sync, the gate's write
    // and a sync. (the call that fails, the entries that a crash leaves at least and at most)
    let rows: [(u64, u64, u64); 4] = [(9, 1, 1), (10, 1, 1), (11, 1, 2), (12, 1, 2)];
    for (failing, least, most) in rows {
        let disk = MemDisk::new(alloc, b"", &[failing])?;
        let Some(mut store) = Store::open(alloc, disk).ok() else {
            panic!(rt; "not opened")
        };
        assert!(rt; matches!(commit_body(alloc, &mut store, INDEX)?, Ok(1)));
        let second = commit_body(alloc, &mut store, WRITE)?;
        assert!(rt; matches!(second, Err(StoreError::Disk { count: 1 })));
        let third = commit_body(alloc, &mut store, WRITE)?;
        assert!(rt; matches!(third, Err(StoreError::Broken { count: 1 })));
        assert_eq!(rt; store.broken(), Some(1));
        assert_eq!(rt; store.count(), 1);
        let disk = store.into_disk();
        assert_eq!(rt; disk.calls(), failing);
        assert!(rt; leaves(alloc, &disk, least, most)?);
    }
    Ok(())
}
