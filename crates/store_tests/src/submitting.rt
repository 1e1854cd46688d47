// Submitting commands over a disk in memory.
use std::alloc::Global;
use std::test::*;
use tf_command::read_command;
use tf_disk::{Disk, MemDisk};
use tf_reply::Reply;
use tf_store::{Store, StoreError};

const INDEX: &[u8] =
    b"{\"op\":\"create_index\",\"index\":\"s\",\"mappings\":{\"properties\":{\"k\":{\"type\":\"keyword\"}}}}";

const SEARCH: &[u8] = b"{\"op\":\"search\",\"index\":\"t\"}";

// Submits the command of a line.
fn submit_line<D: Disk>(
    alloc: Global,
    store: &mut Store<D>,
    line: &[u8],
) -> Result<Result<Reply, StoreError>, Fail> {
    let command = read_command(alloc, line, 1).ok().ok_or("no command")?;
    Ok(store.submit(&command, 0, 1000))
}

// A store over an empty disk, and the reply to the line that creates an index.
fn created(alloc: Global) -> Result<(Store<MemDisk>, Reply), Fail> {
    let disk = MemDisk::new(alloc, b"", &[])?;
    let mut store = Store::open(alloc, disk).ok().ok_or("not opened")?;
    let reply = submit_line(alloc, &mut store, INDEX)?
        .ok()
        .ok_or("not done")?;
    Ok((store, reply))
}

#[test]
fn a_command_is_committed_and_replied(rt: HostRuntime) -> Result<(), Fail> {
    let (store, reply) = created(rt.alloc())?;
    assert!(rt; matches!(reply, Reply::Created { line: 1, no: 1 }));
    assert_eq!(rt; store.last_ms(), 1000);
    assert_eq!(rt; store.count(), 1);
    Ok(())
}

#[test]
fn refused_commands_make_no_call(rt: HostRuntime) -> Result<(), Fail> {
    let alloc = rt.alloc();
    let (mut store, _) = created(alloc)?;
    for line in [INDEX, SEARCH] {
        let refused = submit_line(alloc, &mut store, line)?;
        assert!(rt; matches!(refused, Ok(Reply::Refused { line: 1, no: 1, .. })));
    }
    // those of the opening, and four for the one commit
    assert_eq!(rt; store.into_disk().calls(), 8);
    Ok(())
}
