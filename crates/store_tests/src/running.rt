// Runs: words, and sources, sinks and disks that fail.
use std::alloc::Global;
use std::test::*;
use tf_cli::{End, run_top};
use tf_disk::{Disk, MemDisk};
use tf_io::{MemSink, MemSource};

const SCRIPT: &[u8] =
    b"{\"op\":\"create_index\",\"index\":\"s\",\"mappings\":{\"properties\":{\"k\":{\"type\":\"keyword\"}}}}\n\t\n[]\n{\"op\":\"sea";

// An empty journal: eight bytes, and a closed gate.
const EMPTY: &[u8] = b"TFJRNL1\n\0";

// The lines that lead to a destination with a row, in eight entries.
const PIVOT: &[u8] =
    b"{\"op\":\"create_index\",\"index\":\"s\",\"mappings\":{\"properties\":{\"k\":{\"type\":\"keyword\"},\"v\":{\"type\":\"long\"}}}}\n{\"op\":\"index\",\"index\":\"s\",\"id\":\"1\",\"doc\":{\"k\":\"a\",\"v\":-5}}\n{\"op\":\"put_transform\",\"id\":\"t\",\"config\":{\"source\":{\"index\":\"s\"},\"dest\":{\"index\":\"d\"},\"pivot\":{\"group_by\":{\"z\":{\"terms\":{\"field\":\"k\"}}},\"aggregations\":{\"n\":{\"sum\":{\"field\":\"v\"}}}}}}\n{\"op\":\"start\",\"id\":\"t\"}\n{\"op\":\"settle\"}\n";

fn words(alloc: Global, all: &[&str]) -> Result<Vec<String>, Fail> {
    let mut words = Vec::new(alloc);
    for word in all {
        words.push(String::from_str(alloc, word)?)?;
    }
    Ok(words)
}

// The end of a run, with the disk that it leaves.
fn run(
    alloc: Global,
    all: &[&str],
    src: &mut MemSource,
    out: &mut MemSink,
    disk: MemDisk,
) -> Result<(End, MemDisk), Fail> {
    let words = words(alloc, all)?;
    Ok(run_top(alloc, &words, src, out, disk))
}

// The same for `run j` over a source and a sink of which no call fails.
fn run_on(alloc: Global, script: &[u8], disk: MemDisk) -> Result<(End, MemDisk), Fail> {
    let mut src = MemSource::new(alloc, script, &[])?;
    let mut out = MemSink::new(alloc, &[], &[])?;
    run(alloc, &["run", "j"], &mut src, &mut out, disk)
}

#[test]
fn sources_and_sinks_may_fail(rt: HostRuntime) -> Result<(), Fail> {
    let alloc = rt.alloc();
    // The script, the reads and writes that fail, the writes that take no byte, the end, and the calls of the disk: four of an
    // opening and four of the one entry.
    let rows: [(&[u8], &[u64], &[u64], &[u64], u8, u64, u64); 5] = [
        (SCRIPT, &[], &[], &[], 0, 0, 8),
        (SCRIPT, &[2], &[], &[], 3, SCRIPT.len() as u64, 0),
        (SCRIPT, &[], &[1], &[], 4, 0, 8),
        (SCRIPT, &[], &[], &[1], 4, 0, 8),
        (b"", &[], &[1], &[1], 0, 0, 4),
    ];
    for (script, reads, writes, empty, status, detail, calls) in rows {
        let mut src = MemSource::new(alloc, script, reads)?;
        let mut out = MemSink::new(alloc, writes, empty)?;
        let disk = MemDisk::new(alloc, b"", &[])?;
        let (end, disk) = run(alloc, &["run", "j"], &mut src, &mut out, disk)?;
        assert_eq!(rt; end, End::new(status, detail));
        assert_eq!(rt; disk.calls(), calls);
        assert_eq!(rt; out.bytes().is_empty(), status != 0 || script.is_empty());
    }
    Ok(())
}

#[test]
fn other_words_are_status_2(rt: HostRuntime) -> Result<(), Fail> {
    let alloc = rt.alloc();
    let rows: [&[&str]; 7] = [
        &[],
        &["run"],
        &["run", ""],
        &["run", "-x"],
        &["run", "a", "b"],
        &["--help"],
        &["runs", "j"],
    ];
    for row in rows {
        let mut src = MemSource::new(alloc, b"", &[1])?;
        let mut out = MemSink::new(alloc, &[], &[])?;
        let disk = MemDisk::new(alloc, b"", &[])?;
        let (end, _) = run(alloc, row, &mut src, &mut out, disk)?;
        assert_eq!(rt; end, End::new(2, 0));
    }
    Ok(())
}

#[test]
fn a_file_is_continued_or_its_damage_is_told(rt: HostRuntime) -> Result<(), Fail> {
    let alloc = rt.alloc();
    // Each file, the end of a run of no line on it, and the file after it.
    let rows: [(&[u8], u8, u64, &[u8]); 4] = [
        (b"TFJRNL1\n\x01x", 6, 1, b"TFJRNL1\n\x01x"),
        (b"\0\0\0\0\0\0\0\0\0\0", 6, 0, b"\0\0\0\0\0\0\0\0\0\0"),
        (b"123456789", 0, 0, EMPTY),
        (b"", 0, 0, EMPTY),
    ];
    for (bytes, status, detail, after) in rows {
        let (end, disk) = run_on(alloc, b"", MemDisk::new(alloc, bytes, &[])?)?;
        assert_eq!(rt; end, End::new(status, detail));
        assert_eq!(rt; disk.bytes(), after);
    }
    Ok(())
}

// Whether each image that a crash now may leave is opened.
fn opens(alloc: Global, disk: &MemDisk) -> Result<bool, Fail> {
    for fill in [0u8, 1, 255] {
        for keep in 0..3u64 {
            let (end, _) = run_on(alloc, b"", disk.image(fill, keep)?)?;
            if end.status != 0 {
                return Ok(false);
            }
        }
    }
    Ok(true)
}

#[test]
fn a_fault_at_any_call_leaves_a_history_that_was_there(rt: HostRuntime) -> Result<(), Fail> {
    let alloc = rt.alloc();
    // Opening makes four calls, and each of the eight entries four more.
    for failing in 1..37u64 {
        let (end, disk) = run_on(alloc, PIVOT, MemDisk::new(alloc, b"", &[failing])?)?;
        let entries = if failing < 5 { 0 } else { (failing - 5) / 4 };
        assert_eq!(rt; end, End::new(5, entries));
        assert_eq!(rt; disk.calls(), failing);
        assert!(rt; opens(alloc, &disk)?);
    }
    Ok(())
}
