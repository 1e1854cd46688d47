// A run of a script over a file.
ghost use Rattle.std.specs.Prelude.{◌≡◌, ◌≤◌, None, is_some, length, reverse, string_bytes};
ghost use Rattle.std.specs.Io.KnownBytes.{Appends};
ghost use Rattle.tf_cli.specs.Top as spec;
ghost use Rattle.tf_cli.specs.Top.{IsLeft, IsLeftOver, IsWritten, NotWritten};
ghost use Rattle.tf_store.specs.Words.{broken_at, disk_of, file_len, history_of, opened_at, opened_with};

use crate::outcome::{Outcome, refused};
use std::alloc::Global;
use tf_disk::Disk;
use tf_io::{Lines, Sink, write_out};
use tf_serial::run_script;
use tf_store::{Store, StoreError};

/// Opens the file of the disk, does the lines on its history, and writes the replies.
pub fn run_file<K: Sink, D: Disk>(
    alloc: Global,
    lines: &Lines,
    out: &mut K,
    disk: D,
) -> (Outcome, D)
    ensures left { IsLeft D.meaning disk result.1 (K.written out.old) (K.written out.new) (K.faults out.old) (K.faults out.new) lines.now result.0 }
    ensures unwritten { NotWritten result.0 (out.new ≡ out.old) }
    ensures later { (K.faults out.old ≤ K.faults out.new) × (D.meaning.faults disk ≤ D.meaning.faults result.1) }
    ensures tells { is_some (D.meaning.seen result.1) ≡ is_some (D.meaning.seen disk) }
{
    match Store::open(alloc, disk) {
        Ok(store) => run_store(alloc, lines, out, store),
        Err((error, disk)) => (refused(error), disk),
    }
}

// Does the lines on the history of a store, and writes the replies.
fn run_store<K: Sink, D: Disk>(
    alloc: Global,
    lines: &Lines,
    out: &mut K,
    store: Store<D>,
) -> (Outcome, D)
    requires whole { broken_at store ≡ None }
    requires opened { opened_with store ≡ length (history_of store) }
    ensures left { IsLeftOver D.meaning (disk_of store) result.1 (K.written out.old) (K.written out.new) (K.faults out.old) (K.faults out.new) lines.now (opened_at store) (history_of store) result.0 }
    ensures unwritten { NotWritten result.0 (out.new ≡ out.old) }
    ensures later { (K.faults out.old ≤ K.faults out.new) × (D.meaning.faults (disk_of store) ≤ D.meaning.faults result.1) }
    ensures tells { is_some (D.meaning.seen result.1) ≡ is_some (D.meaning.seen (disk_of store)) }
{
    let mut store = store;
    match run_script(alloc, lines, &mut store) {
        Ok(text) => (write_replies(out, &text), store.into_disk()),
        Err(error) => (stopped(error, store.count()), store.into_disk()),
    }
}

fn write_replies<K: Sink>(out: &mut K, text: &String) -> Outcome
    ensures written { IsWritten (K.written out.old) (K.written out.new) (K.faults out.old) (K.faults out.new) (string_bytes text.now) result }
    ensures later { K.faults out.old ≤ K.faults out.new }
{
    match write_out(out, text.as_bytes()) {
        Ok(()) => Outcome::Done,
        Err(fault) => Outcome::WriteFault { taken: fault.taken },
    }
}

// How a run ends whose script stops, where the history has so many entries.
fn stopped(error: StoreError, entries: u64) -> Outcome
    ensures { result ≡ spec.stopped error entries }
{
    match error {
        StoreError::Memory => Outcome::Memory,
        StoreError::Disk { .. } | StoreError::Broken { .. } => Outcome::DiskFault { entries },
        StoreError::Full { len } => Outcome::Full { len },
    }
}
