// The moves of transforms at a given moment.
ghost use Rattle.std.specs.Prelude.{◌≡◌, ◌∷◌, IfErr, IfOk, IfSome, MatchOption, OnOk, reverse};
ghost use Rattle.tf_core.specs.Listing.{ids_after};
ghost use Rattle.tf_indexer.specs.Holding.{IsAt};
ghost use Rattle.tf_serial.specs.Frames.{IsMove, IsOfPass, IsSettling};
ghost use Rattle.tf_serial.specs.Moves.{IsSettled, moved_out, moves, next_move, pass, settled};
ghost use Rattle.tf_serial.specs.Parts.{Fits, IsNext, Runs, Stops};
ghost use Rattle.tf_serial.specs.Settling.{ArePaced, IsAdvanced};
ghost use Rattle.tf_store.specs.Standing.{AreSpelled};
ghost use Rattle.tf_store.specs.Words.{broken_at, history_of};

use crate::committing::commit_entry;
use crate::numbers::numbers_fit;
use std::alloc::Global;
use tf_core::Core;
use tf_disk::Disk;
use tf_indexer::Indexer;
use tf_model::{Entry, List, OutOfMemory, Text};
use tf_store::{Store, StoreError};

/// Moves the transforms in the order of their ids, each until it is idle, and again until a pass moves nothing. Each move is
/// one frame of the file.
pub fn settle<D: Disk>(alloc: Global, store: &mut Store<D>, moment: i64) -> Result<(), StoreError>
    ensures after { OnOk result (reverse (history_of store.new) ≡ settled moment (reverse (history_of store.old))) }
    ensures ends { OnOk result (IsSettled moment (reverse (history_of store.new))) }
    ensures broken { OnOk result (broken_at store.new ≡ broken_at store.old) }
    ensures within { OnOk result (Fits store.old store.new) }
    ensures stops { IfErr result (Stops D.meaning (IsSettling moment (reverse (history_of store.old))) store.old (reverse (settled moment (reverse (history_of store.old)))) store.new) }
    ensures runs { Runs D.meaning store.old store.new }
{
    store.core().is_taken();
    match store.ids() {
        Ok(ids) => make_passes(alloc, store, &ids, moment),
        Err(_) => Err(StoreError::Memory),
    }
}

// Makes passes over the transforms until one moves nothing.
fn make_passes<D: Disk>(
    alloc: Global,
    store: &mut Store<D>,
    ids: &List<Text>,
    moment: i64,
) -> Result<(), StoreError>
    requires paced { ArePaced (reverse (history_of store.old)) }
    requires ids { ids.now ≡ ids_after (reverse (history_of store.old)) }
    ensures after { OnOk result (reverse (history_of store.new) ≡ settled moment (reverse (history_of store.old))) }
    ensures ends { OnOk result (IsSettled moment (reverse (history_of store.new))) }
    ensures broken { OnOk result (broken_at store.new ≡ broken_at store.old) }
    ensures within { OnOk result (Fits store.old store.new) }
    ensures stops { IfErr result (Stops D.meaning (IsSettling moment (reverse (history_of store.old))) store.old (reverse (settled moment (reverse (history_of store.old)))) store.new) }
    ensures runs { Runs D.meaning store.old store.new }
{
    'passes: loop {
        let count = store.count();
        match make_pass(alloc, store, ids, moment) {
            Ok(()) => {}
            Err(error) => return Err(error),
        }
        if store.count() == count {
            return Ok(());
        }
    }
}

// Moves each transform until it is idle, one after the other.
fn make_pass<D: Disk>(
    alloc: Global,
    store: &mut Store<D>,
    ids: &List<Text>,
    moment: i64,
) -> Result<(), StoreError>
    requires paced { ArePaced (reverse (history_of store.old)) }
    ensures after { OnOk result (reverse (history_of store.new) ≡ pass moment ids.now (reverse (history_of store.old))) }
    ensures broken { OnOk result (broken_at store.new ≡ broken_at store.old) }
    ensures within { OnOk result (Fits store.old store.new) }
    ensures stops { IfErr result (Stops D.meaning (IsOfPass moment ids.now (reverse (history_of store.old))) store.old (reverse (pass moment ids.now (reverse (history_of store.old)))) store.new) }
    ensures runs { Runs D.meaning store.old store.new }
{
    for id in ids.as_slice() {
        match make_moves(alloc, store, id, moment) {
            Ok(()) => {}
            Err(error) => return Err(error),
        }
    }
    Ok(())
}

// Moves a transform until it is idle. Its checkpoint is computed once.
fn make_moves<D: Disk>(
    alloc: Global,
    store: &mut Store<D>,
    id: &Text,
    moment: i64,
) -> Result<(), StoreError>
    requires paced { ArePaced (reverse (history_of store.old)) }
    ensures after { OnOk result (reverse (history_of store.new) ≡ moved_out moment id.now (reverse (history_of store.old))) }
    ensures broken { OnOk result (broken_at store.new ≡ broken_at store.old) }
    ensures within { OnOk result (Fits store.old store.new) }
    ensures stops { IfErr result (Stops D.meaning (IsMove moment id.now (reverse (history_of store.old))) store.old (reverse (moved_out moment id.now (reverse (history_of store.old)))) store.new) }
    ensures runs { Runs D.meaning store.old store.new }
{
    let mut indexer = Indexer::new();
    'moves: loop {
        match advance(alloc, store, &mut indexer, id, moment) {
            Ok(true) => {}
            Ok(false) => return Ok(()),
            Err(error) => return Err(error),
        }
    }
}

/// Makes the next move of a transform, where it has one, as one frame of the file.
pub fn step<D: Disk>(
    alloc: Global,
    store: &mut Store<D>,
    id: &Text,
    moment: i64,
) -> Result<(), StoreError>
    ensures after { OnOk result (reverse (history_of store.new) ≡ moves moment 1 id.now (reverse (history_of store.old))) }
    ensures broken { OnOk result (broken_at store.new ≡ broken_at store.old) }
    ensures within { OnOk result (Fits store.old store.new) }
    ensures stops { IfErr result (Stops D.meaning (IsMove moment id.now (reverse (history_of store.old))) store.old (reverse (moves moment 1 id.now (reverse (history_of store.old)))) store.new) }
    ensures runs { Runs D.meaning store.old store.new }
{
    let mut indexer = Indexer::new();
    match advance(alloc, store, &mut indexer, id, moment) {
        Ok(_) => Ok(()),
        Err(error) => Err(error),
    }
}

// Makes the next move of a transform, and says whether there was one.
fn advance<D: Disk>(
    alloc: Global,
    store: &mut Store<D>,
    indexer: &mut Indexer,
    id: &Text,
    moment: i64,
) -> Result<bool, StoreError>
    requires at { IsAt (reverse (history_of store.old)) indexer.old }
    ensures at { OnOk result (IsAt (reverse (history_of store.new)) indexer.new) }
    ensures moved { IfOk result (λ any. IsAdvanced moment any id.now (reverse (history_of store.old)) (reverse (history_of store.new))) }
    ensures broken { OnOk result (broken_at store.new ≡ broken_at store.old) }
    ensures within { OnOk result (Fits store.old store.new) }
    ensures stops { IfErr result (Stops D.meaning (IsMove moment id.now (reverse (history_of store.old))) store.old (reverse (moves moment 1 id.now (reverse (history_of store.old)))) store.new) }
    ensures runs { Runs D.meaning store.old store.new }
{
    match next_entry(alloc, indexer, store.core(), id, moment) {
        Ok(Some(entry)) => {
            commit_entry(alloc, store, entry)?;
            Ok(true)
        }
        Ok(None) => Ok(false),
        Err(_) => Err(StoreError::Memory),
    }
}

// The entry of the next move of a transform, none where it has none. The indexer goes on behind it.
fn next_entry(
    alloc: Global,
    indexer: &mut Indexer,
    core: &Core,
    id: &Text,
    moment: i64,
) -> Result<Option<Entry>, OutOfMemory>
    requires spelled { AreSpelled core.now.history }
    requires at { IsAt (reverse core.now.history) indexer.old }
    ensures moved { IfOk result (λ entry. entry ≡ next_move moment id.now (reverse core.now.history)) }
    ensures next { IfOk result (λ entry. IfSome entry (IsNext (reverse core.now.history))) }
    ensures behind { IfOk result (λ entry. MatchOption entry (IsAt (reverse core.now.history) indexer.new) (λ e. IsAt (e ∷ reverse core.now.history) indexer.new)) }
{
    core.is_taken();
    let entry = indexer.next_entry(alloc, core, id, moment)?;
    numbers_fit(&entry);
    Ok(entry)
}
