// Room for what prepared entries add.
ghost use Rattle.std.specs.Prelude.{◌≡◌, ℕ, List, [], OnOk};
ghost use Rattle.std.specs.List.{AllByRecursion};
ghost use Rattle.tf_dest.specs.Tables.{KeepsPlaces};
ghost use Rattle.tf_core.specs.Chain as spec;
ghost use Rattle.tf_core.specs.Chain.{ArePlaced, HasRoom, HasRowRoom, PutsHave, all_paged, paged, paged_by};
ghost use Rattle.tf_core.specs.Rooms.{SameButRoom, SameTables};

use crate::index::Index;
use crate::kept::Kept;
use crate::ready::{Change, Prepared, Step};
use crate::transform::Transform;
use std::alloc::Global;
use std::sync::Arc;
use tf_dest::Dest;
use tf_model::{Doc, OutOfMemory, Text};

/// Makes room for what prepared entries add, and changes nothing else.
pub fn make_room(
    alloc: Global,
    entries: &mut Vec<Kept>,
    indices: &mut Vec<Index>,
    docs: &mut Vec<Arc<Doc, Global>>,
    transforms: &mut Vec<Transform>,
    steps: &[Prepared],
) -> Result<(), OutOfMemory>
    requires { PutsHave steps.now [] }
    ensures entries { entries.new.items ≡ entries.old.items }
    ensures indices { indices.new.items ≡ indices.old.items }
    ensures docs { docs.new.items ≡ docs.old.items }
    ensures transforms { SameTables transforms.old.items transforms.new.items }
    ensures room { OnOk result (HasRoom steps.now entries.new indices.new docs.new transforms.new) }
{
    make_row_room(alloc, transforms, steps)?;
    transforms.reserve(count_puts(steps))?;
    docs.reserve(count_docs(steps))?;
    indices.reserve(count_indices(steps))?;
    entries.reserve(steps.len())
}

fn count_indices(steps: &[Prepared]) -> usize
    ensures { result ≡ spec.index_count steps.now }
{
    let mut count = 0;
    for prepared in steps {
        if let Step::Index(_) = &prepared.step {
            count += 1;
        }
    }
    count
}

fn count_docs(steps: &[Prepared]) -> usize
    ensures { result ≡ spec.doc_count steps.now }
{
    let mut count = 0;
    for prepared in steps {
        if let Step::Write(_) = &prepared.step {
            count += 1;
        }
    }
    count
}

fn count_puts(steps: &[Prepared]) -> usize
    ensures { result ≡ spec.put_count steps.now }
{
    let mut count = 0;
    for prepared in steps {
        if let Step::Put(_) = &prepared.step {
            count += 1;
        }
    }
    count
}

/// Makes a place for each row that steps put into each of these transforms.
fn make_row_room(
    alloc: Global,
    transforms: &mut Vec<Transform>,
    steps: &[Prepared],
) -> Result<(), OutOfMemory>
    ensures same { SameTables transforms.old.items transforms.new.items }
    ensures room { OnOk result (AllByRecursion (HasRowRoom (all_paged steps.now)) transforms.new.items) }
{
    for at in 0..transforms.len() {
        make_room_in(alloc, &mut transforms[at], steps)?;
    }
    Ok(())
}

/// Makes a place for each row that steps put into a transform, and drops places that earlier steps left without a row.
fn make_room_in(
    alloc: Global,
    transform: &mut Transform,
    steps: &[Prepared],
) -> Result<(), OutOfMemory>
    ensures same { SameButRoom transform.old transform.new }
    ensures room { OnOk result (HasRowRoom (all_paged steps.now) transform.new) }
{
    make_places(alloc, &transform.id, &mut transform.rows, steps)
}

fn make_places(
    alloc: Global,
    id: &Text,
    rows: &mut Dest,
    steps: &[Prepared],
) -> Result<(), OutOfMemory>
    ensures held { rows.new.held ≡ rows.old.held }
    ensures places { OnOk result (ArePlaced id.now rows.new.places (all_paged steps.now)) }
{
    rows.tidy();
    for prepared in steps {
        make_places_by(alloc, id, rows, &prepared.step)?;
    }
    Ok(())
}

fn make_places_by(alloc: Global, id: &Text, rows: &mut Dest, step: &Step) -> Result<(), OutOfMemory>
    ensures held { rows.new.held ≡ rows.old.held }
    ensures kept { KeepsPlaces rows.old.places rows.new.places }
    ensures places { OnOk result (ArePlaced id.now rows.new.places (paged step.now)) }
{
    match step {
        Step::Change { id: other, change } => {
            if *id == *other {
                reserve(alloc, rows, change)
            } else {
                Ok(())
            }
        }
        _ => Ok(()),
    }
}

fn reserve(alloc: Global, rows: &mut Dest, change: &Change) -> Result<(), OutOfMemory>
    ensures held { rows.new.held ≡ rows.old.held }
    ensures kept { KeepsPlaces rows.old.places rows.new.places }
    ensures places { OnOk result ((id : List ℕ) → ArePlaced id rows.new.places (paged_by id change.now)) }
{
    match change {
        Change::Page { rows: page, .. } => rows.reserve(alloc, page.as_slice()),
        _ => Ok(()),
    }
}
