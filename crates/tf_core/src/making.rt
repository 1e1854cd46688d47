// What is made for entries.
ghost use Rattle.std.specs.Prelude.{◌≡◌, ◌++◌, ◌<◌, length, map, [], None, Some, IfOk, OnOk};
ghost use Rattle.tf_history.specs.Catalogue as catalogue;
ghost use Rattle.tf_history.specs.Lives.{last_key};
ghost use Rattle.tf_history.specs.Meaning.{row_key};
ghost use Rattle.tf_dest.specs.Tables.{HavePlaces, KeepsPlaces, rows_of};
ghost use Rattle.tf_core.specs.Chain.{ArePlaced, all_added};
ghost use Rattle.tf_core.specs.Made.{IsOpened, IsPageOf, page_of, pages_of};

use crate::catalogue::number_of;
use crate::index::Index;
use crate::ready::{Change, Prepared};
use crate::transform::Transform;
use std::alloc::Global;
use tf_dest::{Dest, Held, key_of_row};
use tf_model::{
    Config, Entry, Key, Kind, List, OutOfMemory, Row, State, Text, copy_config, copy_key, copy_row,
};

/// A transform as a Put leaves it, with room for the Pages of entries behind it.
pub fn opened(
    alloc: Global,
    indices: &[Index],
    steps: &[Prepared],
    behind: &[Entry],
    id: &Text,
    config: &Config,
) -> Result<Transform, OutOfMemory>
    requires { config.now.retention ≡ None }
    ensures { IfOk result (IsOpened (indices.now ++ all_added steps.now) (pages_of behind.now) id.now config.now) }
{
    let rows = empty_rows(alloc, id, behind)?;
    Ok(Transform {
        id: id.copy(alloc)?,
        config: copy_config(alloc, config)?,
        sources: numbers(alloc, indices, steps, config.sources.as_slice())?,
        state: State::Stopped,
        waits: false,
        prompted: false,
        begun: 0,
        low: None,
        bound: None,
        begun_ms: 0,
        read: 0,
        passed: 0,
        before_ms: 0,
        before_read: 0,
        finished: 0,
        position: None,
        pages: 0,
        late: 0,
        reason: None,
        processed: 0,
        indexed: 0,
        deleted: 0,
        rows,
    })
}

// A destination without rows, with a place for each row that entries put into the transform with an id.
fn empty_rows(alloc: Global, id: &Text, entries: &[Entry]) -> Result<Dest, OutOfMemory>
    ensures held { IfOk result (λ rows. rows.held ≡ []) }
    ensures places { IfOk result (λ rows. ArePlaced id.now rows.places (pages_of entries.now)) }
{
    let mut rows = Dest::new(alloc);
    for entry in entries {
        make_places_by(alloc, id, &mut rows, &entry.kind)?;
    }
    Ok(rows)
}

fn make_places_by(alloc: Global, id: &Text, rows: &mut Dest, kind: &Kind) -> Result<(), OutOfMemory>
    ensures held { rows.new.held ≡ rows.old.held }
    ensures kept { KeepsPlaces rows.old.places rows.new.places }
    ensures places { OnOk result (ArePlaced id.now rows.new.places (page_of kind.now)) }
{
    match kind {
        Kind::Page {
            id: other,
            rows: page,
            ..
        } => {
            if *id == *other {
                make_places(alloc, rows, page.as_slice())
            } else {
                Ok(())
            }
        }
        _ => Ok(()),
    }
}

fn make_places(alloc: Global, rows: &mut Dest, page: &[Row]) -> Result<(), OutOfMemory>
    ensures held { rows.new.held ≡ rows.old.held }
    ensures kept { KeepsPlaces rows.old.places rows.new.places }
    ensures places { OnOk result (HavePlaces rows.new.places (map row_key page.now)) }
{
    for row in page {
        rows.make_place(alloc, key_of_row(row), None)?;
    }
    Ok(())
}

/// The numbers of the sources that are there.
fn numbers(
    alloc: Global,
    indices: &[Index],
    steps: &[Prepared],
    names: &[Text],
) -> Result<List<u64>, OutOfMemory>
    ensures { IfOk result (λ numbers. numbers ≡ catalogue.source_numbers (indices.now ++ all_added steps.now) names.now) }
{
    let mut numbers = List::new(alloc);
    for name in names {
        if let Some(number) = number_of(indices, steps, name) {
            numbers.push(number)?;
        }
    }
    Ok(numbers)
}

/// A Page with a copy of its rows.
pub fn paged(alloc: Global, n: u64, rows: &[Row]) -> Result<Change, OutOfMemory>
    requires { 0 < length rows.now }
    ensures { IfOk result (IsPageOf n rows.now) }
{
    let copies = copy_rows(alloc, rows)?;
    let position = copy_key(alloc, last(rows))?;
    Ok(Change::Page {
        n,
        rows: copies,
        position,
    })
}

fn last(rows: &[Row]) -> &Key
    requires { 0 < length rows.now }
    ensures { last_key rows.now ≡ Some result.now }
{
    key_of_row(&rows[rows.len() - 1])
}

// Copies of rows of a transform without a retention policy.
fn copy_rows(alloc: Global, rows: &[Row]) -> Result<Vec<Held>, OutOfMemory>
    ensures { IfOk result (λ copies. rows_of copies.items ≡ rows.now) }
{
    let mut copies = Vec::new(alloc);
    for row in rows {
        let row = copy_row(alloc, row)?;
        copies.push(Held { row, moment: None })?;
    }
    Ok(copies)
}
