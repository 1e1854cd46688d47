// Walks over all documents of some runs.
ghost use Rattle.std.specs.Prelude.{◌≡◌, ◌+◌, ◌++◌, ◌<◌, ◌≤◌, ◌^◌, IfOk, OnOk, All, Some, length, map};
ghost use Rattle.std.specs.List.{list_any};
ghost use Rattle.tf_model.specs.Counted as spec;
ghost use Rattle.tf_reader.specs.Places.{IsShort, doc_at, documents, place_if, places_in, places_of};

use crate::place::Place;
use std::alloc::Global;
use tf_model::{Config, List, OutOfMemory};
use tf_query::is_in_window;
use tf_segment::Run;

/// How many documents there are in all.
pub fn count_of(runs: &[Run]) -> u64
    requires { length (documents runs.now) ≤ 2 ^ 40 }
    ensures { result ≡ length (documents runs.now) }
{
    let mut count = 0;
    for run in runs {
        count += run.len();
    }
    count
}

/// The places of the documents of a window, in their order.
pub fn scan_runs(
    alloc: Global,
    runs: &[Run],
    config: &Config,
    low: Option<i64>,
    high: Option<i64>,
) -> Result<List<Place>, OutOfMemory>
    requires { IsShort runs.now }
    ensures { IfOk result (λ places. map (doc_at runs.now) places ≡ map Some (spec.window config.now low high (documents runs.now))) }
{
    let mut places = List::new(alloc);
    for number in 0..runs.len() {
        scan_run(&mut places, &runs[number], number as u32, config, low, high)?;
    }
    Ok(places)
}

/// Appends the places of the documents of one run that are in the window. The run has this number.
fn scan_run(
    places: &mut List<Place>,
    run: &Run,
    number: u32,
    config: &Config,
    low: Option<i64>,
    high: Option<i64>,
) -> Result<(), OutOfMemory>
    requires { length run.now < 2 ^ 32 }
    ensures { OnOk result (places.new ≡ places.old ++ places_in (spec.is_in_window config.now low high) number 0 run.now) }
{
    for at in 0..run.len() {
        let doc = run.doc(at as usize);
        note_place(
            places,
            is_in_window(config, low, high, doc),
            number,
            at as u32,
        )?;
    }
    Ok(())
}

/// Appends a place where its document passes.
fn note_place(
    places: &mut List<Place>,
    passes: bool,
    number: u32,
    at: u32,
) -> Result<(), OutOfMemory>
    ensures { OnOk result (places.new ≡ places.old ++ place_if passes number at) }
{
    if passes {
        places.push(Place {
            run: number,
            doc: at,
        })?;
    }
    Ok(())
}

/// Whether a document of some run is in the window.
pub fn any_of_runs(runs: &[Run], config: &Config, low: Option<i64>, high: Option<i64>) -> bool
    ensures { result ≡ list_any (spec.is_in_window config.now low high) (documents runs.now) }
{
    for run in runs {
        if any_of_run(run, config, low, high) {
            return true;
        }
    }
    false
}

/// Whether a document of this run is in the window.
fn any_of_run(run: &Run, config: &Config, low: Option<i64>, high: Option<i64>) -> bool
    ensures { result ≡ list_any (spec.is_in_window config.now low high) run.now }
{
    for at in 0..run.len() {
        if is_in_window(config, low, high, run.doc(at as usize)) {
            return true;
        }
    }
    false
}
