// The passes over the documents of a reader for a latest.
ghost use Rattle.std.specs.Prelude.{◌≡◌, ◌+◌, ◌≤◌, IfOk, None, length};
ghost use Rattle.std.specs.Option.{option_copied};
ghost use Rattle.tf_model.specs.Conditions.{AllFit, IsInRange};
ghost use Rattle.tf_model.specs.Counted as spec;
ghost use Rattle.tf_plan.specs.Newest.{AreNewest, newest_at};
ghost use Rattle.tf_reader.specs.Places.{documents};

use crate::newest::{Newest, add_doc, grow_with, open_for};
use std::alloc::Global;
use std::collections::HashMap;
use std::sync::ledger::Ledger;
use tf_model::{Config, Key, OutOfMemory, Steps, Text};
use tf_reader::Reader;

/// The newest documents of the changed keys above a position: where there is no low bound in one pass, and otherwise in one
/// over the window and one over the counted documents.
#[tactic(auto, using(tf_model::proofs::WindowLaws::window_of_all))]
pub fn changed_newest<'a, L: Ledger>(
    alloc: Global,
    reader: &'a Reader,
    sources: &[u64],
    config: &Config,
    sort: &Text,
    low: Option<i64>,
    high: Option<i64>,
    after: Option<&Key>,
    steps: &mut Steps<L>,
) -> Result<Newest<'a>, OutOfMemory>
    requires config { IsInRange config.now }
    requires docs { AllFit config.now (documents reader.now) }
    ensures newest { IfOk result (λ newest. AreNewest sources.now sort.now config.now (option_copied after.entry) (spec.window config.now low high (documents reader.now)) (spec.counted config.now high (documents reader.now)) (newest_at newest.entries)) }
    ensures cost { steps.new ≤ steps.old + length (spec.window config.now low high (documents reader.now)) + length (spec.counted config.now high (documents reader.now)) }
    ensures once { low ≡ None → steps.new ≤ steps.old + length (spec.counted config.now high (documents reader.now)) }
{
    match low {
        None => counted_newest(alloc, reader, sources, config, sort, high, after, steps),
        Some(_) => window_newest(
            alloc, reader, sources, config, sort, low, high, after, steps,
        ),
    }
}

/// The newest documents of the keys of all counted documents, in one pass.
fn counted_newest<'a, L: Ledger>(
    alloc: Global,
    reader: &'a Reader,
    sources: &[u64],
    config: &Config,
    sort: &Text,
    high: Option<i64>,
    after: Option<&Key>,
    steps: &mut Steps<L>,
) -> Result<Newest<'a>, OutOfMemory>
    requires config { IsInRange config.now }
    requires docs { AllFit config.now (documents reader.now) }
    ensures newest { IfOk result (λ newest. AreNewest sources.now sort.now config.now (option_copied after.entry) (spec.counted config.now high (documents reader.now)) (spec.counted config.now high (documents reader.now)) (newest_at newest.entries)) }
    ensures cost { steps.new ≤ steps.old + length (spec.counted config.now high (documents reader.now)) }
{
    let places = reader.counted(alloc, config, high)?;
    let mut newest = HashMap::new(alloc);
    for place in places.as_slice() {
        let doc = reader.fetch(*place, steps);
        grow_with(alloc, &mut newest, sources, config, sort, after, doc)?;
    }
    Ok(newest)
}

/// The newest documents of the keys of a window, in one pass over the window and one over the counted documents.
fn window_newest<'a, L: Ledger>(
    alloc: Global,
    reader: &'a Reader,
    sources: &[u64],
    config: &Config,
    sort: &Text,
    low: Option<i64>,
    high: Option<i64>,
    after: Option<&Key>,
    steps: &mut Steps<L>,
) -> Result<Newest<'a>, OutOfMemory>
    requires config { IsInRange config.now }
    requires docs { AllFit config.now (documents reader.now) }
    ensures newest { IfOk result (λ newest. AreNewest sources.now sort.now config.now (option_copied after.entry) (spec.window config.now low high (documents reader.now)) (spec.counted config.now high (documents reader.now)) (newest_at newest.entries)) }
    ensures cost { steps.new ≤ steps.old + length (spec.window config.now low high (documents reader.now)) + length (spec.counted config.now high (documents reader.now)) }
{
    let changed = reader.window(alloc, config, low, high)?;
    let mut newest = HashMap::new(alloc);
    for place in changed.as_slice() {
        let doc = reader.fetch(*place, steps);
        open_for(alloc, &mut newest, config, after, doc)?;
    }
    let counted = reader.counted(alloc, config, high)?;
    for spot in counted.as_slice() {
        let doc = reader.fetch(*spot, steps);
        add_doc(alloc, &mut newest, sources, config, sort, after, doc)?;
    }
    Ok(newest)
}
