// What the running checkpoint of a transform gets next.
ghost use Rattle.std.specs.Prelude.{◌≡◌, ◌<◌, ◌≤◌, IfOk, length, take};
ghost use Rattle.std.specs.Option.{option_copied};
ghost use Rattle.tf_model.specs.Changed.{changed_above};
ghost use Rattle.tf_model.specs.Conditions.{AllFit, IsInRange};
ghost use Rattle.tf_model.specs.Counted.{counted};
ghost use Rattle.tf_reader.specs.Places.{documents};
ghost use Rattle.tf_core.specs.Allowing as allowing;
ghost use Rattle.tf_core.specs.Allowing.{read_by};
ghost use Rattle.tf_core.specs.Moves.{IsAnswerFor, IsNextPage};
ghost use Rattle.tf_core.specs.Standing.{shared};

use crate::reading::reader_of;
use crate::transform::Transform;
use std::alloc::Global;
use std::marker::Brand;
use std::sync::Arc;
use std::sync::ledger::{Blank, Ledger};
use tf_model::{Config, Doc, Key, List, OutOfMemory, Row, Steps, SumRange, Text};
use tf_page::changed_after;
use tf_pivot::{PivotError, rows_for};
use tf_reader::Reader;

/// What a running checkpoint gets next.
#[derive(Drop)]
pub enum NextPage {
    /// The rows of its next page, none where no changed key is above the position.
    Rows(List<Row>),
    /// The first sum outside `i64` of the least key of the page that has one.
    Fails(SumRange),
}

/// What the running checkpoint of a transform gets next: the rows of the least changed keys above the position, as
/// many as the page size or all that are left, or the sum for which they cannot be written.
#[tactic(auto, using(crate::proofs::NextPages::answer_is))]
pub fn next_page(
    alloc: Global,
    transform: &Transform,
    docs: &[Arc<Doc, Global>],
) -> Result<NextPage, OutOfMemory>
    requires config { IsInRange transform.now.config }
    requires fit { AllFit transform.now.config (read_by transform.now (shared docs.now)) }
    ensures { IfOk result (IsNextPage transform.now (shared docs.now)) }
{
    let reader = reader_of(alloc, transform, docs)?;
    page_from::<Brand>(
        alloc,
        &reader,
        &transform.config,
        transform.low,
        transform.bound,
        transform.position.as_ref(),
        Blank::new(1),
    )
}

// The page of the least changed keys above a position, for a caller that counts no steps.
fn page_from<L: Ledger>(
    alloc: Global,
    reader: &Reader,
    config: &Config,
    low: Option<i64>,
    bound: Option<i64>,
    position: Option<&Key>,
    blank: Blank,
) -> Result<NextPage, OutOfMemory>
    requires config { IsInRange config.now }
    requires docs { AllFit config.now (documents reader.now) }
    requires name { blank.name ≡ L.name }
    requires parts { blank.parts ≡ L.parts }
    requires some { 0 < blank.parts }
    ensures { IfOk result (IsAnswerFor config.now (counted config.now bound (documents reader.now)) (take config.now.page_size (changed_above config.now low bound (option_copied position.entry) (documents reader.now)))) }
{
    let mut steps = Steps::<L>::new(blank);
    let changed = changed_after(
        alloc,
        reader,
        config,
        low,
        bound,
        position,
        config.page_size,
        &mut steps,
    )?;
    match rows_for(alloc, reader, config, bound, &changed.keys, &mut steps) {
        Ok(rows) => Ok(NextPage::Rows(rows)),
        Err(PivotError::SumRange(sum)) => Ok(NextPage::Fails(sum)),
        Err(PivotError::Memory) => Err(OutOfMemory),
    }
}

/// Whether the running checkpoint of a transform cannot get its next page for this sum.
pub fn fails_with(
    alloc: Global,
    transform: &Transform,
    docs: &[Arc<Doc, Global>],
    key: &Key,
    name: &Text,
    value: i128,
) -> Result<bool, OutOfMemory>
    requires config { IsInRange transform.now.config }
    requires fit { AllFit transform.now.config (read_by transform.now (shared docs.now)) }
    ensures { IfOk result (λ fails. fails ≡ allowing.is_told key.now name.now value (allowing.failure transform.now (shared docs.now))) }
{
    match next_page(alloc, transform, docs)? {
        NextPage::Rows(_) => Ok(false),
        NextPage::Fails(sum) => Ok(is_told(key, name, value, &sum)),
    }
}

fn is_told(key: &Key, name: &Text, value: i128, sum: &SumRange) -> bool
    ensures { result ≡ allowing.is_told key.now name.now value (Some sum.now) }
{
    *key == sum.key && *name == sum.name && value == sum.value
}
