// Plans.
ghost use Rattle.std.specs.Prelude.{◌≡◌, ◌+◌, ◌++◌, ◌≤◌, ℕ, ℤ, IfOk, List, None, OnErr, Option, length, take, drop};
ghost use Rattle.std.specs.Option.{option_copied};
ghost use Rattle.tf_model.specs.declared.config.Config.{Config as C};
ghost use Rattle.tf_model.specs.declared.doc.Doc.{Doc as D};
ghost use Rattle.tf_model.specs.declared.value.Key.{Key as K};
ghost use Rattle.tf_model.specs.declared.config.Shape.{Shape as S};
ghost use Rattle.tf_model.specs.Conditions.{AllFit, IsInRange};
ghost use Rattle.tf_model.specs.Counted.{counted, window};
ghost use Rattle.tf_model.specs.Latest.{sort_of};
ghost use Rattle.tf_plan.specs.Left.{IsPage, IsPlan, behind, left_after, next_page, position_after, rows_page};
ghost use Rattle.tf_plan.specs.Left as spec;
ghost use Rattle.tf_plan.specs.Shaped.{IsLatestPlan, IsShapedPage, IsShapedPlan};
ghost use Rattle.tf_reader.specs.Places.{documents};

use crate::naming::{named_rows, sorted_newest};
use crate::page::Page;
use crate::passes::changed_folds;
use crate::rows::rows_of;
use crate::scanning::changed_newest;
use crate::sorted::sorted_folds;
use std::alloc::Global;
use std::marker::Model;
use std::sync::ledger::Ledger;
use tf_model::{Config, Key, List, OutOfMemory, Row, Shape, Steps, SumRange, Text, copy_key};
use tf_reader::Reader;

/// What is left of a checkpoint: the changed keys above a position with their rows, up to the first key that has a sum
/// outside `i64`, which is kept with its sum.
#[derive(Drop)]
pub struct Plan {
    /// The rows, the last one first.
    rows: Vec<Row>,
    wide: Option<SumRange>,
}

impl Model for Plan {
    ghost use Rattle.std.specs.Prelude.{reverse};
    ghost use Rattle.tf_plan.specs.Left.{Left};

    ghost Value = { Left };

    ghost view = { λ plan. record { rows = reverse plan.rows.items; wide = plan.wide } };
}

impl Plan {
    /// The plan of these rows, ascending by key.
    pub(crate) fn new(rows: List<Row>, wide: Option<SumRange>) -> Plan
        ensures { result ≡ record { rows = rows; wide = wide } }
    {
        let mut rows = rows.into_vec();
        rows.reverse();
        Plan { rows, wide }
    }

    /// The changed keys above the position `after`, with their rows over the documents that count below `high`.
    ///
    /// The changed keys are those of the reader's documents that match the query of `config` and have a sync value below
    /// `high` and not below `low`, both in milliseconds since 1970, as of `tf_page::changed_after`. The rows are those of
    /// `tf_pivot::rows_for`. The window is gone over once and the documents that count once, with one step for each; where
    /// there is no low bound these are the same documents, and they are gone over once.
    ///
    /// `OutOfMemory` is the only error.
    pub fn make<L: Ledger>(
        alloc: Global,
        reader: &Reader,
        config: &Config,
        low: Option<i64>,
        high: Option<i64>,
        after: Option<&Key>,
        steps: &mut Steps<L>,
    ) -> Result<Plan, OutOfMemory>
        requires config { IsInRange config.now }
        requires docs { AllFit config.now (documents reader.now) }
        ensures plan { IfOk result (IsPlan config.now low high (option_copied after.entry) (documents reader.now)) }
        ensures cost { steps.new ≤ steps.old + length (window config.now low high (documents reader.now)) + length (counted config.now high (documents reader.now)) }
        ensures once { low ≡ None → steps.new ≤ steps.old + length (counted config.now high (documents reader.now)) }
    {
        let folds = changed_folds(alloc, reader, config, low, high, after, steps)?;
        let sorted = sorted_folds(alloc, folds)?;
        rows_of(alloc, config, sorted)
    }

    /// The plan of a configuration of either shape: that of `make` for a pivot. For a latest the rows are those of
    /// `tf_latest::rows_for`, and none is missing for a sum. `sources` are the numbers of the source indices in the order of
    /// the configuration.
    ///
    /// `OutOfMemory` is the only error.
    pub fn make_for<L: Ledger>(
        alloc: Global,
        reader: &Reader,
        sources: &[u64],
        config: &Config,
        low: Option<i64>,
        high: Option<i64>,
        after: Option<&Key>,
        steps: &mut Steps<L>,
    ) -> Result<Plan, OutOfMemory>
        requires config { IsInRange config.now }
        requires docs { AllFit config.now (documents reader.now) }
        ensures plan { IfOk result (IsShapedPlan config.now.shape sources.now config.now low high (option_copied after.entry) (documents reader.now)) }
        ensures cost { steps.new ≤ steps.old + length (window config.now low high (documents reader.now)) + length (counted config.now high (documents reader.now)) }
        ensures once { low ≡ None → steps.new ≤ steps.old + length (counted config.now high (documents reader.now)) }
    {
        match &config.shape {
            Shape::Pivot { .. } => Plan::make(alloc, reader, config, low, high, after, steps),
            Shape::Latest { sort, .. } => {
                latest_plan(
                    alloc, reader, sources, config, sort, low, high, after, steps,
                )
            }
        }
    }

    /// The next page: the rows of the least keys that are left, as many as `size` or all, or the sum for which they cannot
    /// be given. The rows are moved out, and the position moves to the last of them. After a sum the plan is as before, and
    /// also after `OutOfMemory`, the only error.
    ///
    /// It is what `tf_page::changed_after` gives above the position, with the rows that `tf_pivot::rows_for` makes of its
    /// keys, and for the plan of a latest those of `tf_latest::rows_for`.
    pub fn next(&mut self, alloc: Global, size: u32) -> Result<Page, OutOfMemory>
        ensures page { (c : C) (low high : Option ℤ) (after : Option K) (docs : List D) → IsPlan c low high after docs self.old → IfOk result (IsPage c low high after docs size) }
        ensures left { (c : C) (low high : Option ℤ) (after : Option K) (docs : List D) → IsPlan c low high after docs self.old → IfOk result (λ page. IsPlan c low high (position_after after page) docs self.new) }
        ensures shaped_page { (s : S) (sources : List ℕ) (c : C) (low high : Option ℤ) (after : Option K) (docs : List D) → IsShapedPlan s sources c low high after docs self.old → IfOk result (IsShapedPage s sources c low high after docs size) }
        ensures shaped_left { (s : S) (sources : List ℕ) (c : C) (low high : Option ℤ) (after : Option K) (docs : List D) → IsShapedPlan s sources c low high after docs self.old → IfOk result (λ page. IsShapedPlan s sources c low high (position_after after page) docs self.new) }
        ensures err { OnErr result (self.new ≡ self.old) }
    {
        self.next_of(alloc, size as usize)
    }

    fn next_of(&mut self, alloc: Global, size: usize) -> Result<Page, OutOfMemory>
        ensures page { IfOk result (λ page. page ≡ next_page size self.old) }
        ensures left { IfOk result (λ page. self.new ≡ left_after size self.old) }
        ensures err { OnErr result (self.new ≡ self.old) }
    {
        match self.wide_within(size) {
            Some(found) => Ok(Page::Wide(copy_sum(alloc, found)?)),
            None => self.take_page(size),
        }
    }

    /// The sum of a key among the next ones, where one has no row. Takes no memory.
    fn wide_within(&self, size: usize) -> Option<&SumRange>
        ensures { option_copied result ≡ spec.wide_within size self.now }
    {
        if self.rows.len() < size {
            self.wide.as_ref()
        } else {
            None
        }
    }

    /// Moves the next rows out, as many as `size` or all.
    fn take_page(&mut self, size: usize) -> Result<Page, OutOfMemory>
        ensures page { IfOk result (λ page. page ≡ rows_page size self.old) }
        ensures left { IfOk result (λ page. self.new ≡ behind size self.old) }
        ensures err { OnErr result (self.new ≡ self.old) }
    {
        let count = size.min(self.rows.len());
        let rows = self.take_rows(count)?;
        let is_last = self.is_empty();
        Ok(Page::Rows { rows, is_last })
    }

    /// Whether no key is left.
    fn is_empty(&self) -> bool
        ensures { result ≡ spec.is_empty self.now }
    {
        self.rows.is_empty() && self.wide.is_none()
    }

    /// Moves the first rows out.
    fn take_rows(&mut self, count: usize) -> Result<List<Row>, OutOfMemory>
        requires { count ≤ length self.old.rows }
        ensures rows { IfOk result (λ rows. rows ≡ take count self.old.rows) }
        ensures left { IfOk result (λ rows. self.new ≡ record { rows = drop count self.old.rows; wide = self.old.wide }) }
        ensures err { OnErr result (self.new ≡ self.old) }
    {
        let mut rows = split_last(&mut self.rows, count)?;
        rows.reverse();
        Ok(List::from_vec(rows))
    }
}

/// The plan of a latest with this sort field.
fn latest_plan<L: Ledger>(
    alloc: Global,
    reader: &Reader,
    sources: &[u64],
    config: &Config,
    sort: &Text,
    low: Option<i64>,
    high: Option<i64>,
    after: Option<&Key>,
    steps: &mut Steps<L>,
) -> Result<Plan, OutOfMemory>
    requires config { IsInRange config.now }
    requires docs { AllFit config.now (documents reader.now) }
    requires sort { sort.now ≡ sort_of config.now.shape }
    ensures plan { IfOk result (IsLatestPlan sources.now config.now low high (option_copied after.entry) (documents reader.now)) }
    ensures cost { steps.new ≤ steps.old + length (window config.now low high (documents reader.now)) + length (counted config.now high (documents reader.now)) }
    ensures once { low ≡ None → steps.new ≤ steps.old + length (counted config.now high (documents reader.now)) }
{
    let newest = changed_newest(
        alloc, reader, sources, config, sort, low, high, after, steps,
    )?;
    let sorted = sorted_newest(alloc, newest)?;
    let rows = named_rows(alloc, sorted)?;
    Ok(Plan::new(rows, None))
}

/// Takes the last items off.
fn split_last(rows: &mut Vec<Row>, count: usize) -> Result<Vec<Row>, OutOfMemory>
    requires { count ≤ length rows.old.items }
    ensures rows { IfOk result (λ last. rows.old.items ≡ rows.new.items ++ last.items) }
    ensures count { IfOk result (λ last. length last.items ≡ count) }
    ensures err { OnErr result (rows.new ≡ rows.old) }
{
    let kept = rows.len() - count;
    let last = rows.split_off(kept)?;
    Ok(last)
}

/// An equal sum.
fn copy_sum(alloc: Global, sum: &SumRange) -> Result<SumRange, OutOfMemory>
    ensures { IfOk result (λ copy. copy ≡ sum.now) }
{
    Ok(SumRange {
        key: copy_key(alloc, &sum.key)?,
        name: sum.name.copy(alloc)?,
        value: sum.value,
    })
}
