// A running checkpoint with its plan.
ghost use Rattle.std.specs.Prelude.{◌≡◌, ◌<◌, ◌∷◌, ℤ, IfOk, List, Some, length};
ghost use Rattle.std.specs.Option.{option_copied};
ghost use Rattle.tf_core.specs.Job.{Fits, kind_for};
ghost use Rattle.tf_history.specs.Lives.{last_key as spec_last_key};
ghost use Rattle.tf_history.specs.Meaning.{row_key};
ghost use Rattle.tf_indexer.specs.Holding.{IsHeldAt, IsPageWork};
ghost use Rattle.tf_indexer.specs.Works.{IsPageFor, IsPlanOf, behind_page, work_by};
ghost use Rattle.tf_model.specs.declared.entry.Entry.{Entry as E};
ghost use Rattle.tf_model.specs.Conditions.{AllFit, IsInRange};
ghost use Rattle.tf_reader.specs.Places.{documents};

use crate::works::work_of;
use std::alloc::Global;
use std::marker::Brand;
use std::sync::ledger::{Blank, Ledger};
use tf_core::{Running, Work};
use tf_model::{Key, OutOfMemory, Row, Steps, Text, copy_key};
use tf_plan::{Page, Plan};

/// A running checkpoint of a transform, with the plan of what is left to do.
#[derive(Drop)]
pub struct Planned {
    pub id: Text,
    pub running: Running,
    pub plan: Plan,
}

impl Planned {
    /// The plan of a running checkpoint, for which its documents are read once.
    pub fn make(alloc: Global, id: Text, running: Running) -> Result<Planned, OutOfMemory>
        requires config { IsInRange running.config }
        requires docs { AllFit running.config (documents running.reader) }
        ensures id { IfOk result (λ made. made.id ≡ id) }
        ensures running { IfOk result (λ made. made.running ≡ running) }
        ensures plan { IfOk result (λ made. IsPlanOf running made.plan) }
    {
        let plan = plan_of(alloc, &running)?;
        Ok(Planned { id, running, plan })
    }

    /// The next work, which fits the transform. Behind a Page the position is that of the Page. `OutOfMemory` is the only error.
    pub fn next(&mut self, alloc: Global) -> Result<Work, OutOfMemory>
        ensures fits { (past : List E) (moment : ℤ) → IsHeldAt past self.old → IfOk result (Fits past moment self.old.id) }
        ensures behind { (past : List E) (e : E) → IsHeldAt past self.old → IfOk result (λ work. IsPageWork work → e.kind ≡ kind_for self.old.id work → IsHeldAt (e ∷ past) self.new) }
    {
        let page = self.next_page(alloc)?;
        Ok(work_of(self.running.n, page))
    }

    // The next page of the plan, to which the position moves.
    fn next_page(&mut self, alloc: Global) -> Result<Page, OutOfMemory>
        ensures id { self.new.id ≡ self.old.id }
        ensures running { IfOk result (λ page. self.new.running ≡ behind_page page self.old.running) }
        ensures page { IsPlanOf self.old.running self.old.plan → IfOk result (IsPageFor self.old.running) }
        ensures plan { IsPlanOf self.old.running self.old.plan → IfOk result (λ page. IsPlanOf (behind_page page self.old.running) self.new.plan) }
    {
        let page = self.plan.next(alloc, self.running.config.page_size)?;
        move_to(alloc, &mut self.running, &page)?;
        Ok(page)
    }
}

// Moves the position to the last key of a page, where it has one.
fn move_to(alloc: Global, running: &mut Running, page: &Page) -> Result<(), OutOfMemory>
    ensures { IfOk result (λ done. running.new ≡ behind_page page.now running.old) }
{
    if let Page::Rows { rows, .. } = page {
        if let Some(key) = last_key(rows.as_slice()) {
            running.after = Some(copy_key(alloc, key)?);
        }
    }
    Ok(())
}

fn last_key(rows: &[Row]) -> Option<&Key>
    ensures { option_copied result ≡ spec_last_key rows.now }
{
    if rows.is_empty() {
        return None;
    }
    Some(last(rows))
}

fn last(rows: &[Row]) -> &Key
    requires { 0 < length rows.now }
    ensures { spec_last_key rows.now ≡ Some result.now }
{
    key(&rows[rows.len() - 1])
}

fn key(row: &Row) -> &Key
    ensures { result.now ≡ row_key row.now }
{
    match row {
        Row::Pivot { key, .. } => key,
        Row::Latest { key, .. } => key,
    }
}

// The plan of a running checkpoint, for a caller that counts no steps.
fn plan_of(alloc: Global, running: &Running) -> Result<Plan, OutOfMemory>
    requires config { IsInRange running.now.config }
    requires docs { AllFit running.now.config (documents running.now.reader) }
    ensures { IfOk result (IsPlanOf running.now) }
{
    plan_from::<Brand>(alloc, running, Blank::new(1))
}

fn plan_from<L: Ledger>(alloc: Global, running: &Running, blank: Blank) -> Result<Plan, OutOfMemory>
    requires config { IsInRange running.now.config }
    requires docs { AllFit running.now.config (documents running.now.reader) }
    requires name { blank.name ≡ L.name }
    requires parts { blank.parts ≡ L.parts }
    requires some { 0 < blank.parts }
    ensures { IfOk result (IsPlanOf running.now) }
{
    let mut steps = Steps::<L>::new(blank);
    Plan::make(
        alloc,
        &running.reader,
        &running.config,
        running.low,
        running.high,
        running.after.as_ref(),
        &mut steps,
    )
}
