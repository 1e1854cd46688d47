// The indexer.
ghost use Rattle.std.specs.Prelude.{◌≡◌, ◌∷◌, ℤ, None, IfOk, IfSome, List, MatchOption, reverse};
ghost use Rattle.std.specs.List.{AllByRecursion};
ghost use Rattle.tf_core.specs.Job.{Fits, IsJob, kind_for};
ghost use Rattle.tf_core.specs.Legal.{IsTaken, read};
ghost use Rattle.tf_core.specs.Moves.{moment_after, move};
ghost use Rattle.tf_core.specs.Texts.{HasTexts, IsShort, IsShortKind, IsShortPut};
ghost use Rattle.tf_history.specs.Legality.{next_move};
ghost use Rattle.tf_history.specs.Lives.{documents};
ghost use Rattle.tf_history.specs.Transforms.{transforms as puts};
ghost use Rattle.tf_indexer.specs.Holding.{CanBePlanned, IsAt, IsBehind, IsHeldAt, IsOf};
ghost use Rattle.tf_indexer.specs.Works as spec;
ghost use Rattle.tf_model.specs.declared.entry.Entry.{Entry as E};

use crate::planned::Planned;
use std::alloc::Global;
use tf_core::{Core, Job, What, Work};
use tf_model::{Entry, OutOfMemory, Text};

/// Makes the moves of transforms, one after the other. It holds the running checkpoint that it is at, with its plan, and
/// drops both where the next move is another transform's, or where the checkpoint comes to its end.
#[derive(Drop)]
pub struct Indexer {
    pub(crate) held: Option<Planned>,
}

impl Indexer {
    /// An indexer that holds nothing, and so is at every past.
    pub fn new() -> Indexer
        ensures { (past : List E) → IsAt past result }
    {
        Indexer { held: None }
    }

    /// The entry of the next move of a transform at the moment that a given one makes, none where it has none. It is taken
    /// next, and it is to be committed: the indexer goes on behind it. After `OutOfMemory`, the only error, and where the
    /// entry is not committed, the indexer is of no more use.
    pub fn next_entry(
        &mut self,
        alloc: Global,
        core: &Core,
        id: &Text,
        now: i64,
    ) -> Result<Option<Entry>, OutOfMemory>
        requires { IsAt (reverse core.now.history) self.old }
        ensures next { IfOk result (λ entry. entry ≡ move id.now (reverse core.now.history) (moment_after (reverse core.now.history) now)) }
        ensures taken { IfOk result (λ entry. IfSome entry (IsTaken (reverse core.now.history))) }
        ensures short { AllByRecursion (HasTexts IsShort) (documents (read (reverse core.now.history))) → AllByRecursion IsShortPut (puts (reverse core.now.history)) → IfOk result (λ entry. IfSome entry (λ e. IsShortKind e.kind)) }
        ensures behind { IfOk result (λ entry. MatchOption entry (IsAt (reverse core.now.history) self.new) (λ e. IsAt (e ∷ reverse core.now.history) self.new)) }
    {
        match self.next_work(alloc, core, id, now)? {
            Some(work) => {
                let entry = core.entry(id, work, now)?;
                Ok(Some(entry))
            }
            None => Ok(None),
        }
    }

    // The work that fits a transform, none where it has no next move.
    fn next_work(
        &mut self,
        alloc: Global,
        core: &Core,
        id: &Text,
        now: i64,
    ) -> Result<Option<Work>, OutOfMemory>
        requires { IsAt (reverse core.now.history) self.old }
        ensures fits { IfOk result (λ work. MatchOption work (next_move id.now (read (reverse core.now.history)) (moment_after (reverse core.now.history) now) ≡ None) (Fits (reverse core.now.history) (moment_after (reverse core.now.history) now) id.now)) }
        ensures behind { IfOk result (λ work. MatchOption work (IsAt (reverse core.now.history) self.new) (IsBehind (reverse core.now.history) id.now self.new)) }
    {
        match self.take_of(id) {
            Some(held) => {
                let work = self.go_on(alloc, held)?;
                Ok(Some(work))
            }
            None => self.begin(alloc, core, id, now),
        }
    }

    // Takes what is held out, and gives it where it is of this transform.
    fn take_of(&mut self, id: &Text) -> Option<Planned>
        ensures left { self.new.held ≡ None }
        ensures own { IfSome result (λ held. held.id ≡ id.now) }
        ensures at { (past : List E) → IsAt past self.old → IfSome result (IsHeldAt past) }
    {
        let held = self.held.take()?;
        if held.id == *id { Some(held) } else { None }
    }

    // The work of a new job.
    fn begin(
        &mut self,
        alloc: Global,
        core: &Core,
        id: &Text,
        now: i64,
    ) -> Result<Option<Work>, OutOfMemory>
        requires { self.old.held ≡ None }
        ensures fits { IfOk result (λ work. MatchOption work (next_move id.now (read (reverse core.now.history)) (moment_after (reverse core.now.history) now) ≡ None) (Fits (reverse core.now.history) (moment_after (reverse core.now.history) now) id.now)) }
        ensures behind { IfOk result (λ work. MatchOption work (IsAt (reverse core.now.history) self.new) (IsBehind (reverse core.now.history) id.now self.new)) }
    {
        match core.job(id, now)? {
            Some(job) => {
                let work = self.work_on(alloc, job)?;
                Ok(Some(work))
            }
            None => Ok(None),
        }
    }

    // The work of a job.
    fn work_on(&mut self, alloc: Global, job: Job) -> Result<Work, OutOfMemory>
        requires free { self.old.held ≡ None }
        requires planned { CanBePlanned job.what }
        ensures fits { (past : List E) (moment : ℤ) → IsOf past moment job → IfOk result (Fits past moment job.id) }
        ensures behind { (past : List E) (moment : ℤ) → IsOf past moment job → IfOk result (IsBehind past job.id self.new) }
    {
        let Job { id, what } = job;
        match what {
            What::Stopped => Ok(Work::Stopped),
            What::Begin { n, bound } => Ok(Work::Begin { n, bound }),
            What::Page(running) => {
                let held = Planned::make(alloc, id, running)?;
                self.go_on(alloc, held)
            }
        }
    }

    // The next work of a running checkpoint, which is held on where the work is a Page.
    fn go_on(&mut self, alloc: Global, held: Planned) -> Result<Work, OutOfMemory>
        requires { self.old.held ≡ None }
        ensures fits { (past : List E) (moment : ℤ) → IsHeldAt past held → IfOk result (Fits past moment held.id) }
        ensures behind { (past : List E) → IsHeldAt past held → IfOk result (IsBehind past held.id self.new) }
    {
        let mut held = held;
        let work = held.next(alloc)?;
        if is_page(&work) {
            self.held = Some(held);
        }
        Ok(work)
    }
}

fn is_page(work: &Work) -> bool
    ensures { result ≡ spec.is_page work.now }
{
    match work {
        Work::Page { .. } => true,
        Work::Stopped | Work::Begin { .. } | Work::Finish { .. } | Work::Fail { .. } => false,
    }
}
