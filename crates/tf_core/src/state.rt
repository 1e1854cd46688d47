// The state that a history leaves.
ghost use Rattle.std.specs.Prelude.{◌≡◌, ◌++◌, [], length, None, Some, IfOk, OnErr};
ghost use Rattle.tf_core.specs.Legal.{AreTakenAfter, IsTakenHistory};
ghost use Rattle.tf_core.specs.Held.{last_ms_of, late_in, life_in, pages_in, row_count_in};

use crate::applying::apply_all;
use crate::counts::Counts;
use crate::ids::Ids;
use crate::index::Index;
use crate::kept::{Kept, moment};
use crate::marks::move_marks;
use crate::preparing::make_ready;
use crate::ready::Ready;
use crate::table::find;
use crate::transform::Transform;
use std::alloc::Global;
use std::marker::Model;
use std::snapshot::Snapshot;
use std::sync::Arc;
use tf_model::{Doc, Entry, List, OutOfMemory, Text};

/// The state that a history leaves. Contracts see the history, the entries that are ready, and how many were found.
#[derive(Drop)]
pub struct Core {
    pub(crate) alloc: Global,
    /// The history, oldest entry first.
    pub(crate) entries: Vec<Kept>,
    /// The indices, in the order of their numbers.
    pub(crate) indices: Vec<Index>,
    /// The documents of all indices, in the order of writing.
    pub(crate) docs: Vec<Arc<Doc, Global>>,
    /// The transforms, newest first.
    pub(crate) transforms: Vec<Transform>,
    /// The places of documents by their ids. What is prepared is entered and not yet seen.
    pub(crate) ids: Ids,
    /// How many documents each shard has, and how many entries name each transform.
    pub(crate) counts: Counts,
    pub(crate) found: u64,
    pub(crate) ready: Option<Snapshot<Ready>>,
}

impl Model for Core {
    ghost use Rattle.std.specs.Coded.{codes};
    ghost use Rattle.tf_model.specs.contracts.query.Query as query;
    ghost use Rattle.tf_model.specs.contracts.tree.Tree as tree;
    ghost use Rattle.tf_core.specs.Held.{Held, batch_in};
    ghost use Rattle.tf_core.specs.Kept.{history_in};
    ghost use Rattle.tf_core.specs.Standing.{IsCore};

    ghost Value = { Held };

    ghost coded = { Prim.hlevel (codes, query.the_row.coded, tree.the_row.coded) };

    ghost view = { λ c. record { history = history_in c.entries.items; ready = batch_in c.ready; found = c.found } };

    ghost invariant = { λ c. IsCore c.ids c.counts c.entries c.indices c.docs c.transforms (batch_in c.ready) };
}

impl Core {
    /// The empty history.
    pub fn new(alloc: Global) -> Core
        ensures history { result.history ≡ [] }
        ensures found { result.found ≡ 0 }
        ensures ready { result.ready ≡ None }
    {
        Core {
            alloc,
            entries: Vec::new(alloc),
            indices: Vec::new(alloc),
            docs: Vec::new(alloc),
            transforms: Vec::new(alloc),
            ids: Ids::new(alloc),
            counts: Counts::new(alloc),
            found: 0,
            ready: None,
        }
    }

    /// Each entry of the history was taken after those before it. It does nothing: its clause is what a core keeps.
    pub fn is_taken(&self)
        ensures { IsTakenHistory self.now.history }
    {
        let _kept = &self.entries;
    }

    /// How many entries the history has.
    pub fn count(&self) -> u64
        ensures { result ≡ length self.now.history }
    {
        self.entries.len() as u64
    }

    /// Sets the found count to the length of the history.
    pub fn found(&mut self)
        ensures history { self.new.history ≡ self.old.history }
        ensures ready { self.new.ready ≡ self.old.ready }
        ensures found { self.new.found ≡ length self.old.history }
    {
        self.found = self.entries.len() as u64;
    }

    /// The found count.
    pub fn found_count(&self) -> u64
        ensures { result ≡ self.now.found }
    {
        self.found
    }

    /// The moment of the last entry, 0 where there is none.
    pub fn last_ms(&self) -> i64
        ensures { result ≡ last_ms_of self.now.history }
    {
        match self.entries.last() {
            None => 0,
            Some(kept) => moment(kept),
        }
    }

    /// The number of late documents of a transform, 0 where it is not there.
    pub fn late_of(&self, id: &Text) -> u64
        ensures { result ≡ late_in (life_in id.now self.now.history) }
    {
        match find(self.transforms.as_slice(), id) {
            None => 0,
            Some(transform) => transform.late,
        }
    }

    /// The number of rows of a transform's destination, 0 where it is not there.
    pub fn rows_of(&self, id: &Text) -> u64
        ensures { result ≡ row_count_in (life_in id.now self.now.history) }
    {
        match find(self.transforms.as_slice(), id) {
            None => 0,
            Some(transform) => transform.rows.len() as u64,
        }
    }

    /// The number of Pages of a transform's newest checkpoint, 0 where it is not there.
    pub fn pages_of(&self, id: &Text) -> u64
        ensures { result ≡ pages_in (life_in id.now self.now.history) }
    {
        match find(self.transforms.as_slice(), id) {
            None => 0,
            Some(transform) => transform.pages,
        }
    }

    /// Takes all the memory that entries need, and changes nothing that contracts see but what is ready.
    pub fn prepare(&mut self, entries: List<Entry>) -> Result<Ready, OutOfMemory>
        requires taken { AreTakenAfter self.old.history entries }
        ensures history { self.new.history ≡ self.old.history }
        ensures found { self.new.found ≡ self.old.found }
        ensures entries { IfOk result (λ ready. ready.entries ≡ entries) }
        ensures ready { IfOk result (λ ready. self.new.ready ≡ Some ready) }
        ensures err { OnErr result (self.new.ready ≡ None) }
    {
        let made = make_ready(
            self.alloc,
            &mut self.entries,
            &mut self.indices,
            &mut self.docs,
            &mut self.transforms,
            &mut self.ids,
            &mut self.counts,
            entries,
        );
        match made {
            Ok(steps) => {
                let ready = Ready::new(steps);
                self.ready = Some(Snapshot::of(&ready));
                Ok(ready)
            }
            Err(error) => {
                self.ready = None;
                Err(error)
            }
        }
    }

    /// Makes the history longer by the entries that were prepared. Takes no memory. It looks at no entry, and at a document
    /// only to move a mark over it.
    pub fn apply(&mut self, ready: Ready)
        requires { self.old.ready ≡ Some ready }
        ensures history { self.new.history ≡ self.old.history ++ ready.entries }
        ensures found { self.new.found ≡ self.old.found }
        ensures ready { self.new.ready ≡ None }
    {
        apply_all(
            &mut self.entries,
            &mut self.indices,
            &mut self.docs,
            &mut self.transforms,
            &mut self.counts,
            ready.into_steps(),
        );
        move_marks(&mut self.transforms, self.docs.as_slice());
        self.ready = None;
    }
}
