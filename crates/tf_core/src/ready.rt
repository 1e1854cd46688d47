// What is prepared for entries.
ghost use Rattle.std.specs.Prelude.{◌≡◌, ◌<◌, length, get_or};
ghost use Rattle.tf_core.specs.Chain.{entries_in};
ghost use Rattle.tf_core.specs.Kept.{entry_of};

use crate::index::Index;
use crate::kept::Kept;
use crate::transform::Transform;
use std::alloc::Global;
use std::marker::Model;
use std::sync::Arc;
use tf_dest::Held;
use tf_model::{Doc, Key, SumRange, Text};

/// What an entry changes in one transform, with all the memory that it needs.
#[derive(Drop)]
pub enum Change {
    Start,
    AskStop {
        wait: bool,
    },
    Stop,
    Prompt,
    Fail(SumRange),
    Begin {
        n: u64,
        bound: Option<i64>,
        at_ms: i64,
    },
    Page {
        n: u64,
        rows: Vec<Held>,
        /// The key of the last row.
        position: Key,
    },
    Finish {
        n: u64,
    },
    Reset,
}

/// What an entry changes, with all the memory that it needs.
#[derive(Drop)]
pub enum Step {
    Index(Index),
    Write(Arc<Doc, Global>),
    Put(Transform),
    Delete(Text),
    Change { id: Text, change: Change },
}

/// An entry as it will be kept, and what it changes.
#[derive(Drop)]
pub struct Prepared {
    pub kept: Kept,
    pub step: Step,
}

/// Entries that can be applied with no more memory. Contracts see the entries and their steps, the oldest first.
#[derive(Drop)]
pub struct Ready {
    steps: Vec<Prepared>,
}

impl Model for Ready {
    ghost use Rattle.std.specs.Coded.{codes};
    ghost use Rattle.tf_model.specs.contracts.query.Query as query;
    ghost use Rattle.tf_model.specs.contracts.tree.Tree as tree;
    ghost use Rattle.tf_core.specs.Chain.{Batch, entries_in};

    ghost Value = { Batch };

    ghost coded = { Prim.hlevel (codes, query.the_row.coded, tree.the_row.coded) };

    ghost view = { λ r. record { entries = entries_in r.steps.items; steps = r.steps.items } };
}

impl Ready {
    /// These entries. Takes no memory.
    pub(crate) fn new(steps: Vec<Prepared>) -> Ready
        ensures entries { result.entries ≡ entries_in steps.items }
        ensures steps { result.steps ≡ steps.items }
    {
        Ready { steps }
    }

    /// How many entries there are. Takes no memory.
    pub fn len(&self) -> usize
        ensures { result ≡ length self.now.entries }
    {
        self.steps.len()
    }

    /// The entry at a place, as it will be kept. Takes no memory.
    pub fn get(&self, at: usize) -> &Kept
        requires { at < length self.now.entries }
        ensures { entry_of result.now ≡ get_or self.now.entries at (entry_of result.now) }
    {
        let prepared = &self.steps[at];
        &prepared.kept
    }

    /// The prepared entries, which are moved. Takes no memory.
    pub(crate) fn into_steps(self) -> Vec<Prepared>
        ensures steps { result.items ≡ self.steps }
        ensures entries { entries_in result.items ≡ self.entries }
    {
        let Ready { steps } = self;
        steps
    }
}
