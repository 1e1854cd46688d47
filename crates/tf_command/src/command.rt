// Commands, and why a line is none.
ghost use Rattle.std.specs.Prelude.{◌≡◌};
ghost use Rattle.tf_command.specs.Formed.{IsFormed};

use std::alloc::{AllocError, AllocFailed};
use std::marker::Model;
use tf_model::{List, Text, Tree};

/// A line that was read whole. Contracts see its parts.
///
/// It keeps in its type that its parts have their forms: the lane is from 0 to 7, the trees are ones that a line can be, and no
/// text or printed tree is longer than a line.
#[derive(Debug, Drop)]
pub struct Command {
    parts: Parts,
}

impl Model for Command {
    ghost use Rattle.std.specs.Coded.{codes};
    ghost use Rattle.tf_command.specs.Formed.{IsFormed};
    ghost use Rattle.tf_command.specs.declared.command.Parts.{Parts};
    ghost use Rattle.tf_model.specs.contracts.tree.Tree as tree;

    ghost Value = { Parts };

    ghost coded = { Prim.hlevel (codes, tree.the_row.coded) };

    ghost view = { λ command. command.parts };

    ghost invariant = { λ command. IsFormed command.parts };
}

impl Command {
    /// The command of parts that have their forms.
    pub fn of(parts: Parts) -> Command
        requires { IsFormed parts }
        ensures { result ≡ parts }
    {
        Command { parts }
    }

    /// Its parts, which have their forms.
    pub fn parts(&self) -> &Parts
        ensures parts { result.now ≡ self.now }
        ensures formed { IsFormed result.now }
    {
        &self.parts
    }
}

/// The parts of a command.
#[derive(Debug, Drop)]
pub struct Parts {
    /// The number of the line in its script.
    pub line: u64,
    /// The lane that the line asks for, from 0 to 7; 0 where it asks for none.
    pub lane: u8,
    /// The moment that the line gives.
    pub at_ms: Option<i64>,
    pub op: Op,
}

/// What a command does.
#[derive(Debug, Drop)]
pub enum Op {
    /// `shards` is any whole number that a line can have: its limit is asked later. `quick` is false.
    CreateIndex {
        index: Text,
        mappings: Tree,
        shards: i128,
        stamp: Option<Text>,
        quick: bool,
    },
    Index {
        index: Text,
        id: Text,
        doc: Tree,
    },
    /// The ids of the documents and the documents, in the order of the line.
    Bulk {
        index: Text,
        docs: List<(Text, Tree)>,
    },
    PutTransform {
        id: Text,
        config: Tree,
    },
    Delete {
        id: Text,
    },
    Start {
        id: Text,
    },
    Stop {
        id: Text,
        wait: bool,
        force: bool,
    },
    Reset {
        id: Text,
    },
    ScheduleNow {
        id: Text,
    },
    Step {
        id: Text,
    },
    Await {
        id: Text,
        checkpoint: u64,
    },
    Settle,
    /// `after` is an array.
    Search {
        index: Text,
        size: u32,
        after: Option<Tree>,
    },
    Stats {
        id: Text,
    },
    Preview {
        config: Tree,
    },
}

/// Why a line is no command.
#[derive(Debug, Drop)]
pub enum LineError {
    /// The line has more than 1,048,576 bytes.
    LineTooLong { bytes: u64 },
    /// The line is no JSON text, or no object.
    BadJson,
    /// A number is neither an i64 nor a u64. The path leads to the first one, as `doc.v`.
    Fraction { path: Text },
    /// The member `op` is absent, no text, or no name of an op.
    UnknownOp,
    /// A member that the op must have is absent: the first by name.
    MissingField { field: Text },
    /// A member is not among those of the op, or has not its form: the first by name.
    BadValue { field: Text },
    /// Memory ran out, which may come at any line.
    Memory,
}

impl From<AllocError> for LineError {
    ghost use Rattle.tf_command.specs.declared.command.LineError.TheVariants.{Memory};
    ghost use Rattle.std.specs.Prelude.{◌≡◌};

    ghost from_gives = { λ _ e. e ≡ Memory };

    fn from(_refused: AllocError) -> LineError {
        LineError::Memory
    }
}

impl<T: Drop> From<AllocFailed<T>> for LineError {
    ghost use Rattle.tf_command.specs.declared.command.LineError.TheVariants.{Memory};
    ghost use Rattle.std.specs.Prelude.{◌≡◌};

    ghost from_gives = { λ _ e. e ≡ Memory };

    fn from(_refused: AllocFailed<T>) -> LineError {
        LineError::Memory
    }
}
