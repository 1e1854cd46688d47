// What is kept of a transform's life.
ghost use Rattle.std.specs.Prelude.{◌≡◌, ◌<◌, ◌^◌, nat_lt};
ghost use Rattle.tf_core.specs.Allowing as allowing;
ghost use Rattle.tf_core.specs.Finished.{TellsFinished};
ghost use Rattle.tf_core.specs.Steps.{Changed, started};
ghost use Rattle.tf_core.specs.declared.ready.Change.TheVariants as change;
ghost use Rattle.tf_dest.specs.Tables.{HavePlaces, held_keys};
ghost use Rattle.tf_history.specs.Lives as lives;

use crate::finished::Finished;
use tf_dest::{Dest, Held};
use tf_model::{Config, Key, List, State, SumRange, Text};

/// What is kept of a transform's life.
#[derive(Drop)]
pub struct Transform {
    pub id: Text,
    pub config: Config,
    /// The numbers of its sources, in the order of the configuration.
    pub sources: List<u64>,
    pub state: State,
    /// Whether the last request to stop waits for the checkpoint.
    pub waits: bool,
    /// Whether a Start or a Schedule stands after the last Begin.
    pub prompted: bool,
    /// How many checkpoints have begun.
    pub begun: u64,
    /// The bound of the checkpoint before the newest.
    pub low: Option<i64>,
    /// The bound of the newest checkpoint.
    pub bound: Option<i64>,
    /// The moment of the newest checkpoint, 0 where there is none.
    pub begun_ms: i64,
    /// How many of all documents the newest checkpoint sees: those written before it.
    pub read: u64,
    /// How many of all documents its mark has passed: the first so many are in no window of the newest checkpoint or of a later
    /// one.
    pub passed: u64,
    /// The moment of the checkpoint before the newest, 0 where there is none.
    pub before_ms: i64,
    /// How many of all documents that one sees.
    pub before_read: u64,
    /// The last finished checkpoint, 0 for none.
    pub finished: u64,
    /// The last key of the newest checkpoint's last Page.
    pub position: Option<Key>,
    /// The newest checkpoint's Pages.
    pub pages: u64,
    /// The documents that were late when they were written.
    pub late: u64,
    /// The sum that the last Fail told.
    pub reason: Option<SumRange>,
    /// The Pages of all checkpoints.
    pub processed: u64,
    /// Their rows.
    pub indexed: u128,
    /// The rows that retention took out.
    pub deleted: u128,
    /// The destination.
    pub rows: Dest,
}

impl Transform {
    /// Whether it is a batch transform whose checkpoint is finished, so that it makes no other.
    pub fn is_over(&self) -> bool
        ensures { result ≡ allowing.is_over self.now }
    {
        self.config.sync.is_none() && 0 < self.finished
    }

    /// The last finished checkpoint, none where none is finished. It is told while another runs.
    pub fn last_finished(&self) -> Option<Finished>
        ensures { TellsFinished self.now result }
    {
        if self.finished == 0 {
            None
        } else if self.finished < self.begun {
            Some(Finished {
                n: self.finished,
                bound: self.low,
                at_ms: self.before_ms,
                read: self.before_read,
            })
        } else {
            Some(Finished {
                n: self.finished,
                bound: self.bound,
                at_ms: self.begun_ms,
                read: self.read,
            })
        }
    }

    /// Starts it. Takes no memory, as all that follow.
    pub fn start(&mut self)
        ensures { Changed 0 change.Start self.old self.new }
    {
        self.state = started_state(self.finished < self.begun);
        self.prompted = true;
    }

    /// Asks for a stop.
    pub fn ask_stop(&mut self, wait: bool)
        ensures { Changed 0 (change.AskStop wait) self.old self.new }
    {
        self.state = State::Stopping;
        self.waits = wait;
    }

    /// Brings it to its stop.
    pub fn stop(&mut self)
        ensures { Changed 0 change.Stop self.old self.new }
    {
        self.state = State::Stopped;
    }

    /// Asks for the next checkpoint.
    pub fn prompt(&mut self)
        ensures { Changed 0 change.Prompt self.old self.new }
    {
        self.prompted = true;
    }

    /// Fails it.
    pub fn fail(&mut self, reason: SumRange)
        ensures { Changed 0 (change.Fail reason) self.old self.new }
    {
        self.state = State::Failed;
        self.reason = Some(reason);
    }

    /// Begins a checkpoint that sees so many of all documents.
    pub fn begin(&mut self, n: u64, bound: Option<i64>, at_ms: i64, written: u64)
        ensures { Changed written (change.Begin n bound at_ms) self.old self.new }
    {
        self.begun = n;
        self.low = self.bound;
        self.before_ms = self.begun_ms;
        self.before_read = self.read;
        self.bound = bound;
        self.begun_ms = at_ms;
        self.read = written;
        self.position = None;
        self.pages = 0;
        self.state = State::Indexing;
        self.prompted = false;
    }

    /// Writes a page of rows, of which the last has this key.
    pub fn page(&mut self, n: u64, rows: Vec<Held>, position: Key)
        requires room { HavePlaces self.old.rows.places (held_keys rows.items) }
        requires pages { self.old.pages < 2 ^ 63 }
        requires processed { self.old.processed < 2 ^ 63 }
        requires indexed { self.old.indexed < 2 ^ 127 }
        ensures { Changed 0 (change.Page n rows position) self.old self.new }
    {
        self.indexed += rows.len() as u128;
        self.pages += 1;
        self.processed += 1;
        self.rows.upsert_page(rows);
        self.position = Some(position);
    }

    /// Finishes a checkpoint.
    pub fn finish(&mut self, n: u64)
        ensures { Changed 0 (change.Finish n) self.old self.new }
    {
        self.finished = n;
        self.state = after_finish(self.state);
    }

    /// Begins a new life.
    pub fn reset(&mut self)
        ensures { Changed 0 change.Reset self.old self.new }
    {
        self.state = State::Stopped;
        self.waits = false;
        self.prompted = false;
        self.begun = 0;
        self.low = None;
        self.bound = None;
        self.begun_ms = 0;
        self.read = 0;
        self.passed = 0;
        self.before_ms = 0;
        self.before_read = 0;
        self.finished = 0;
        self.position = None;
        self.pages = 0;
        self.late = 0;
        self.reason = None;
        self.processed = 0;
        self.indexed = 0;
        self.deleted = 0;
        self.rows.clear();
    }
}

fn started_state(running: bool) -> State
    ensures { result ≡ started running }
{
    if running {
        State::Indexing
    } else {
        State::Started
    }
}

fn after_finish(state: State) -> State
    ensures { result ≡ lives.after_finish state }
{
    match state {
        State::Indexing => State::Started,
        other => other,
    }
}
