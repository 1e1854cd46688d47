// The replies to commands.
ghost use Rattle.std.specs.Prelude.{◌≡◌, ◌++◌, IfOk, length, map, reverse};
ghost use Rattle.std.specs.List.{AllByRecursion, find};
ghost use Rattle.tf_history.specs.Lives.{life, state_turned};
ghost use Rattle.tf_history.specs.Lives.Turn.{Starts};
ghost use Rattle.tf_history.specs.Transforms.{transforms};
ghost use Rattle.tf_model.specs.declared.task.State.TheVariants as state;
ghost use Rattle.tf_reply.specs.declared.replies.Reply.TheVariants as reply;
ghost use Rattle.tf_decide.specs.declared.asked.Answer.TheVariants as answer;
ghost use Rattle.tf_core.specs.Legal.{read};
ghost use Rattle.tf_core.specs.Lookups.{is_into};
ghost use Rattle.tf_dest.specs.Tables.{rows_in};
ghost use Rattle.tf_history.specs.Meaning.{row_key};
ghost use Rattle.tf_decide.specs.Ready.{Follows};
ghost use Rattle.tf_decide.specs.Rows.{IsShown};
ghost use Rattle.tf_decide.specs.Replying as spec;

use crate::asked::{Answer, Search};
use std::alloc::Global;
use tf_core::{Core, Transform};
use tf_dest::Dest;
use tf_model::{Config, Entry, Key, List, OutOfMemory, Row, Shape, State, Text, Tree};
use tf_reply::{Hit, Reply, pivot_source};

/// The reply to a line where these entries come behind the history of a core.
pub fn reply_to(
    alloc: Global,
    core: &Core,
    line: u64,
    entries: &List<Entry>,
    answer: Answer,
) -> Result<Reply, OutOfMemory>
    requires { Follows entries.now answer }
    ensures { IfOk result (λ reply. reply ≡ spec.reply_by line (reverse core.now.history) (reverse entries.now ++ reverse core.now.history) answer) }
{
    let no = count_after(core, entries)?;
    match answer {
        Answer::Created => Ok(Reply::Created { line, no }),
        Answer::Written { seq, shard } => Ok(Reply::Written {
            line,
            no,
            seq,
            shard,
        }),
        Answer::Tried(items) => {
            let from = core.count();
            Ok(Reply::Bulk {
                line,
                no,
                from,
                items,
            })
        }
        Answer::Started(id) => Ok(started(core, line, no, entries, id)),
        Answer::Stepped(id) => Ok(stepped(core, line, no, entries, id)),
        Answer::Settled => Ok(Reply::Settled { line, no }),
        Answer::Shown(search) => shown(alloc, core, line, no, entries, &search),
        Answer::Refused(refusal) => Ok(Reply::Refused { line, no, refusal }),
    }
}

// How many entries there are with these. Too many to count are too many for the memory.
fn count_after(core: &Core, entries: &List<Entry>) -> Result<u64, OutOfMemory>
    ensures { IfOk result (λ count. count ≡ length (reverse entries.now ++ reverse core.now.history)) }
{
    match core.count().checked_add(entries.len() as u64) {
        Some(count) => Ok(count),
        None => Err(OutOfMemory),
    }
}

// How a transform stands that is started.
fn started(core: &Core, line: u64, no: u64, entries: &List<Entry>, id: Text) -> Reply
    requires { Follows entries.now (answer.Started id) }
    ensures { result ≡ spec.task line no id (life id (read (reverse entries.now ++ reverse core.now.history))) }
{
    match core.transform(&id) {
        None => task(line, no, id, State::Stopped, 0),
        Some(transform) => {
            let state = started_state(transform.finished < transform.begun);
            task(line, no, id, state, transform.finished)
        }
    }
}

// How a transform stands where no entry comes.
fn stepped(core: &Core, line: u64, no: u64, entries: &List<Entry>, id: Text) -> Reply
    requires { Follows entries.now (answer.Stepped id) }
    ensures { result ≡ spec.task line no id (life id (read (reverse entries.now ++ reverse core.now.history))) }
{
    let _none = entries;
    task_now(core, line, no, id)
}

/// How a transform stands by the history of a core.
pub fn task_now(core: &Core, line: u64, no: u64, id: Text) -> Reply
    ensures { result ≡ spec.task line no id (life id (read (reverse core.now.history))) }
{
    match core.transform(&id) {
        None => task(line, no, id, State::Stopped, 0),
        Some(transform) => task(line, no, id, transform.state, transform.finished),
    }
}

// How a transform stands, as a reply.
fn task(line: u64, no: u64, id: Text, state: State, checkpoint: u64) -> Reply
    ensures { result ≡ reply.Task line no id state checkpoint }
{
    Reply::Task {
        line,
        no,
        id,
        state,
        checkpoint,
    }
}

// The state of a transform that is started.
fn started_state(running: bool) -> State
    ensures { result ≡ state_turned Starts running state.Stopped }
{
    if running {
        State::Indexing
    } else {
        State::Started
    }
}

/// The rows of a destination that a search shows.
pub fn shown(
    alloc: Global,
    core: &Core,
    line: u64,
    no: u64,
    entries: &List<Entry>,
    search: &Search,
) -> Result<Reply, OutOfMemory>
    requires { Follows entries.now (answer.Shown search.now) }
    ensures { IfOk result (λ reply. reply ≡ spec.found line no search.now (reverse entries.now ++ reverse core.now.history) (find (is_into search.now.dest) (transforms (reverse entries.now ++ reverse core.now.history)))) }
{
    core.is_taken();
    match core.transform_into(&search.dest) {
        None => {
            let hits = List::new(alloc);
            Ok(found(line, no, hits, 0))
        }
        Some(transform) => rows_found(alloc, line, no, search, transform),
    }
}

fn found(line: u64, no: u64, hits: List<Hit>, total: u64) -> Reply
    ensures { result ≡ reply.Found line no hits total }
{
    Reply::Found {
        line,
        no,
        hits,
        total,
    }
}

fn rows_found(
    alloc: Global,
    line: u64,
    no: u64,
    search: &Search,
    transform: &Transform,
) -> Result<Reply, OutOfMemory>
    requires { AllByRecursion IsShown (rows_in transform.now.rows) }
    ensures { IfOk result (λ reply. reply ≡ spec.found_rows line no search.now transform.now.config (rows_in transform.now.rows)) }
{
    let rows = shown_rows(alloc, search, &transform.rows)?;
    let hits = hits_of(alloc, &transform.config, rows)?;
    Ok(found(line, no, hits, transform.rows.len() as u64))
}

// Copies of the rows that a search shows. Looks at no other row.
fn shown_rows(alloc: Global, search: &Search, rows: &Dest) -> Result<List<Row>, OutOfMemory>
    ensures { IfOk result (λ shown. shown ≡ spec.shown_rows search.now (rows_in rows.now)) }
{
    rows.rows_after(alloc, search.after.as_ref(), search.size as usize)
}

fn hits_of(alloc: Global, config: &Config, rows: List<Row>) -> Result<List<Hit>, OutOfMemory>
    requires { AllByRecursion IsShown rows }
    ensures { IfOk result (λ hits. hits ≡ map (spec.hit_of config.now) rows) }
{
    let mut hits = List::new(alloc);
    for row in rows.into_vec() {
        hits.push(hit_of(alloc, config, row)?)?;
    }
    Ok(hits)
}

fn hit_of(alloc: Global, config: &Config, row: Row) -> Result<Hit, OutOfMemory>
    requires { IsShown row }
    ensures { IfOk result (λ hit. hit ≡ spec.hit_of config.now row) }
{
    let source = source_of(alloc, config, &row)?;
    Ok(Hit {
        key: key_of(row),
        source,
    })
}

fn key_of(row: Row) -> Key
    ensures { result ≡ row_key row }
{
    match row {
        Row::Pivot { key, .. } => key,
        Row::Latest { key, .. } => key,
    }
}

fn source_of(alloc: Global, config: &Config, row: &Row) -> Result<Tree, OutOfMemory>
    requires { IsShown row.now }
    ensures { IfOk result (λ source. source ≡ spec.source_by config.now.epoch_millis config.now.shape row.now) }
{
    match (&config.shape, row) {
        (Shape::Pivot { groups, aggs }, Row::Pivot { key, values }) => {
            pivot_source(alloc, groups, aggs, config.epoch_millis, key, values)
        }
        _ => Ok(Tree::Null),
    }
}
