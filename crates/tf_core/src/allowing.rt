// Whether an entry is taken, kind by kind.
ghost use Rattle.std.specs.Prelude.{◌≡◌, ◌&&◌, IfOk, slice_get};
ghost use Rattle.std.specs.List.{AllByRecursion, list_all, list_any};
ghost use Rattle.std.specs.Cmp.Lexicographic.{slice_cmp};
ghost use Rattle.std.specs.Option.{option_copied};
ghost use Rattle.std.specs.Ordering.{is_lt, nat_cmp};
ghost use Rattle.std.specs.Str.{bytes_eq};
ghost use Rattle.tf_core.specs.Allowing as spec;
ghost use Rattle.tf_core.specs.BuiltPast.{HasShard};
ghost use Rattle.tf_core.specs.Counts.{AreCounted};
ghost use Rattle.tf_core.specs.Ids.{AreIndexed};
ghost use Rattle.tf_core.specs.Sources.{AreNamedOnce};
ghost use Rattle.tf_core.specs.Standing.{shared};
ghost use Rattle.tf_model.specs.Changed.{is_after as after};
ghost use Rattle.tf_history.specs.Legality as legality;
ghost use Rattle.tf_history.specs.LegalEntries as legal;
ghost use Rattle.tf_mapping.specs.Written.{is_written};

use crate::built::is_built_config;
use crate::catalogue::passes;
use crate::counts::Counts;
use crate::ids::Ids;
use crate::index::Index;
use crate::lookups::place_in;
use crate::names::is_free;
use crate::table::find;
use crate::transform::Transform;
use crate::trees::written_values;
use std::alloc::Global;
use std::cmp::Ordering;
use std::sync::Arc;
use tf_dest::key_of_row;
use tf_mapping::route;
use tf_model::{
    Agg, Config, Doc, FieldType, Group, Key, Mapping, OutOfMemory, Row, Shape, State, Text, Tree,
    Value, is_field_path, is_index_name, is_transform_id,
};

const LEAST_DATE: i64 = -62_167_219_200_000;

/// The greatest moment, the end of the year 9999.
pub const GREATEST_DATE: i64 = 253_402_300_799_999;

const MAX_INDICES: usize = 64;

const MAX_TRANSFORMS: usize = 64;

const MAX_SHARDS: u32 = 16;

const MAX_FIELDS: usize = 64;

const MAX_DOCS: u64 = 1 << 31;

const MAX_ID: usize = 512;

const MAX_ACTOR: u8 = 15;

/// Whether a moment is in range and not before the last, and the actor is one.
pub fn is_timely(last_ms: i64, at_ms: i64, actor: u8) -> bool
    ensures { result ≡ spec.is_timely last_ms at_ms actor }
{
    0 <= at_ms && at_ms <= GREATEST_DATE && last_ms <= at_ms && actor <= MAX_ACTOR
}

/// Whether an index may be created.
pub fn takes_index(
    indices: &[Index],
    transforms: &[Transform],
    name: &Text,
    shards: u32,
    mapping: &Mapping,
    stamp: &Option<Text>,
    quick: bool,
) -> bool
    ensures { result ≡ spec.takes_index indices.now transforms.now (record { name = name.now; shards = shards; mapping = mapping.now; stamp = stamp.now; quick = quick }) }
{
    is_index_name(name.as_str())
        && is_free(indices, transforms, name)
        && indices.len() < MAX_INDICES
        && 1 <= shards
        && shards <= MAX_SHARDS
        && mapping.fields.len() <= MAX_FIELDS
        && are_fields(mapping.fields.as_slice())
        && ascend(mapping.fields.as_slice())
        && has_stamp(mapping, stamp)
        && !quick
}

fn are_fields(fields: &[(Text, FieldType)]) -> bool
    ensures { result ≡ list_all (λ f. spec.is_field f) fields.now }
{
    fields.iter().all(|field| is_field(field))
}

fn is_field(field: &(Text, FieldType)) -> bool
    ensures { result ≡ spec.is_field field.now }
{
    is_field_path(field.0.as_str())
}

// Whether the stamp, where there is one, is a date field of the mapping.
fn has_stamp(mapping: &Mapping, stamp: &Option<Text>) -> bool
    ensures { result ≡ spec.is_stamp mapping.now stamp.now }
{
    match stamp {
        None => true,
        Some(field) => has_date(mapping.fields.as_slice(), field),
    }
}

fn has_date(fields: &[(Text, FieldType)], name: &Text) -> bool
    ensures { result ≡ list_any (λ f. bytes_eq name.now f.0 && legal.is_date f.1) fields.now }
{
    for field in fields {
        if *name == field.0 && is_date(field.1) {
            return true;
        }
    }
    false
}

// Whether each field's name is above the one before it.
fn ascend(fields: &[(Text, FieldType)]) -> bool
    ensures { result ≡ spec.fields_ascend fields.now }
{
    match fields {
        [] => true,
        [first, rest @ ..] => ascend_above(&first.0, rest),
    }
}

fn ascend_above(name: &Text, fields: &[(Text, FieldType)]) -> bool
    ensures { result ≡ spec.ascends_above name.now fields.now }
{
    let mut last = name;
    for field in fields {
        if !is_below(last, &field.0) {
            return false;
        }
        last = &field.0;
    }
    true
}

fn is_below(name: &Text, other: &Text) -> bool
    ensures { result ≡ is_lt (slice_cmp nat_cmp name.now other.now) }
{
    name.cmp(other) == Ordering::Less
}

fn is_date(kind: FieldType) -> bool
    ensures { result ≡ legal.is_date kind }
{
    match kind {
        FieldType::Date => true,
        FieldType::Keyword | FieldType::Long | FieldType::Boolean => false,
    }
}

/// Whether a document may be written at a moment. Want of memory may come where its tree is read.
pub fn takes_document(
    alloc: Global,
    ids: &Ids,
    counts: &Counts,
    indices: &[Index],
    docs: &[Arc<Doc, Global>],
    at_ms: i64,
    index: u32,
    shard: u32,
    seq: u64,
    id: &Text,
    tree: &Tree,
) -> Result<bool, OutOfMemory>
    requires shards { AllByRecursion HasShard indices.now }
    requires indexed { AreIndexed ids.now (shared docs.now) }
    requires counted { AreCounted counts.now (shared docs.now) }
    ensures { IfOk result (λ takes. takes ≡ spec.takes_document (slice_get indices.now index) (shared docs.now) at_ms index shard seq id.now tree.now) }
{
    match indices.get(index as usize) {
        None => Ok(false),
        Some(found) => takes_in(
            alloc, ids, counts, found, docs, at_ms, index, shard, seq, id, tree,
        ),
    }
}

fn takes_in(
    alloc: Global,
    ids: &Ids,
    counts: &Counts,
    found: &Index,
    docs: &[Arc<Doc, Global>],
    at_ms: i64,
    index: u32,
    shard: u32,
    seq: u64,
    id: &Text,
    tree: &Tree,
) -> Result<bool, OutOfMemory>
    requires shards { HasShard found.now }
    requires indexed { AreIndexed ids.now (shared docs.now) }
    requires counted { AreCounted counts.now (shared docs.now) }
    ensures { IfOk result (λ takes. takes ≡ spec.takes_in found.now (shared docs.now) at_ms index shard seq id.now tree.now) }
{
    if !has_place(ids, counts, found, docs, index, shard, seq, id) {
        return Ok(false);
    }
    is_kept(alloc, found, at_ms, tree)
}

// Whether an index keeps a tree that is written at a moment.
fn is_kept(alloc: Global, found: &Index, at_ms: i64, tree: &Tree) -> Result<bool, OutOfMemory>
    ensures { IfOk result (λ kept. kept ≡ is_written found.now.mapping found.now.stamp at_ms tree.now) }
{
    let values = written_values(alloc, found, at_ms, tree)?;
    Ok(values.is_some())
}

// Whether a document goes to this place of an index, and its id is new there.
fn has_place(
    ids: &Ids,
    counts: &Counts,
    found: &Index,
    docs: &[Arc<Doc, Global>],
    index: u32,
    shard: u32,
    seq: u64,
    id: &Text,
) -> bool
    requires shards { HasShard found.now }
    requires indexed { AreIndexed ids.now (shared docs.now) }
    requires counted { AreCounted counts.now (shared docs.now) }
    ensures { result ≡ spec.has_place found.now (shared docs.now) index shard seq id.now }
{
    shard == route(id, found.shards())
        && seq == counts.count(index, shard)
        && seq < MAX_DOCS
        && 1 <= id.as_str().len()
        && id.as_str().len() <= MAX_ID
        && !is_used(ids, docs, index, id)
}

/// Whether a transform may be put. Want of memory may come where its configuration is checked.
pub fn takes_transform(
    alloc: Global,
    indices: &[Index],
    transforms: &[Transform],
    id: &Text,
    config: &Config,
) -> Result<bool, OutOfMemory>
    requires { AreNamedOnce indices.now }
    ensures { IfOk result (λ takes. takes ≡ spec.takes_transform indices.now transforms.now id.now config.now) }
{
    if has_names(indices, transforms, id, &config.dest) && is_built_config(config) {
        passes(alloc, indices, config)
    } else {
        Ok(false)
    }
}

// Whether an id and the name of a destination are in order, and there are fewer than 64 transforms.
fn has_names(indices: &[Index], transforms: &[Transform], id: &Text, dest: &Text) -> bool
    ensures { result ≡ spec.has_names indices.now transforms.now id.now dest.now }
{
    is_transform_id(id.as_str())
        && find(transforms, id).is_none()
        && transforms.len() < MAX_TRANSFORMS
        && is_free(indices, transforms, dest)
}

/// Whether a transform may be started.
pub fn may_start(transform: &Transform) -> bool
    ensures { result ≡ spec.may_start transform.now }
{
    is_stopped(transform.state) && !transform.is_over()
}

/// Whether a transform may come to its stop.
pub fn may_stop(transform: &Transform) -> bool
    ensures { result ≡ spec.may_stop transform.now }
{
    match transform.state {
        State::Stopping => !transform.waits || !(transform.finished < transform.begun),
        State::Started => transform.is_over(),
        State::Stopped | State::Indexing | State::Failed => false,
    }
}

// Whether checkpoint `n` is running.
fn is_running(transform: &Transform, n: u64) -> bool
    ensures { result ≡ spec.is_running transform.now n }
{
    0 < n && n - 1 == transform.finished && n == transform.begun
}

/// Whether a page of these rows may come next in checkpoint `n`.
pub fn may_page(transform: &Transform, n: u64, rows: &[Row]) -> bool
    ensures { result ≡ spec.may_page transform.now n rows.now }
{
    is_running(transform, n)
        && is_active(transform.state)
        && 0 < rows.len()
        && rows.len() <= transform.config.page_size as usize
        && ascends(transform.position.as_ref(), rows)
        && all_rows(&transform.config.shape, rows)
}

/// Whether checkpoint `n` may be finished, where no changed key is above the position.
pub fn may_finish(transform: &Transform, n: u64) -> bool
    ensures { result ≡ spec.may_finish transform.now n }
{
    is_running(transform, n) && is_active(transform.state)
}

fn is_stopped(state: State) -> bool
    ensures { result ≡ legality.is_stopped state }
{
    match state {
        State::Stopped => true,
        _ => false,
    }
}

pub fn is_started(state: State) -> bool
    ensures { result ≡ legality.is_started state }
{
    match state {
        State::Started => true,
        _ => false,
    }
}

pub fn is_active(state: State) -> bool
    ensures { result ≡ legality.is_active state }
{
    match state {
        State::Indexing | State::Stopping => true,
        State::Stopped | State::Started | State::Failed => false,
    }
}

// Whether each row is above the one before, and the first above the position.
fn ascends(position: Option<&Key>, rows: &[Row]) -> bool
    ensures { result ≡ spec.ascends (option_copied position.entry) rows.now }
{
    let mut last = position;
    for row in rows {
        if !is_after(last, key_of_row(row)) {
            return false;
        }
        last = Some(key_of_row(row));
    }
    true
}

fn is_after(position: Option<&Key>, key: &Key) -> bool
    ensures { result ≡ after (option_copied position.entry) key.now }
{
    match position {
        Some(position) => position.cmp(key) == Ordering::Less,
        None => true,
    }
}

fn all_rows(shape: &Shape, rows: &[Row]) -> bool
    ensures { result ≡ list_all (spec.is_row_of shape.now) rows.now }
{
    rows.iter().all(|row| is_row_of(shape, row))
}

fn is_row_of(shape: &Shape, row: &Row) -> bool
    ensures { result ≡ spec.is_row_of shape.now row.now }
{
    match (shape, row) {
        (Shape::Pivot { groups, aggs }, Row::Pivot { key, values }) => is_pivot_row(
            groups.as_slice(),
            aggs.as_slice(),
            key.parts.as_slice(),
            values.as_slice(),
        ),
        _ => false,
    }
}

fn is_pivot_row(groups: &[Group], aggs: &[Agg], parts: &[Value], values: &[Value]) -> bool
    ensures { result ≡ spec.is_pivot_row groups.now aggs.now parts.now values.now }
{
    parts.len() == groups.len()
        && are_parts(parts)
        && values.len() == aggs.len()
        && are_row_values(values)
}

fn are_parts(parts: &[Value]) -> bool
    ensures { result ≡ list_all spec.is_part parts.now }
{
    parts.iter().all(|part| is_part(part))
}

fn are_row_values(values: &[Value]) -> bool
    ensures { result ≡ list_all spec.is_row_value values.now }
{
    values.iter().all(|value| is_row_value(value))
}

fn is_date_in_range(ms: i64) -> bool
    ensures { result ≡ spec.is_date_in_range ms }
{
    LEAST_DATE <= ms && ms <= GREATEST_DATE
}

fn is_part(part: &Value) -> bool
    ensures { result ≡ spec.is_part part.now }
{
    match part {
        Value::Date(ms) => is_date_in_range(*ms),
        _ => true,
    }
}

fn is_row_value(value: &Value) -> bool
    ensures { result ≡ spec.is_row_value value.now }
{
    match value {
        Value::Null | Value::Bool(_) => true,
        Value::Date(ms) => is_date_in_range(*ms),
        Value::Int(number) => { i128::from(i64::MIN) <= *number && *number <= i128::from(i64::MAX) }
        Value::Str(_) => false,
    }
}

// Whether a document has this id in an index.
#[tactic(auto, using(crate::proofs::Used::used_is))]
fn is_used(ids: &Ids, docs: &[Arc<Doc, Global>], index: u32, id: &Text) -> bool
    requires { AreIndexed ids.now (shared docs.now) }
    ensures { result ≡ spec.is_used index id.now (shared docs.now) }
{
    place_in(ids, docs, index, id).is_some()
}
