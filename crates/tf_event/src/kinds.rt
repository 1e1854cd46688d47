ghost use Rattle.std.specs.Prelude.{◌≡◌, ◌++◌, ◌∷◌, OnOk, OnErr, IfOk};
ghost use Rattle.std.specs.Int.{w64, w128};
ghost use Rattle.tf_event.specs.Spelling.{BeginsWith, spelled_number, spelled_piece, spelled_option, spelled_truth, spelled_signed};
ghost use Rattle.tf_event.specs.Values.{spelled_key, spelled_mapping};
ghost use Rattle.tf_event.specs.Reading.{Gives};
ghost use Rattle.tf_event.specs.Entries as spec;
ghost use Rattle.tf_model.specs.declared.entry.Kind.TheVariants as kind;

use crate::basics::read_byte;
use crate::grammar::Grammar;
use crate::refusal::Refusal;
use crate::spell::Spell;
use crate::trees::{read_printed, write_source};
use crate::values::write_place;
use std::alloc::Global;
use tf_model::{Config, Doc, Key, Kind, List, Mapping, OutOfMemory, Row, Text, Tree};

#[tactic(auto, unfolding(crate::specs::Entries::index_at))]
fn read_index(alloc: Global, grammar: Grammar, bytes: &[u8]) -> Result<(Kind, &[u8]), Refusal>
    ensures value { Gives (λ x. (x.0, x.1.now)) result (spec.index_at bytes.now) }
    ensures line { IfOk result (λ x. spec.HasLine x.0) }
{
    let (name, rest) = Text::read(alloc, grammar, bytes)?;
    let (shards, rest) = u32::read(alloc, grammar, rest)?;
    let (mapping, rest) = Mapping::read(alloc, grammar, rest)?;
    let (stamp, rest) = Option::<Text>::read(alloc, grammar, rest)?;
    let (quick, rest) = bool::read(alloc, grammar, rest)?;
    Ok((
        Kind::Index {
            name,
            shards,
            mapping,
            stamp,
            quick,
        },
        rest,
    ))
}

#[tactic(auto, unfolding(crate::specs::Entries::write_at))]
fn read_write(alloc: Global, grammar: Grammar, bytes: &[u8]) -> Result<(Kind, &[u8]), Refusal>
    ensures value { Gives (λ x. (x.0, x.1.now)) result (spec.write_at bytes.now) }
    ensures line { IfOk result (λ x. spec.HasLine x.0) }
{
    let (index, rest) = u32::read(alloc, grammar, bytes)?;
    let (shard, rest) = u32::read(alloc, grammar, rest)?;
    let (seq, rest) = u64::read(alloc, grammar, rest)?;
    let (id, rest) = Text::read(alloc, grammar, rest)?;
    let (tree, rest) = read_printed(alloc, rest)?;
    Ok((
        Kind::Write {
            index,
            shard,
            seq,
            id,
            tree,
        },
        rest,
    ))
}

#[tactic(auto, unfolding(crate::specs::Entries::put_at))]
fn read_put(alloc: Global, grammar: Grammar, bytes: &[u8]) -> Result<(Kind, &[u8]), Refusal>
    ensures value { Gives (λ x. (x.0, x.1.now)) result (spec.put_at grammar bytes.now) }
    ensures line { IfOk result (λ x. spec.HasLine x.0) }
{
    let (id, rest) = Text::read(alloc, grammar, bytes)?;
    let (config, rest) = Config::read(alloc, grammar, rest)?;
    Ok((Kind::Put { id, config }, rest))
}

#[tactic(auto, unfolding(crate::specs::Entries::stop_asked_at))]
fn read_stop_asked(alloc: Global, grammar: Grammar, bytes: &[u8]) -> Result<(Kind, &[u8]), Refusal>
    ensures value { Gives (λ x. (x.0, x.1.now)) result (spec.stop_asked_at bytes.now) }
    ensures line { IfOk result (λ x. spec.HasLine x.0) }
{
    let (id, rest) = Text::read(alloc, grammar, bytes)?;
    let (wait, rest) = bool::read(alloc, grammar, rest)?;
    Ok((Kind::StopAsked { id, wait }, rest))
}

#[tactic(auto, unfolding(crate::specs::Entries::begin_at))]
fn read_begin(alloc: Global, grammar: Grammar, bytes: &[u8]) -> Result<(Kind, &[u8]), Refusal>
    ensures value { Gives (λ x. (x.0, x.1.now)) result (spec.begin_at bytes.now) }
    ensures line { IfOk result (λ x. spec.HasLine x.0) }
{
    let (id, rest) = Text::read(alloc, grammar, bytes)?;
    let (n, rest) = u64::read(alloc, grammar, rest)?;
    let (bound, rest) = Option::<i64>::read(alloc, grammar, rest)?;
    Ok((Kind::Begin { id, n, bound }, rest))
}

#[tactic(auto, unfolding(crate::specs::Entries::page_at))]
fn read_page(alloc: Global, grammar: Grammar, bytes: &[u8]) -> Result<(Kind, &[u8]), Refusal>
    ensures value { Gives (λ x. (x.0, x.1.now)) result (spec.page_at bytes.now) }
    ensures line { IfOk result (λ x. spec.HasLine x.0) }
{
    let (id, rest) = Text::read(alloc, grammar, bytes)?;
    let (n, rest) = u64::read(alloc, grammar, rest)?;
    let (rows, rest) = List::<Row>::read(alloc, grammar, rest)?;
    Ok((Kind::Page { id, n, rows }, rest))
}

#[tactic(auto, unfolding(crate::specs::Entries::finish_at))]
fn read_finish(alloc: Global, grammar: Grammar, bytes: &[u8]) -> Result<(Kind, &[u8]), Refusal>
    ensures value { Gives (λ x. (x.0, x.1.now)) result (spec.finish_at bytes.now) }
    ensures line { IfOk result (λ x. spec.HasLine x.0) }
{
    let (id, rest) = Text::read(alloc, grammar, bytes)?;
    let (n, rest) = u64::read(alloc, grammar, rest)?;
    Ok((Kind::Finish { id, n }, rest))
}

#[tactic(auto, unfolding(crate::specs::Entries::fail_at))]
fn read_fail(alloc: Global, grammar: Grammar, bytes: &[u8]) -> Result<(Kind, &[u8]), Refusal>
    ensures value { Gives (λ x. (x.0, x.1.now)) result (spec.fail_at bytes.now) }
    ensures line { IfOk result (λ x. spec.HasLine x.0) }
{
    let (id, rest) = Text::read(alloc, grammar, bytes)?;
    let (n, rest) = u64::read(alloc, grammar, rest)?;
    let (key, rest) = Key::read(alloc, grammar, rest)?;
    let (name, rest) = Text::read(alloc, grammar, rest)?;
    let (value, rest) = i128::read(alloc, grammar, rest)?;
    Ok((
        Kind::Fail {
            id,
            n,
            key,
            name,
            value,
        },
        rest,
    ))
}

/// The fields of the kind of that number.
#[tactic(auto, unfolding(crate::specs::Entries::kind_variant))]
fn read_kind(
    alloc: Global,
    grammar: Grammar,
    number: u8,
    bytes: &[u8],
) -> Result<(Kind, &[u8]), Refusal>
    ensures value { Gives (λ x. (x.0, x.1.now)) result (spec.kind_variant grammar number bytes.now) }
    ensures line { IfOk result (λ x. spec.HasLine x.0) }
{
    match number {
        1 => read_index(alloc, grammar, bytes),
        2 => read_write(alloc, grammar, bytes),
        3 => read_put(alloc, grammar, bytes),
        4 => {
            let (id, rest) = Text::read(alloc, grammar, bytes)?;
            Ok((Kind::Delete { id }, rest))
        }
        5 => {
            let (id, rest) = Text::read(alloc, grammar, bytes)?;
            Ok((Kind::Start { id }, rest))
        }
        6 => read_stop_asked(alloc, grammar, bytes),
        7 => {
            let (id, rest) = Text::read(alloc, grammar, bytes)?;
            Ok((Kind::Stopped { id }, rest))
        }
        8 => {
            let (id, rest) = Text::read(alloc, grammar, bytes)?;
            Ok((Kind::Schedule { id }, rest))
        }
        9 => read_begin(alloc, grammar, bytes),
        10 => read_page(alloc, grammar, bytes),
        11 => read_finish(alloc, grammar, bytes),
        12 => read_fail(alloc, grammar, bytes),
        13 => {
            let (id, rest) = Text::read(alloc, grammar, bytes)?;
            Ok((Kind::Reset { id }, rest))
        }
        _ => Err(Refusal::Unspelled),
    }
}

/// The number of a kind, and its id or name.
#[tactic(auto, using(crate::proofs::Fronts::fronts))]
fn write_named(
    alloc: Global,
    number: u8,
    id: &Text,
    grammar: Grammar,
    out: &mut List<u8>,
) -> Result<(), OutOfMemory>
    ensures ok { OnOk result (out.new ≡ out.old ++ number ∷ spelled_piece id.now) }
    ensures err { OnErr result (BeginsWith out.new out.old) }
{
    out.push(number)?;
    id.write(alloc, grammar, out)
}

/// The number of a kind, its id, and one more field.
#[tactic(auto, using(crate::proofs::Fronts::fronts))]
fn write_with<T: Spell>(
    alloc: Global,
    number: u8,
    id: &Text,
    field: &T,
    grammar: Grammar,
    out: &mut List<u8>,
) -> Result<(), OutOfMemory>
    ensures ok { OnOk result (out.new ≡ out.old
        ++ number ∷ (spelled_piece id.now ++ T.spelled grammar field.now)) }
    ensures err { OnErr result (BeginsWith out.new out.old) }
{
    write_named(alloc, number, id, grammar, out)?;
    field.write(alloc, grammar, out)
}

/// The number of a kind, its id, the number of a checkpoint, and one more field.
#[tactic(auto, using(crate::proofs::Fronts::fronts))]
fn write_checkpoint<T: Spell>(
    alloc: Global,
    number: u8,
    id: &Text,
    n: u64,
    field: &T,
    grammar: Grammar,
    out: &mut List<u8>,
) -> Result<(), OutOfMemory>
    ensures ok { OnOk result (out.new ≡ out.old
        ++ number ∷ (spelled_piece id.now ++ (spelled_number w64 n
        ++ T.spelled grammar field.now))) }
    ensures err { OnErr result (BeginsWith out.new out.old) }
{
    write_named(alloc, number, id, grammar, out)?;
    n.write(alloc, grammar, out)?;
    field.write(alloc, grammar, out)
}

/// The kind whose number stands at the front of the bytes.
#[tactic(auto, unfolding(crate::specs::Entries::kind_at))]
pub(crate) fn read_numbered(
    alloc: Global,
    grammar: Grammar,
    bytes: &[u8],
) -> Result<(Kind, &[u8]), Refusal>
    ensures value { Gives (λ x. (x.0, x.1.now)) result (spec.kind_at grammar bytes.now) }
    ensures line { IfOk result (λ x. spec.HasLine x.0) }
{
    let (number, rest) = read_byte(bytes)?;
    read_kind(alloc, grammar, number, rest)
}

/// How an index reads its documents.
#[tactic(auto, using(crate::proofs::Fronts::fronts))]
fn write_form(
    alloc: Global,
    mapping: &Mapping,
    stamp: &Option<Text>,
    quick: bool,
    grammar: Grammar,
    out: &mut List<u8>,
) -> Result<(), OutOfMemory>
    ensures ok { OnOk result (out.new ≡ out.old
        ++ (spelled_mapping mapping.now ++ (spelled_option spelled_piece stamp.now
        ++ spelled_truth quick))) }
    ensures err { OnErr result (BeginsWith out.new out.old) }
{
    mapping.write(alloc, grammar, out)?;
    stamp.write(alloc, grammar, out)?;
    quick.write(alloc, grammar, out)
}

#[tactic(auto, using(crate::proofs::Fronts::fronts), unfolding(crate::specs::Entries::spelled_kind))]
fn write_index(
    alloc: Global,
    name: &Text,
    shards: u32,
    mapping: &Mapping,
    stamp: &Option<Text>,
    quick: bool,
    grammar: Grammar,
    out: &mut List<u8>,
) -> Result<(), OutOfMemory>
    ensures ok { OnOk result (out.new ≡ out.old
        ++ spec.spelled_kind grammar (kind.Index name.now shards mapping.now stamp.now quick)) }
    ensures err { OnErr result (BeginsWith out.new out.old) }
{
    write_named(alloc, 1, name, grammar, out)?;
    shards.write(alloc, grammar, out)?;
    write_form(alloc, mapping, stamp, quick, grammar, out)
}

/// A document with its place and its id, whose tree stands as its text.
#[tactic(auto, using(crate::proofs::Fronts::fronts), unfolding(crate::specs::Entries::spelled_kind))]
pub(crate) fn write_doc(
    alloc: Global,
    doc: &Doc,
    grammar: Grammar,
    out: &mut List<u8>,
) -> Result<(), OutOfMemory>
    ensures ok { OnOk result (out.new ≡ out.old ++ spec.spelled_kind grammar
        (kind.Write doc.now.index doc.now.shard doc.now.seq doc.now.id doc.now.tree)) }
    ensures err { OnErr result (BeginsWith out.new out.old) }
{
    out.push(2)?;
    write_place(alloc, doc.index, doc.shard, doc.seq, grammar, out)?;
    doc.id.write(alloc, grammar, out)?;
    write_source(&doc.tree, out)
}

/// A document written at its index, shard and sequence number.
#[tactic(auto, using(crate::proofs::Fronts::fronts), unfolding(crate::specs::Entries::spelled_kind))]
fn write_document(
    alloc: Global,
    place: (u32, u32, u64),
    id: &Text,
    tree: &Tree,
    grammar: Grammar,
    out: &mut List<u8>,
) -> Result<(), OutOfMemory>
    ensures ok { OnOk result (out.new ≡ out.old
        ++ spec.spelled_kind grammar (kind.Write place.0 place.1 place.2 id.now tree.now)) }
    ensures err { OnErr result (BeginsWith out.new out.old) }
{
    let (index, shard, seq) = place;
    out.push(2)?;
    write_place(alloc, index, shard, seq, grammar, out)?;
    id.write(alloc, grammar, out)?;
    tree.write(alloc, grammar, out)
}

/// The sum that a transform failed on.
#[tactic(auto, using(crate::proofs::Fronts::fronts))]
fn write_sum(
    alloc: Global,
    key: &Key,
    name: &Text,
    value: i128,
    grammar: Grammar,
    out: &mut List<u8>,
) -> Result<(), OutOfMemory>
    ensures ok { OnOk result (out.new ≡ out.old
        ++ (spelled_key key.now ++ (spelled_piece name.now ++ spelled_signed w128 value))) }
    ensures err { OnErr result (BeginsWith out.new out.old) }
{
    key.write(alloc, grammar, out)?;
    name.write(alloc, grammar, out)?;
    value.write(alloc, grammar, out)
}

#[tactic(auto, using(crate::proofs::Fronts::fronts), unfolding(crate::specs::Entries::spelled_kind))]
fn write_fail(
    alloc: Global,
    id: &Text,
    n: u64,
    key: &Key,
    name: &Text,
    value: i128,
    grammar: Grammar,
    out: &mut List<u8>,
) -> Result<(), OutOfMemory>
    ensures ok { OnOk result (out.new ≡ out.old
        ++ spec.spelled_kind grammar (kind.Fail id.now n key.now name.now value)) }
    ensures err { OnErr result (BeginsWith out.new out.old) }
{
    write_named(alloc, 12, id, grammar, out)?;
    n.write(alloc, grammar, out)?;
    write_sum(alloc, key, name, value, grammar, out)
}

impl Spell for Kind {
    ghost spelled = { λ v kind. spec.spelled_kind v kind };

    ghost read_at = { λ v. spec.kind_at v };

    fn read(alloc: Global, grammar: Grammar, bytes: &[u8]) -> Result<(Kind, &[u8]), Refusal> {
        read_numbered(alloc, grammar, bytes)
    }

    #[tactic(auto, using(crate::proofs::Fronts::fronts), unfolding(crate::specs::Entries::spelled_kind))]
    fn write(
        &self,
        alloc: Global,
        grammar: Grammar,
        out: &mut List<u8>,
    ) -> Result<(), OutOfMemory> {
        match self {
            Kind::Index {
                name,
                shards,
                mapping,
                stamp,
                quick,
            } => write_index(alloc, name, *shards, mapping, stamp, *quick, grammar, out),
            Kind::Write {
                index,
                shard,
                seq,
                id,
                tree,
            } => write_document(alloc, (*index, *shard, *seq), id, tree, grammar, out),
            Kind::Put { id, config } => write_with(alloc, 3, id, config, grammar, out),
            Kind::Delete { id } => write_named(alloc, 4, id, grammar, out),
            Kind::Start { id } => write_named(alloc, 5, id, grammar, out),
            Kind::StopAsked { id, wait } => write_with(alloc, 6, id, wait, grammar, out),
            Kind::Stopped { id } => write_named(alloc, 7, id, grammar, out),
            Kind::Schedule { id } => write_named(alloc, 8, id, grammar, out),
            Kind::Begin { id, n, bound } => {
                write_checkpoint(alloc, 9, id, *n, bound, grammar, out)
            }
            Kind::Page { id, n, rows } => {
                write_checkpoint(alloc, 10, id, *n, rows, grammar, out)
            }
            Kind::Finish { id, n } => write_with(alloc, 11, id, n, grammar, out),
            Kind::Fail {
                id,
                n,
                key,
                name,
                value,
            } => write_fail(alloc, id, *n, key, name, *value, grammar, out),
            Kind::Reset { id } => write_named(alloc, 13, id, grammar, out),
        }
    }
}
