// Indices that are created.
ghost use Rattle.std.specs.Prelude.{◌≡◌, ◌≤◌, IfOk, IsUtf8, reverse};
ghost use Rattle.tf_command.specs.Formed.{IsShort};
ghost use Rattle.tf_event.specs.Spelling.{FitsText};
ghost use Rattle.tf_event.specs.Values.{FitsMapping};
ghost use Rattle.tf_mapping.specs.Mappings as mappings;
ghost use Rattle.tf_decide.specs.Asking as spec;
ghost use Rattle.tf_decide.specs.Ready.{IsReady};
ghost use Rattle.std.specs.Prelude.{IfSome};

use crate::asked::{Answer, Asked};
use crate::giving::Given;
use crate::making::{entry_after, made, refused, text_is_utf8};
use std::alloc::Global;
use tf_core::Core;
use tf_mapping::read_mapping;
use tf_model::{Kind, Mapping, OutOfMemory, Text, Tree, TryCopy, is_index_name};
use tf_reply::{Limit, Refusal, mapping_refusal};

const MOST_INDICES: u64 = 64;

const MOST_SHARDS: i128 = 16;

/// An index is created.
pub fn ask_index(
    alloc: Global,
    core: &Core,
    name: &Text,
    tree: &Tree,
    shards: i128,
    stamp: &Option<Text>,
    given: &Given,
) -> Result<Asked, OutOfMemory>
    requires name { IsShort name.now }
    requires stamp { IfSome stamp.now IsShort }
    requires actor { given.now.actor ≤ 15 }
    ensures asked { IfOk result (λ asked. asked ≡ spec.asked_index (reverse core.now.history) given.now.actor given.now.at_ms name.now tree.now shards stamp.now) }
    ensures ready { IfOk result (IsReady (reverse core.now.history)) }
{
    let name = name.copy(alloc)?;
    let stamp = stamp.try_copy(alloc)?;
    index_asked(alloc, core, name, tree, shards, stamp, given)
}

// An index of this name is created.
fn index_asked(
    alloc: Global,
    core: &Core,
    name: Text,
    tree: &Tree,
    shards: i128,
    stamp: Option<Text>,
    given: &Given,
) -> Result<Asked, OutOfMemory>
    requires name { IsShort name }
    requires stamp { IfSome stamp IsShort }
    requires actor { given.now.actor ≤ 15 }
    ensures asked { IfOk result (λ asked. asked ≡ spec.asked_index (reverse core.now.history) given.now.actor given.now.at_ms name tree.now shards stamp) }
    ensures ready { IfOk result (IsReady (reverse core.now.history)) }
{
    if !is_index_name(name.as_str()) {
        return Ok(refused(alloc, Refusal::BadName { name }));
    }
    match read_mapping(alloc, tree, stamp.as_ref()) {
        Ok(mapping) => index_with(alloc, core, name, mapping, shards, stamp, given),
        Err(error) => Ok(refused(alloc, mapping_refusal(error)?)),
    }
}

// The name is free, and there are fewer than 64 indices.
fn index_with(
    alloc: Global,
    core: &Core,
    name: Text,
    mapping: Mapping,
    shards: i128,
    stamp: Option<Text>,
    given: &Given,
) -> Result<Asked, OutOfMemory>
    requires name { IsShort name }
    requires stamp { IfSome stamp IsShort }
    requires actor { given.now.actor ≤ 15 }
    requires mapping { mappings.IsMapping mapping }
    ensures asked { IfOk result (λ asked. asked ≡ spec.index_with (reverse core.now.history) given.now.actor given.now.at_ms name shards stamp mapping) }
    ensures ready { IfOk result (IsReady (reverse core.now.history)) }
{
    if !core.is_free(&name) {
        return Ok(refused(alloc, Refusal::IndexExists { name }));
    }
    if MOST_INDICES <= core.index_count() {
        return Ok(refused(
            alloc,
            Refusal::Limit {
                what: Limit::Indices,
            },
        ));
    }
    match shard_count(shards) {
        Some(shards) => index_made(alloc, core, name, mapping, shards, stamp, given),
        None => Ok(refused(
            alloc,
            Refusal::Limit {
                what: Limit::Shards,
            },
        )),
    }
}

// A number of shards, where it is from 1 to 16.
fn shard_count(shards: i128) -> Option<u32>
    ensures { result ≡ spec.some_count shards }
{
    if 1 <= shards && shards <= MOST_SHARDS {
        Some(shards as u32)
    } else {
        None
    }
}

fn index_made(
    alloc: Global,
    core: &Core,
    name: Text,
    mapping: Mapping,
    shards: u32,
    stamp: Option<Text>,
    given: &Given,
) -> Result<Asked, OutOfMemory>
    requires name { IsShort name }
    requires stamp { IfSome stamp IsShort }
    requires actor { given.now.actor ≤ 15 }
    requires mapping { mappings.IsMapping mapping }
    ensures asked { IfOk result (λ asked. asked ≡ spec.index_made (reverse core.now.history) given.now.actor given.now.at_ms name shards stamp mapping) }
    ensures ready { IfOk result (IsReady (reverse core.now.history)) }
{
    text_is_utf8(&name);
    is_spelled(&stamp);
    are_spelled(&mapping);
    core.is_taken();
    let entry = entry_after(
        core,
        given,
        Kind::Index {
            name,
            shards,
            mapping,
            stamp,
            quick: false,
        },
    );
    made(alloc, entry, Answer::Created)
}

// A stamp's bytes are UTF-8.
fn is_spelled(stamp: &Option<Text>)
    ensures { IfSome stamp.now IsUtf8 }
{
    if let Some(text) = stamp {
        text_is_utf8(text);
    }
}

// The names of a mapping that was read have spellings, and ascend.
fn are_spelled(mapping: &Mapping)
    requires { mappings.IsMapping mapping.now }
    ensures { FitsMapping mapping.now }
{
    for field in mapping.fields.as_slice() {
        text_is_utf8(&field.0);
    }
}
