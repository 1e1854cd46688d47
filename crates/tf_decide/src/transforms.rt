// Transforms that are put.
ghost use Rattle.std.specs.Prelude.{◌≡◌, ◌≤◌, IfOk, reverse};
ghost use Rattle.tf_command.specs.Formed.{IsObject, IsShort};
ghost use Rattle.tf_event.specs.Configs.{FitsConfig};
ghost use Rattle.tf_event.specs.declared.grammar.Grammar.TheVariants.{First};
ghost use Rattle.tf_decide.specs.Asking as spec;
ghost use Rattle.tf_decide.specs.Ready.{IsReady};

use crate::asked::{Answer, Asked};
use crate::finding::is_transform;
use crate::giving::Given;
use crate::making::{entry_after, made, refused, text_is_utf8, unsupported};
use std::alloc::Global;
use tf_config::read_config;
use tf_core::{Core, is_built_config};
use tf_model::{Config, Kind, OutOfMemory, Text, Tree, is_transform_id};
use tf_reply::{Limit, Refusal, config_refusal};

const MOST_TRANSFORMS: u64 = 64;

/// A transform is put.
pub fn ask_put(
    alloc: Global,
    core: &Core,
    id: &Text,
    config: &Tree,
    given: &Given,
) -> Result<Asked, OutOfMemory>
    requires id { IsShort id.now }
    requires config { IsObject config.now }
    requires actor { given.now.actor ≤ 15 }
    ensures asked { IfOk result (λ asked. asked ≡ spec.asked_put (reverse core.now.history) given.now.actor given.now.at_ms id.now config.now) }
    ensures ready { IfOk result (IsReady (reverse core.now.history)) }
{
    let id = id.copy(alloc)?;
    put_asked(alloc, core, id, config, given)
}

// A transform of this id is put.
fn put_asked(
    alloc: Global,
    core: &Core,
    id: Text,
    config: &Tree,
    given: &Given,
) -> Result<Asked, OutOfMemory>
    requires id { IsShort id }
    requires config { IsObject config.now }
    requires actor { given.now.actor ≤ 15 }
    ensures asked { IfOk result (λ asked. asked ≡ spec.asked_put (reverse core.now.history) given.now.actor given.now.at_ms id config.now) }
    ensures ready { IfOk result (IsReady (reverse core.now.history)) }
{
    if !is_transform_id(id.as_str()) {
        return Ok(refused(alloc, Refusal::BadName { name: id }));
    }
    put_new(alloc, core, id, config, given)
}

// The id is new, and the configuration passes over the indices that are there.
fn put_new(
    alloc: Global,
    core: &Core,
    id: Text,
    config: &Tree,
    given: &Given,
) -> Result<Asked, OutOfMemory>
    requires id { IsShort id }
    requires config { IsObject config.now }
    requires actor { given.now.actor ≤ 15 }
    ensures asked { IfOk result (λ asked. asked ≡ spec.put_new (reverse core.now.history) given.now.actor given.now.at_ms id config.now) }
    ensures ready { IfOk result (IsReady (reverse core.now.history)) }
{
    if is_transform(core, &id) {
        return Ok(refused(alloc, Refusal::TransformExists { id }));
    }
    let indices = core.catalogue()?;
    match read_config(alloc, config, &indices, true) {
        Ok(config) => put_with(alloc, core, id, config, given),
        Err(error) => Ok(refused(alloc, config_refusal(error)?)),
    }
}

// The name of the destination is free, there are fewer than 64 transforms, and transforms of this form are built.
fn put_with(
    alloc: Global,
    core: &Core,
    id: Text,
    config: Config,
    given: &Given,
) -> Result<Asked, OutOfMemory>
    requires id { IsShort id }
    requires config { FitsConfig First config }
    requires actor { given.now.actor ≤ 15 }
    ensures asked { IfOk result (λ asked. asked ≡ spec.put_with (reverse core.now.history) given.now.actor given.now.at_ms id config) }
    ensures ready { IfOk result (IsReady (reverse core.now.history)) }
{
    if !core.is_free(&config.dest) {
        let name = config.dest;
        return Ok(refused(alloc, Refusal::IndexExists { name }));
    }
    if MOST_TRANSFORMS <= core.transform_count() {
        return Ok(refused(
            alloc,
            Refusal::Limit {
                what: Limit::Transforms,
            },
        ));
    }
    if !is_built_config(&config) {
        return Ok(unsupported(alloc));
    }
    put_made(alloc, core, id, config, given)
}

fn put_made(
    alloc: Global,
    core: &Core,
    id: Text,
    config: Config,
    given: &Given,
) -> Result<Asked, OutOfMemory>
    requires id { IsShort id }
    requires config { FitsConfig First config }
    requires actor { given.now.actor ≤ 15 }
    ensures asked { IfOk result (λ asked. asked ≡ spec.put_made (reverse core.now.history) given.now.actor given.now.at_ms id config) }
    ensures ready { IfOk result (IsReady (reverse core.now.history)) }
{
    core.is_taken();
    text_is_utf8(&id);
    let entry = entry_after(core, given, Kind::Put { id, config });
    made(alloc, entry, Answer::Created)
}
