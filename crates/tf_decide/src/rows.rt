// Rows that are searched.
ghost use Rattle.std.specs.Prelude.{◌≡◌, IfOk, reverse};
ghost use Rattle.tf_decide.specs.Asking as spec;
ghost use Rattle.tf_decide.specs.Ready.{IsReady};

use crate::asked::{Answer, Asked, Search};
use crate::finding::is_index;
use crate::making::{refused, told};
use std::alloc::Global;
use tf_core::Core;
use tf_group::read_key;
use tf_model::{Config, Key, OutOfMemory, Text, Tree, is_index_name};
use tf_reply::Refusal;

/// Rows of a destination are searched; an index cannot be. `after` is an array.
pub fn ask_search(
    alloc: Global,
    core: &Core,
    name: &Text,
    size: u32,
    after: &Option<Tree>,
) -> Result<Asked, OutOfMemory>
    ensures asked { IfOk result (λ asked. asked ≡ spec.asked_search (reverse core.now.history) name.now size after.now) }
    ensures ready { IfOk result (IsReady (reverse core.now.history)) }
{
    let name = name.copy(alloc)?;
    search_asked(alloc, core, name, size, after)
}

// Rows of the destination of this name are searched.
fn search_asked(
    alloc: Global,
    core: &Core,
    name: Text,
    size: u32,
    after: &Option<Tree>,
) -> Result<Asked, OutOfMemory>
    ensures asked { IfOk result (λ asked. asked ≡ spec.asked_search (reverse core.now.history) name size after.now) }
    ensures ready { IfOk result (IsReady (reverse core.now.history)) }
{
    if !may_be_searched(core, &name) {
        return Ok(refused(alloc, Refusal::BadName { name }));
    }
    match core.transform_into(&name) {
        None => Ok(refused(alloc, Refusal::NoSuchIndex { name })),
        Some(transform) => search_by(alloc, core, name, size, &transform.config, after),
    }
}

// Whether a name is well formed, and no index has it.
fn may_be_searched(core: &Core, name: &Text) -> bool
    ensures { result ≡ spec.may_be_searched (reverse core.now.history) name.now }
{
    is_index_name(name.as_str()) && !is_index(core, name)
}

// Rows of a destination that is grouped by a configuration.
fn search_by(
    alloc: Global,
    core: &Core,
    name: Text,
    size: u32,
    config: &Config,
    after: &Option<Tree>,
) -> Result<Asked, OutOfMemory>
    ensures asked { IfOk result (λ asked. asked ≡ spec.search_by (reverse core.now.history) name size config.now after.now) }
    ensures ready { IfOk result (IsReady (reverse core.now.history)) }
{
    match after {
        None => Ok(shows(alloc, name, size, None)),
        Some(array) => match key_after(alloc, core, config, array)? {
            None => Ok(refused(alloc, Refusal::BadAfter)),
            key => Ok(shows(alloc, name, size, key)),
        },
    }
}

fn shows(alloc: Global, dest: Text, size: u32, after: Option<Key>) -> Asked
    ensures { result ≡ spec.shows dest size after }
{
    told(alloc, Answer::Shown(Search { dest, after, size }))
}

// The key that an array is by a configuration.
fn key_after(
    alloc: Global,
    core: &Core,
    config: &Config,
    array: &Tree,
) -> Result<Option<Key>, OutOfMemory>
    ensures { IfOk result (λ key. key ≡ spec.key_after (reverse core.now.history) config.now array.now) }
{
    let indices = core.catalogue()?;
    let fields = indices.fields(alloc, config.sources.as_slice())?;
    read_key(alloc, config, &fields, array)
}
