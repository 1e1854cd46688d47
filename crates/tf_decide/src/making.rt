// What is asked for, as it is put together.
ghost use Rattle.std.specs.Prelude.{◌≡◌, IfOk, IsUtf8, reverse};
ghost use Rattle.tf_core.specs.Moves.{moment_after};
ghost use Rattle.tf_decide.specs.Asking as spec;

use crate::asked::{Answer, Asked};
use crate::giving::Given;
use std::alloc::Global;
use tf_core::Core;
use tf_model::{Entry, Kind, List, OutOfMemory, Text};
use tf_reply::Refusal;

/// The next entry of a core by an actor, where a moment is given.
pub fn entry_after(core: &Core, given: &Given, kind: Kind) -> Entry
    ensures { result ≡ spec.entry_after (reverse core.now.history) given.now.actor given.now.at_ms kind }
{
    Entry {
        at_ms: moment_of(core, given),
        actor: given.actor,
        kind,
    }
}

/// The moment of the next entry of a core.
pub fn moment_of(core: &Core, given: &Given) -> i64
    ensures { result ≡ moment_after (reverse core.now.history) given.now.at_ms }
{
    core.moment(given.at_ms)
}

/// No entry, and a refusal.
pub fn refused(alloc: Global, refusal: Refusal) -> Asked
    ensures asked { result ≡ spec.refuses refusal }
{
    Asked {
        entries: List::new(alloc),
        answer: Answer::Refused(refusal),
    }
}

/// A form that the program does not take yet.
pub fn unsupported(alloc: Global) -> Asked
    ensures asked { result ≡ spec.unsupported }
{
    refused(alloc, Refusal::UnsupportedYet)
}

/// No entry.
pub fn told(alloc: Global, answer: Answer) -> Asked
    ensures asked { result ≡ spec.tells answer }
{
    Asked {
        entries: List::new(alloc),
        answer,
    }
}

/// One entry.
pub fn made(alloc: Global, entry: Entry, answer: Answer) -> Result<Asked, OutOfMemory>
    ensures asked { IfOk result (λ asked. asked ≡ spec.makes entry answer) }
{
    let mut entries = List::new(alloc);
    entries.push(entry)?;
    Ok(Asked { entries, answer })
}

/// The bytes of a text are UTF-8. A law, which does nothing when it runs.
pub fn text_is_utf8(text: &Text)
    ensures { IsUtf8 text.now }
{
    let _text = text.as_str();
}
