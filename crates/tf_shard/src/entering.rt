// Entering ids ahead of their documents.
ghost use Rattle.std.specs.Prelude.{◌≡◌, ◌∷◌, ◌++◌, [], OnErr, OnOk, None, false};
ghost use Rattle.std.specs.List.{list_any};
ghost use Rattle.tf_shard.specs.Created as spec;
ghost use Rattle.tf_shard.specs.Created.{left_after};
ghost use Rattle.tf_shard.specs.Ids.{AreNew, number_of, same_id};
ghost use Rattle.tf_shard.specs.Parts.{HasTheSame, IsWhole, docs_of, spare_of};

use crate::parts::{Parts, is_next};
use crate::sealing::seal;
use std::alloc::Global;
use tf_model::{List, OutOfMemory, Text};

/// Makes room for a document with this id, where there is none: then this id is the next that is entered ahead.
pub fn make_room(alloc: Global, parts: &mut Parts, id: &Text) -> Result<(), OutOfMemory>
    requires whole { IsWhole parts.old }
    requires free { number_of id.now (docs_of parts.old) ≡ None }
    ensures whole { IsWhole parts.new }
    ensures same { HasTheSame parts.old parts.new }
    ensures next { OnOk result (spare_of parts.new ≡ id.now ∷ left_after id.now (spare_of parts.old)) }
    ensures no_memory { OnErr result (spec.is_next id.now (spare_of parts.old) ≡ false) }
{
    if is_next(parts, id) {
        return Ok(());
    }
    forget(parts);
    seal(alloc, parts)?;
    enter(alloc, parts, id)
}

/// Makes room for documents with these ids, which are to come in this order.
pub fn make_all_room(alloc: Global, parts: &mut Parts, ids: &List<Text>) -> Result<(), OutOfMemory>
    requires whole { IsWhole parts.old }
    requires new { AreNew (docs_of parts.old) ids.now }
    ensures whole { IsWhole parts.new }
    ensures same { HasTheSame parts.old parts.new }
    ensures spare { OnOk result (spare_of parts.new ≡ ids.now) }
{
    forget(parts);
    seal(alloc, parts)?;
    for id in ids.as_slice() {
        enter(alloc, parts, id)?;
    }
    Ok(())
}

/// Makes room for one document more, behind those for which there is room. After want of memory the room is as before.
pub fn make_more_room(alloc: Global, parts: &mut Parts, id: &Text) -> Result<(), OutOfMemory>
    requires whole { IsWhole parts.old }
    requires free { number_of id.now (docs_of parts.old) ≡ None }
    requires new { list_any (same_id id.now) (spare_of parts.old) ≡ false }
    ensures whole { IsWhole parts.new }
    ensures same { HasTheSame parts.old parts.new }
    ensures ok { OnOk result (spare_of parts.new ≡ spare_of parts.old ++ id.now ∷ []) }
    ensures err { OnErr result (spare_of parts.new ≡ spare_of parts.old) }
{
    seal(alloc, parts)?;
    enter(alloc, parts, id)
}

/// Takes out the ids that are entered ahead.
pub fn forget(parts: &mut Parts)
    requires { IsWhole parts.old }
    ensures whole { IsWhole parts.new }
    ensures same { HasTheSame parts.old parts.new }
    ensures spare { spare_of parts.new ≡ [] }
{
    parts.ids.truncate(parts.count as usize);
}

// Enters one id ahead, behind those that are.
fn enter(alloc: Global, parts: &mut Parts, id: &Text) -> Result<(), OutOfMemory>
    requires whole { IsWhole parts.old }
    requires free { number_of id.now (docs_of parts.old) ≡ None }
    requires new { list_any (same_id id.now) (spare_of parts.old) ≡ false }
    ensures whole { IsWhole parts.new }
    ensures same { HasTheSame parts.old parts.new }
    ensures ok { OnOk result (spare_of parts.new ≡ spare_of parts.old ++ id.now ∷ []) }
    ensures err { OnErr result (spare_of parts.new ≡ spare_of parts.old) }
{
    let id = id.copy(alloc)?;
    parts
        .tail
        .reserve(parts.ids.len() - parts.count as usize + 1)?;
    parts.ids.insert(id)?;
    Ok(())
}
