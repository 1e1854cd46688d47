// The ids of the transforms.
ghost use Rattle.std.specs.Prelude.{◌≡◌, map, IfOk};
ghost use Rattle.tf_core.specs.Listing.{ascending, ids_in};

use crate::state::Core;
use crate::transform::Transform;
use std::alloc::Global;
use std::collections::BTreeSet;
use tf_model::{List, OutOfMemory, Text};

impl Core {
    /// The ids of the transforms that exist, ascending by their bytes.
    pub fn ids(&self) -> Result<List<Text>, OutOfMemory>
        ensures { IfOk result (λ ids. ids ≡ ids_in self.now.history) }
    {
        let ids = collected(self.alloc, self.transforms.as_slice())?;
        listed(self.alloc, ids)
    }
}

// The ids of transforms as a set.
fn collected(alloc: Global, transforms: &[Transform]) -> Result<BTreeSet<Text, Global>, OutOfMemory>
    ensures { IfOk result (λ ids. ids.keys ≡ ascending (map (λ t. t.id) transforms.now)) }
{
    let mut ids = BTreeSet::new(alloc);
    for transform in transforms {
        ids.insert(transform.id.copy(alloc)?)?;
    }
    Ok(ids)
}

// A set of ids as a list, ascending.
fn listed(alloc: Global, ids: BTreeSet<Text, Global>) -> Result<List<Text>, OutOfMemory>
    ensures { IfOk result (λ list. list ≡ ids.keys) }
{
    let mut list = List::new(alloc);
    for id in ids {
        list.push(id)?;
    }
    Ok(list)
}
