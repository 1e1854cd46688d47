// How prepared entries are applied.
ghost use Rattle.std.specs.Prelude.{◌≡◌, ◌++◌, ◌<◌, map, vec_len, vec_capacity};
ghost use Rattle.std.specs.List.{AllByRecursion};
ghost use Rattle.tf_core.specs.Chain.{entries_in};
ghost use Rattle.tf_core.specs.Counts.{AreCounted, AreFew, AreMentioned, HasCount, HaveCounts, IsCounted};
ghost use Rattle.tf_core.specs.Ids.{all_docs};
ghost use Rattle.tf_core.specs.Kept.{entry_of, past_in};
ghost use Rattle.tf_core.specs.Rooms.{CanStep};
ghost use Rattle.tf_core.specs.Standing.{Applied, IsReady, Stands, shared};
ghost use Rattle.tf_core.specs.Steps.{IsSmall};

use crate::counts::{Counts, count_step};
use crate::index::Index;
use crate::kept::Kept;
use crate::ready::Prepared;
use crate::stepping::take_step;
use crate::transform::Transform;
use std::alloc::Global;
use std::sync::Arc;
use tf_model::Doc;

/// Applies prepared entries, one after the other. Takes no memory.
pub fn apply_all(
    entries: &mut Vec<Kept>,
    indices: &mut Vec<Index>,
    docs: &mut Vec<Arc<Doc, Global>>,
    transforms: &mut Vec<Transform>,
    counts: &mut Counts,
    steps: Vec<Prepared>,
)
    requires stands { Stands (past_in entries.old.items) indices.old.items (shared docs.old.items) transforms.old.items }
    requires ready { IsReady entries.old indices.old docs.old transforms.old steps.items }
    requires counted { AreCounted counts.old (shared docs.old.items) }
    requires mentioned { AreMentioned counts.old (past_in entries.old.items) }
    requires counts { HaveCounts counts.old steps.items }
    ensures history { map entry_of entries.new.items ≡ map entry_of entries.old.items ++ entries_in steps.items }
    ensures docs { shared docs.new.items ≡ shared docs.old.items ++ all_docs steps.items }
    ensures stands { Stands (past_in entries.new.items) indices.new.items (shared docs.new.items) transforms.new.items }
    ensures counted { AreCounted counts.new (shared docs.new.items) }
    ensures mentioned { AreMentioned counts.new (past_in entries.new.items) }
{
    for prepared in steps {
        apply(entries, indices, docs, transforms, counts, prepared);
    }
}

fn apply(
    entries: &mut Vec<Kept>,
    indices: &mut Vec<Index>,
    docs: &mut Vec<Arc<Doc, Global>>,
    transforms: &mut Vec<Transform>,
    counts: &mut Counts,
    prepared: Prepared,
)
    requires space { vec_len entries.old < vec_capacity entries.old }
    requires can { CanStep prepared.step indices.old docs.old transforms.old }
    requires small { AllByRecursion IsSmall transforms.old.items }
    requires there { HasCount counts.old prepared.step }
    requires few { AreFew counts.old }
    ensures applied { Applied prepared entries.old entries.new indices.old indices.new docs.old docs.new transforms.old transforms.new }
    ensures counted { IsCounted prepared.step counts.old counts.new }
{
    let Prepared { kept, step } = prepared;
    let _pushed = entries.push(kept);
    count_step(counts, &step);
    take_step(indices, docs, transforms, step);
}
