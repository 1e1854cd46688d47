// What an entry changes, once it is prepared.
ghost use Rattle.std.specs.Prelude.{◌≡◌, ◌+◌, ◌++◌, ◌≤◌, length, map, vec_len, vec_capacity};
ghost use Rattle.std.specs.Arc.{arc_value};
ghost use Rattle.std.specs.List.{AllByRecursion};
ghost use Rattle.tf_core.specs.Steps.{Changed, IsSmall, Stepped, added, docs_of};
ghost use Rattle.tf_core.specs.Rooms.{CanChange, CanStep};

use crate::index::Index;
use crate::late::count_late;
use crate::ready::{Change, Step};
use crate::table::{place_of, remove};
use crate::transform::Transform;
use std::alloc::Global;
use std::sync::Arc;
use tf_model::Doc;

/// Makes a step. Takes no memory.
pub fn take_step(
    indices: &mut Vec<Index>,
    docs: &mut Vec<Arc<Doc, Global>>,
    transforms: &mut Vec<Transform>,
    step: Step,
)
    requires can { CanStep step indices.old docs.old transforms.old }
    requires small { AllByRecursion IsSmall transforms.old.items }
    ensures indices { indices.new.items ≡ indices.old.items ++ added step }
    ensures docs { map (λ doc. arc_value doc) docs.new.items ≡ map (λ doc. arc_value doc) docs.old.items ++ docs_of step }
    ensures transforms { Stepped (length docs.old.items) step transforms.old.items transforms.new.items }
    ensures index_room { vec_capacity indices.old ≤ vec_capacity indices.new }
    ensures doc_room { vec_capacity docs.old ≤ vec_capacity docs.new }
    ensures transform_room { vec_capacity transforms.old ≤ vec_capacity transforms.new }
{
    match step {
        Step::Index(index) => {
            let _pushed = indices.push(index);
        }
        Step::Write(doc) => {
            count_late(transforms, &doc);
            let _pushed = docs.push(doc);
        }
        Step::Put(transform) => {
            let _inserted = transforms.insert(0, transform);
        }
        Step::Delete(id) => remove(transforms, &id),
        Step::Change { id, change: by } => {
            let at = place_of(transforms.as_slice(), &id);
            change(&mut transforms[at], docs.len() as u64, by);
        }
    }
}

fn change(transform: &mut Transform, written: u64, change: Change)
    requires can { CanChange change transform.old }
    requires small { IsSmall transform.old }
    ensures { Changed written change transform.old transform.new }
{
    match change {
        Change::Start => transform.start(),
        Change::AskStop { wait } => transform.ask_stop(wait),
        Change::Stop => transform.stop(),
        Change::Prompt => transform.prompt(),
        Change::Fail(reason) => transform.fail(reason),
        Change::Begin { n, bound, at_ms } => transform.begin(n, bound, at_ms, written),
        Change::Page { n, rows, position } => transform.page(n, rows, position),
        Change::Finish { n } => transform.finish(n),
        Change::Reset => transform.reset(),
    }
}
