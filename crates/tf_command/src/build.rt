// The parts of the command that a line's members make.
ghost use Rattle.std.specs.Prelude.{◌≡◌};
ghost use Rattle.tf_command.specs.Commands as spec;

use crate::command::{Op, Parts};
use crate::members::Members;
use crate::table::Name;

/// The parts of the command of an op, by what its members say.
pub(crate) fn parts_from(line: u64, name: Name, said: Members) -> Parts
    ensures { result ≡ spec.parts_from line name said }
{
    Parts {
        line,
        lane: said.lane,
        at_ms: said.at_ms,
        op: op_of(name, said),
    }
}

fn op_of(name: Name, said: Members) -> Op
    ensures { result ≡ spec.op_of name said }
{
    let Members {
        after,
        at_ms: _,
        checkpoint,
        config,
        doc,
        docs,
        force,
        id,
        index,
        lane: _,
        mappings,
        shards,
        size,
        stamp,
        wait,
    } = said;
    match name {
        Name::CreateIndex => Op::CreateIndex {
            index,
            mappings,
            shards,
            stamp,
            quick: false,
        },
        Name::Index => Op::Index { index, id, doc },
        Name::Bulk => Op::Bulk { index, docs },
        Name::PutTransform => Op::PutTransform { id, config },
        Name::Delete => Op::Delete { id },
        Name::Start => Op::Start { id },
        Name::Stop => Op::Stop { id, wait, force },
        Name::Reset => Op::Reset { id },
        Name::ScheduleNow => Op::ScheduleNow { id },
        Name::Step => Op::Step { id },
        Name::Await => Op::Await { id, checkpoint },
        Name::Settle => Op::Settle,
        Name::Search => Op::Search { index, size, after },
        Name::Stats => Op::Stats { id },
        Name::Preview => Op::Preview { config },
    }
}
