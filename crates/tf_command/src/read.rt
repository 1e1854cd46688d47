// Reading of a command.
ghost use Rattle.tf_command.specs.Commands as spec;
ghost use Rattle.std.specs.Prelude.{◌≡◌, IfOk, None, Some};
ghost use Rattle.tf_command.specs.Formed.{AreKept, IsKept};
ghost use Rattle.tf_command.specs.Table as table;
ghost use Rattle.tf_command.specs.declared.command.LineError.TheVariants as error;
ghost use Rattle.tf_model.specs.Trees.{members_in};

use crate::build::parts_from;
use crate::checks::{first_absent, first_bad, member_at};
use crate::command::{Command, LineError};
use crate::members::placed;
use crate::table::{Name, name_of, required};
use std::alloc::Global;
use tf_json::{JsonError, read_object};
use tf_model::{List, OutOfMemory, Text, Tree};

/// How many bytes a line may have.
pub(crate) const MAX_LINE: usize = 1_048_576;

/// The command that a line is. The line is bytes without a line's end; `number` is its place in the script.
///
/// The refusals, in this order: `LineTooLong`, `BadJson`, `Fraction`, `UnknownOp`, `MissingField`, `BadValue`; where
/// several members meet a condition, the first by name in bytes is told. The ops, their members and the form of each
/// stand in `table`: a command has `op`, the members that its op must have, and may have `lane`, `at` and the optional
/// ones, each of which has its default where it is absent. `null` is a value like any other. `Memory` may come at any
/// line. The texts and trees of the command are moved out of what was read.
#[tactic(auto, using(crate::proofs::Sizes::printed_room))]
pub fn read_command(alloc: Global, line: &[u8], number: u64) -> Result<Command, LineError>
    // A command and each refusal come exactly where they are what the line is.
    ensures reading { spec.Answers (spec.command_of number line.now) result }
{
    if line.len() > MAX_LINE {
        return Err(LineError::LineTooLong {
            bytes: line.len() as u64,
        });
    }
    match read_object(alloc, line) {
        Ok(tree) => command_in(alloc, number, tree),
        Err(JsonError::NotJson) => Err(LineError::BadJson),
        Err(JsonError::Fraction { path }) => Err(LineError::Fraction { path }),
        Err(JsonError::Memory) => Err(LineError::Memory),
    }
}

#[tactic(auto, using(crate::proofs::LineParts::kept_members))]
fn command_in(alloc: Global, number: u64, tree: Tree) -> Result<Command, LineError>
    requires { IsKept tree }
    ensures reading { spec.Answers (spec.if_object number (members_in tree)) result }
{
    match tree.into_object() {
        None => Err(LineError::BadJson),
        Some(members) => command_of_members(alloc, number, members),
    }
}

fn command_of_members(
    alloc: Global,
    number: u64,
    members: List<(Text, Tree)>,
) -> Result<Command, LineError>
    requires { AreKept members }
    ensures reading { spec.Answers (spec.if_known number members (spec.op_in members)) result }
{
    match op_in(members.as_slice()) {
        None => Err(LineError::UnknownOp),
        Some(name) => command_by(alloc, number, name, members),
    }
}

fn op_in(members: &[(Text, Tree)]) -> Option<Name>
    ensures { result ≡ spec.op_in members.now }
{
    name_of(member_at(members, "op")?.as_text()?.as_str())
}

fn command_by(
    alloc: Global,
    number: u64,
    name: Name,
    members: List<(Text, Tree)>,
) -> Result<Command, LineError>
    requires { AreKept members }
    ensures reading { spec.Answers (spec.if_known number members (Some name)) result }
{
    if let Some(field) = first_absent(members.as_slice(), required(name)) {
        return Err(missing(alloc, field));
    }
    if let Some(field) = first_bad(name, members.as_slice()) {
        return Err(bad(alloc, field));
    }
    Ok(made(alloc, number, name, members)?)
}

// The command of members that are all there and of their forms.
#[tactic(auto, using(crate::proofs::FormedLaws::formed))]
fn made(
    alloc: Global,
    number: u64,
    name: Name,
    members: List<(Text, Tree)>,
) -> Result<Command, OutOfMemory>
    requires complete { spec.first_absent members (table.required name) ≡ None }
    requires good { spec.first_bad name members ≡ None }
    requires lines { AreKept members }
    ensures command { IfOk result (λ command. command ≡ spec.parts_from number name (spec.members_of members)) }
{
    let parts = parts_from(number, name, placed(alloc, members)?);
    Ok(Command::of(parts))
}

fn missing(alloc: Global, field: &str) -> LineError
    ensures { spec.Tells (error.MissingField field.now) result }
{
    match Text::from_str(alloc, field) {
        Ok(field) => LineError::MissingField { field },
        Err(_) => LineError::Memory,
    }
}

fn bad(alloc: Global, field: &Text) -> LineError
    ensures { spec.Tells (error.BadValue field.now) result }
{
    match field.copy(alloc) {
        Ok(field) => LineError::BadValue { field },
        Err(_) => LineError::Memory,
    }
}
