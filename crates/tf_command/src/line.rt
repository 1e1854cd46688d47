// What is asked of a line before it is a command.
ghost use Rattle.std.specs.Prelude.{◌≡◌, IfOk, codes, unwrap_or};
ghost use Rattle.std.specs.Option.{option_and_then};
ghost use Rattle.tf_command.specs.Forms as forms;
ghost use Rattle.tf_command.specs.Lines as spec;
ghost use Rattle.tf_model.specs.Trees.{member_of};

use crate::forms::lane_in;
use crate::read::MAX_LINE;
use std::alloc::Global;
use tf_json::{JsonError, read_object};
use tf_model::{OutOfMemory, Tree};

/// Whether a line has only spaces, tabs and carriage returns.
pub fn is_blank(line: &[u8]) -> bool
    ensures { result ≡ spec.is_blank line.now }
{
    line.iter()
        .all(|byte| *byte == b' ' || *byte == b'\t' || *byte == b'\r')
}

/// The lane that a line asks for by its member `lane`, from 0 to 7. It is 0 where the line has more than 1,048,576
/// bytes, is no JSON object or has a fraction, and where `lane` is absent or no such number. The rest of the line is
/// not looked at. The error is want of memory alone.
pub fn lane_of(alloc: Global, line: &[u8]) -> Result<u8, OutOfMemory>
    ensures { IfOk result (λ lane. lane ≡ spec.lane_of line.now) }
{
    if line.len() > MAX_LINE {
        return Ok(0);
    }
    match read_object(alloc, line) {
        Ok(tree) => Ok(lane_in_object(&tree)),
        Err(JsonError::Memory) => Err(OutOfMemory),
        Err(_) => Ok(0),
    }
}

fn lane_in_object(tree: &Tree) -> u8
    ensures { result ≡ unwrap_or (option_and_then forms.lane_in (member_of tree.now (codes "lane"))) 0 }
{
    match tree.get("lane") {
        Some(lane) => lane_in(lane).unwrap_or(0),
        None => 0,
    }
}
