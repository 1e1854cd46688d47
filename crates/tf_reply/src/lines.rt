// Replies as lines.
ghost use Rattle.std.specs.Prelude.{◌≡◌, ◌∷◌, ◌++◌, [], IfOk, OnOk, string_bytes};
ghost use Rattle.tf_reply.specs.Answers as spec;

use crate::answers::reply_tree;
use crate::replies::Reply;
use std::alloc::Global;
use tf_model::{OutOfMemory, Text, print, print_onto};

/// The line of a reply: its tree, printed, without a newline. The error is want of memory alone.
pub fn reply_line(alloc: Global, reply: &Reply) -> Result<Text, OutOfMemory>
    ensures { IfOk result (λ line. line ≡ spec.reply_line reply.now) }
{
    let tree = reply_tree(alloc, reply)?;
    print(alloc, &tree)
}

/// Appends the line of a reply and a newline. After want of memory a part of them may have been appended.
pub fn write_reply(alloc: Global, reply: &Reply, out: &mut String) -> Result<(), OutOfMemory>
    ensures { OnOk result (string_bytes out.new ≡ string_bytes out.old ++ spec.reply_line reply.now ++ 10 ∷ []) }
{
    let tree = reply_tree(alloc, reply)?;
    print_onto(&tree, out)?;
    out.push_str("\n")
}
