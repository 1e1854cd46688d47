// The texts of keys.
ghost use Rattle.std.specs.Prelude.{◌≡◌, IfOk, map};
ghost use Rattle.tf_group.specs.Ids as spec;

use std::alloc::Global;
use tf_model::{Key, List, OutOfMemory, Text, Tree, Value, print};

/// The `_id` of a key's row: the compact JSON array of its parts, as `print` gives it, with dates as numbers of
/// milliseconds since 1970. The error is want of memory alone.
pub fn id_text(alloc: Global, key: &Key) -> Result<Text, OutOfMemory>
    ensures { IfOk result (λ text. text ≡ spec.id_text key.now) }
{
    let tree = Tree::Arr(part_trees(alloc, &key.parts)?);
    print(alloc, &tree)
}

fn part_trees(alloc: Global, parts: &List<Value>) -> Result<List<Tree>, OutOfMemory>
    ensures { IfOk result (λ trees. trees ≡ map spec.part_tree parts.now) }
{
    let mut trees = List::new(alloc);
    for part in parts.as_slice() {
        trees.push(part_tree(alloc, part)?)?;
    }
    Ok(trees)
}

// A part as a tree.
fn part_tree(alloc: Global, part: &Value) -> Result<Tree, OutOfMemory>
    ensures { IfOk result (λ tree. tree ≡ spec.part_tree part.now) }
{
    Ok(match part {
        Value::Null => Tree::Null,
        Value::Bool(truth) => Tree::Bool(*truth),
        Value::Int(number) => Tree::Num(*number),
        Value::Date(ms) => Tree::Num(i128::from(*ms)),
        Value::Str(text) => Tree::Str(text.copy(alloc)?),
    })
}
