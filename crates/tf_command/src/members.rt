// What the members of a command say.
ghost use Rattle.std.specs.Prelude.{◌≡◌, [], IfOk, false, pos, unwrap_or};
ghost use Rattle.tf_model.specs.declared.tree.Tree.TheVariants as trees;
ghost use Rattle.tf_model.specs.Trees.{number_in, text_in, truth_in};
ghost use Rattle.tf_command.specs.Commands.{members_of};
ghost use Rattle.tf_command.specs.Forms as spec;
ghost use Rattle.tf_command.specs.Places.{nothing_said, put_in};

use crate::documents::documents_of;
use crate::forms::{checkpoint_in, lane_in, moment_in, size_in, text_in};
use std::alloc::Global;
use tf_model::{List, OutOfMemory, Text, Tree};

/// What the members of a command say. An absent one has its default; one that the command must have is nothing.
#[derive(Drop)]
pub(crate) struct Members {
    pub(crate) after: Option<Tree>,
    pub(crate) at_ms: Option<i64>,
    pub(crate) checkpoint: u64,
    pub(crate) config: Tree,
    pub(crate) doc: Tree,
    pub(crate) docs: List<(Text, Tree)>,
    pub(crate) force: bool,
    pub(crate) id: Text,
    pub(crate) index: Text,
    pub(crate) lane: u8,
    pub(crate) mappings: Tree,
    pub(crate) shards: i128,
    pub(crate) size: u32,
    pub(crate) stamp: Option<Text>,
    pub(crate) wait: bool,
}

// What is said with one member more.
impl Members {
    fn with_after(self, tree: Tree) -> Members
        ensures { result ≡ record self { after = spec.array_in tree } }
    {
        Members {
            after: array_in(tree),
            ..self
        }
    }

    fn with_at_ms(self, tree: Tree) -> Members
        ensures { result ≡ record self { at_ms = spec.moment_in tree } }
    {
        Members {
            at_ms: moment_in(&tree),
            ..self
        }
    }

    fn with_checkpoint(self, tree: Tree) -> Members
        ensures { result ≡ record self { checkpoint = unwrap_or (spec.checkpoint_in tree) 0 } }
    {
        Members {
            checkpoint: checkpoint_in(&tree).unwrap_or(0),
            ..self
        }
    }

    fn with_config(self, tree: Tree) -> Members
        ensures { result ≡ record self { config = unwrap_or (spec.object_in tree) trees.Null } }
    {
        Members {
            config: object_in(tree),
            ..self
        }
    }

    fn with_doc(self, tree: Tree) -> Members
        ensures { result ≡ record self { doc = unwrap_or (spec.object_in tree) trees.Null } }
    {
        Members {
            doc: object_in(tree),
            ..self
        }
    }

    fn with_docs(self, docs: List<(Text, Tree)>) -> Members
        ensures { result ≡ record self { docs = docs } }
    {
        Members { docs, ..self }
    }

    fn with_force(self, tree: Tree) -> Members
        ensures { result ≡ record self { force = unwrap_or (truth_in tree) false } }
    {
        Members {
            force: tree.as_bool().unwrap_or(false),
            ..self
        }
    }

    fn with_id(self, alloc: Global, tree: Tree) -> Members
        ensures { result ≡ record self { id = unwrap_or (text_in tree) [] } }
    {
        Members {
            id: text_of(alloc, tree),
            ..self
        }
    }

    fn with_index(self, alloc: Global, tree: Tree) -> Members
        ensures { result ≡ record self { index = unwrap_or (text_in tree) [] } }
    {
        Members {
            index: text_of(alloc, tree),
            ..self
        }
    }

    fn with_lane(self, tree: Tree) -> Members
        ensures { result ≡ record self { lane = unwrap_or (spec.lane_in tree) 0 } }
    {
        Members {
            lane: lane_in(&tree).unwrap_or(0),
            ..self
        }
    }

    fn with_mappings(self, tree: Tree) -> Members
        ensures { result ≡ record self { mappings = unwrap_or (spec.object_in tree) trees.Null } }
    {
        Members {
            mappings: object_in(tree),
            ..self
        }
    }

    fn with_shards(self, tree: Tree) -> Members
        ensures { result ≡ record self { shards = unwrap_or (number_in tree) (pos 1) } }
    {
        Members {
            shards: tree.as_number().unwrap_or(1),
            ..self
        }
    }

    fn with_size(self, tree: Tree) -> Members
        ensures { result ≡ record self { size = unwrap_or (spec.size_in tree) 10 } }
    {
        Members {
            size: size_in(&tree).unwrap_or(10),
            ..self
        }
    }

    fn with_stamp(self, tree: Tree) -> Members
        ensures { result ≡ record self { stamp = text_in tree } }
    {
        Members {
            stamp: text_in(tree),
            ..self
        }
    }

    fn with_wait(self, tree: Tree) -> Members
        ensures { result ≡ record self { wait = unwrap_or (truth_in tree) false } }
    {
        Members {
            wait: tree.as_bool().unwrap_or(false),
            ..self
        }
    }

    // A member that has no place is dropped.
    fn without(self, _tree: Tree) -> Members
        ensures { result ≡ self }
    {
        self
    }
}

/// Moves the members of an object to their places.
pub(crate) fn placed(alloc: Global, members: List<(Text, Tree)>) -> Result<Members, OutOfMemory>
    ensures { IfOk result (λ said. said ≡ members_of members) }
{
    let mut members = members;
    let mut said = nothing(alloc);
    while let Some((name, tree)) = members.pop() {
        said = put(alloc, said, name.as_str(), tree)?;
    }
    Ok(said)
}

fn nothing(alloc: Global) -> Members
    ensures { result ≡ nothing_said }
{
    Members {
        after: None,
        at_ms: None,
        checkpoint: 0,
        config: Tree::Null,
        doc: Tree::Null,
        docs: List::new(alloc),
        force: false,
        id: Text::new(alloc),
        index: Text::new(alloc),
        lane: 0,
        mappings: Tree::Null,
        shards: 1,
        size: 10,
        stamp: None,
        wait: false,
    }
}

// Puts a member in its place.
fn put(alloc: Global, said: Members, name: &str, tree: Tree) -> Result<Members, OutOfMemory>
    ensures { IfOk result (λ more. more ≡ put_in name.now tree said) }
{
    match name {
        "after" => Ok(said.with_after(tree)),
        "at" => Ok(said.with_at_ms(tree)),
        "checkpoint" => Ok(said.with_checkpoint(tree)),
        "config" => Ok(said.with_config(tree)),
        "doc" => Ok(said.with_doc(tree)),
        "docs" => Ok(said.with_docs(documents_of(alloc, tree)?)),
        "force" => Ok(said.with_force(tree)),
        "id" => Ok(said.with_id(alloc, tree)),
        "index" => Ok(said.with_index(alloc, tree)),
        "lane" => Ok(said.with_lane(tree)),
        "mappings" => Ok(said.with_mappings(tree)),
        "shards" => Ok(said.with_shards(tree)),
        "size" => Ok(said.with_size(tree)),
        "stamp" => Ok(said.with_stamp(tree)),
        "wait_for_checkpoint" => Ok(said.with_wait(tree)),
        _ => Ok(said.without(tree)),
    }
}

// The tree, where it is an object.
fn object_in(tree: Tree) -> Tree
    ensures { result ≡ unwrap_or (spec.object_in tree) trees.Null }
{
    if tree.as_object().is_some() {
        tree
    } else {
        Tree::Null
    }
}

// The tree, where it is an array.
fn array_in(tree: Tree) -> Option<Tree>
    ensures { result ≡ spec.array_in tree }
{
    if tree.as_array().is_some() {
        Some(tree)
    } else {
        None
    }
}

// The text, or the empty one.
fn text_of(alloc: Global, tree: Tree) -> Text
    ensures { result ≡ unwrap_or (text_in tree) [] }
{
    text_in(tree).unwrap_or(Text::new(alloc))
}
