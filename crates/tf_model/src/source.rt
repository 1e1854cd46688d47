// Trees that are kept as texts.
ghost use Rattle.std.specs.Prelude.{◌≡◌, IfOk};
ghost use Rattle.tf_model.specs.Print.{printed};

use crate::printing::print;
use crate::{OutOfMemory, Text, Tree};
use std::alloc::Global;
use std::marker::Model;
use std::snapshot::Snapshot;

/// A tree that is kept as one text, which is how it is printed. Contracts see the tree.
#[derive(Drop)]
pub struct Source {
    text: Text,
    tree: Snapshot<Tree>,
}

impl Model for Source {
    ghost use Rattle.std.specs.Prelude.{◌≡◌};
    ghost use Rattle.tf_model.specs.contracts.tree.Tree.{the_row};
    ghost use Rattle.tf_model.specs.declared.tree.Tree.{Tree};
    ghost use Rattle.tf_model.specs.Print.{printed};

    ghost Value = { Tree };

    ghost coded = { the_row.coded };

    ghost view = { λ s. s.tree.value };

    ghost invariant = { λ s. s.text ≡ printed s.tree.value };
}

impl Source {
    /// The source of a tree, which is printed.
    pub fn of(alloc: Global, tree: &Tree) -> Result<Source, OutOfMemory>
        ensures { IfOk result (λ source. source ≡ tree.now) }
    {
        Ok(Source {
            text: print(alloc, tree)?,
            tree: Snapshot::of(tree),
        })
    }

    /// The tree as it is printed. Takes no memory.
    pub fn text(&self) -> &Text
        ensures { result.now ≡ printed self.now }
    {
        &self.text
    }
}
