// The source indices.
ghost use Rattle.std.specs.Prelude.{◌≡◌, IfOk};
ghost use Rattle.std.specs.Arc.{arc_value};
ghost use Rattle.std.specs.Option.{option_copied};

use std::alloc::Global;
use std::marker::Model;
use std::sync::Arc;
use tf_model::{Mapping, OutOfMemory, Text, TryCopy, copy_mapping};

/// A source index.
#[derive(Drop)]
pub struct Index {
    name: Text,
    shards: u32,
    mapping: Arc<Mapping, Global>,
    stamp: Option<Text>,
    quick: bool,
}

impl Model for Index {
    ghost use Rattle.std.specs.Arc.{arc_value};
    ghost use Rattle.std.specs.Coded.{codes};
    ghost use Rattle.tf_history.specs.Catalogue.{SourceIndex};

    ghost Value = { SourceIndex };

    ghost coded = { Prim.hlevel codes };

    ghost view = { λ i. record { name = i.name; shards = i.shards; mapping = arc_value i.mapping; stamp = i.stamp; quick = i.quick } };
}

impl Index {
    /// An index with copies of these parts.
    pub fn copied(
        alloc: Global,
        name: &Text,
        shards: u32,
        mapping: &Mapping,
        stamp: &Option<Text>,
        quick: bool,
    ) -> Result<Index, OutOfMemory>
        ensures { IfOk result (λ index. index ≡ record { name = name.now; shards = shards; mapping = mapping.now; stamp = stamp.now; quick = quick }) }
    {
        Ok(Index {
            name: name.copy(alloc)?,
            shards,
            mapping: Arc::new(alloc, copy_mapping(alloc, mapping)?)?,
            stamp: stamp.try_copy(alloc)?,
            quick,
        })
    }

    /// Its name.
    pub fn name(&self) -> &Text
        ensures { result.now ≡ self.now.name }
    {
        &self.name
    }

    /// How many shards it has.
    pub fn shards(&self) -> u32
        ensures { result ≡ self.now.shards }
    {
        self.shards
    }

    /// The types of its fields.
    pub fn mapping(&self) -> &Mapping
        ensures { result.now ≡ self.now.mapping }
    {
        &self.mapping
    }

    /// The same, as its documents share it.
    pub fn shared_mapping(&self) -> &Arc<Mapping, Global>
        ensures { arc_value result.now ≡ self.now.mapping }
    {
        &self.mapping
    }

    /// The same, shared.
    pub fn share_mapping(&self) -> Result<Arc<Mapping, Global>, OutOfMemory>
        ensures { IfOk result (λ shared. arc_value shared ≡ self.now.mapping) }
    {
        let shared = Arc::try_clone(&self.mapping)?;
        Ok(shared)
    }

    /// The date field that is set to each document's moment, where there is one.
    pub fn stamp(&self) -> Option<&Text>
        ensures { option_copied result ≡ self.now.stamp }
    {
        self.stamp.as_ref()
    }

    /// Whether its documents may be journalled after their reply.
    pub fn is_quick(&self) -> bool
        ensures { result ≡ self.now.quick }
    {
        self.quick
    }
}
