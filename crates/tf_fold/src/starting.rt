// The fold over no documents.
ghost use Rattle.std.specs.Prelude.{◌≡◌, IfOk, [], map};
ghost use Rattle.tf_fold.specs.Bounds.{IsPartWithin};
ghost use Rattle.tf_fold.specs.Fold.{StandsFor};
ghost use Rattle.tf_fold.specs.Parts as spec;
ghost use Rattle.tf_model.specs.Rows.{aggs_of};

use crate::acc::Acc;
use crate::part::Part;
use std::alloc::Global;
use tf_model::{Agg, AggKind, Config, List, OutOfMemory, Shape};

/// The fold over no documents, by the aggregations of a configuration: none for a latest. `OutOfMemory` comes where no
/// memory is found for its parts.
pub fn start(alloc: Global, config: &Config) -> Result<Acc, OutOfMemory>
    ensures empty { IfOk result (StandsFor config.now []) }
    ensures weight { IfOk result (λ acc. acc.weight ≡ 0) }
{
    Ok(Acc::of(first_parts(alloc, aggs(config))?))
}

/// The aggregations of a configuration, none for a latest.
pub fn aggs(config: &Config) -> &[Agg]
    ensures { result.now ≡ aggs_of config.now.shape }
{
    match &config.shape {
        Shape::Pivot { aggs, .. } => aggs.as_slice(),
        Shape::Latest { .. } => &[],
    }
}

/// What the aggregations keep of no documents.
fn first_parts(alloc: Global, aggs: &[Agg]) -> Result<List<Part>, OutOfMemory>
    ensures { IfOk result (λ parts. parts ≡ spec.parts_over aggs.now []) }
{
    let mut parts = List::new(alloc);
    for agg in aggs {
        parts.push(first_part(agg.kind))?;
    }
    Ok(parts)
}

/// What an aggregation keeps of no values.
fn first_part(kind: AggKind) -> Part
    ensures value { result ≡ spec.part_over kind [] }
{
    match kind {
        AggKind::Sum => Part::Sum(0),
        AggKind::Min => Part::Least(None),
        AggKind::Max => Part::Greatest(None),
        AggKind::ValueCount => Part::Count(0),
    }
}
