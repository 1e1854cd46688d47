//! The laws of order: what does not hang on the order of documents.
//!
//! A transform is defined over the documents in the order in which they were written, and reads them shard by shard. Each
//! function here is a law over the definitions of tf_model: it does nothing, and its contract is the law.
#![tactic(auto)]

ghost use Rattle.tf_order.specs.Laws.{ChangedInAnyOrder, CountedInAnyOrder, FirstsOfAShard, FitsInAnyOrder, GroupingsInAnyOrder, KeysInAnyOrder, LatestRowsInAnyOrder, NumberedAreNamedOnce, OneMoreIsNumbered, PivotRowsInAnyOrder, PivotsInAnyOrder, RunsAreToldByTheirLengths, ShardsHoldTheSources, SumRangesInAnyOrder, ValuesInAnyOrder, WindowsInAnyOrder};

/// Whatever their order, the same documents count.
#[tactic(auto, using(crate::proofs::Rows::counted_in_any_order))]
pub fn counted_in_any_order()
    ensures { CountedInAnyOrder }
{}

/// Whatever their order, the same documents are in a window.
pub fn windows_in_any_order()
    ensures { WindowsInAnyOrder }
{}

/// Documents that fit a configuration fit it in any order.
pub fn fits_in_any_order()
    ensures { FitsInAnyOrder }
{}

/// Whatever the order of the documents, they have the same keys, which ascend.
#[tactic(auto, using(crate::proofs::Rows::keys_in_any_order))]
pub fn keys_in_any_order()
    ensures { KeysInAnyOrder }
{}

/// Whatever the order of the documents, the same keys changed, and the same of them are above a position.
#[tactic(auto, using(crate::proofs::Rows::changed_in_any_order))]
pub fn changed_in_any_order()
    ensures { ChangedInAnyOrder }
{}

/// Values have the same sum, count, least and greatest in any order.
pub fn values_in_any_order()
    ensures { ValuesInAnyOrder }
{}

/// A key has the same row of a pivot whatever the order of the documents.
#[tactic(auto, using(crate::proofs::Rows::pivot_rows_in_any_order))]
pub fn pivot_rows_in_any_order()
    ensures { PivotRowsInAnyOrder }
{}

/// A key has the same sum outside `i64` whatever the order of the documents, or none.
#[tactic(auto, using(crate::proofs::Rows::sum_ranges_in_any_order))]
pub fn sum_ranges_in_any_order()
    ensures { SumRangesInAnyOrder }
{}

/// A key has the same latest row whatever the order of the documents, where no two of them have the same index, shard and
/// sequence number.
#[tactic(auto, using(crate::proofs::Names::latest_rows_in_any_order))]
pub fn latest_rows_in_any_order()
    ensures { LatestRowsInAnyOrder }
{}

/// The grouping of a pivot from scratch is the same whatever the order of the documents.
#[tactic(auto, using(crate::proofs::Groupings::pivots_in_any_order))]
pub fn pivots_in_any_order()
    ensures { PivotsInAnyOrder }
{}

/// The grouping from scratch is the same whatever the order of the documents, where no two of them have the same index,
/// shard and sequence number.
#[tactic(auto, using(crate::proofs::Groupings::groupings_in_any_order))]
pub fn groupings_in_any_order()
    ensures { GroupingsInAnyOrder }
{}

/// Documents that are numbered shard by shard, as they are written, have names of their own.
#[tactic(auto, using(crate::proofs::Numbers::numbered_are_named_once))]
pub fn numbered_are_named_once()
    ensures { NumberedAreNamedOnce }
{}

/// So they stay with one more whose number is how many of them are in its shard.
#[tactic(auto, using(crate::proofs::Numbers::one_more_is_numbered))]
pub fn one_more_is_numbered()
    ensures { OneMoreIsNumbered }
{}

/// The documents of some indices in the order of writing are those of their shards, one shard after the other, in another
/// order.
#[tactic(auto, using(crate::proofs::Shards::shards_hold_the_sources))]
pub fn shards_hold_the_sources()
    ensures { ShardsHoldTheSources }
{}

/// The documents of a shard among the first documents of all are the first of the shard.
#[tactic(auto, using(crate::proofs::Shards::firsts_of_a_shard))]
pub fn firsts_of_a_shard()
    ensures { FirstsOfAShard }
{}

/// Runs of shards are told by their lengths: those of all documents, cut to the lengths that they had when there were fewer,
/// are as they were then.
#[tactic(auto, using(crate::proofs::Runs::runs_are_told_by_their_lengths))]
pub fn runs_are_told_by_their_lengths()
    ensures { RunsAreToldByTheirLengths }
{}
