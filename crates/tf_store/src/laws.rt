//! The laws of what a file has. A call does nothing when it runs.
ghost use Rattle.tf_store.specs.Histories.{ContentIsOne, HistoriesAreTaken};

/// Bytes have at most one history, at most one least damaged frame, and not both.
pub fn content_is_one()
    ensures { ContentIsOne }
{}

/// Each entry of the history that bytes have was taken after those before it.
#[tactic(auto, using(crate::proofs::Contents::histories_are_taken))]
pub fn histories_are_taken()
    ensures { HistoriesAreTaken }
{}
