// Which works fit.
ghost use Rattle.tf_indexer.specs.Works.{PagesFit};

/// The next page of a running checkpoint is the work that its transform wants next: each row is over all documents that count,
/// a Finish comes where no changed key is above the position, and a Fail for the first sum outside `i64`.
#[tactic(auto, using(crate::proofs::PageLaws::pages_fit))]
pub fn pages_fit()
    ensures { PagesFit }
{}
