//! Histories, what they leave of each transform, and the laws of checkpoints.
//!
//! The definitions stand in `specs`. Each function here is a law over them: it does nothing, and its contract is the law.
//! A history is legal where each entry is allowed after those before it, and a Page is right where its rows are those of
//! the least changed keys above the position.
#![tactic(auto)]

ghost use Rattle.tf_history.specs.Histories.{EachPrefixIsGrouped, RightAfterIsRight, MovesAreLegal, MovesEnd};
ghost use Rattle.tf_history.specs.Agreement.{MeaningsAgree};
ghost use Rattle.tf_history.specs.ConfiguredLaws.{AlignedKeysAppearOnce, StampedSourcesAreNeverLate};
ghost use Rattle.tf_history.specs.Entries.{EntriesAreGrouped, LivesAreConfigured, LivesAreSteady};
ghost use Rattle.tf_history.specs.LegalEntries.{LegalEntriesAreLegal};
ghost use Rattle.tf_history.specs.Laws.{FinishedIsScratch, RowsAscend, RowsWhenIdle, RowsWhenRunning, FirstIsScratch, BatchIsScratch, PagesAreExact, StampedIsNeverLate, KeptRowIsEarlier, IncludedIsScratch, AlignedIsApart, LastBoundDecides, LateAreFew};

/// With no checkpoint running and no late document, the destination of a continuous transform is the grouping from
/// scratch of all documents written so far below the last bound, without the rows below the cutoff.
#[tactic(auto, using(crate::proofs::CompleteLaw::finished_is_scratch))]
pub fn finished_is_scratch()
    ensures { FinishedIsScratch }
{}

/// The rows of a destination ascend by key, each key once.
#[tactic(auto, using(crate::proofs::CompleteLaw::rows_ascend))]
pub fn rows_ascend()
    ensures { RowsAscend }
{}

/// Whatever is late, with no checkpoint running a key has the row that it got at the last checkpoint in which it changed,
/// unless the cutoff takes it out.
#[tactic(auto, using(crate::proofs::CompleteLaw::rows_when_idle))]
pub fn rows_when_idle()
    ensures { RowsWhenIdle }
{}

/// Whatever is late, in the middle of a checkpoint a changed key at or below the position has its row, and every other key
/// what it had after the Finish before.
pub fn rows_when_running()
    ensures { RowsWhenRunning }
{}

/// After checkpoint 1 the destination is the grouping from scratch of the documents that it read.
#[tactic(auto, using(crate::proofs::ReadsLaw::first_is_scratch))]
pub fn first_is_scratch()
    ensures { FirstIsScratch }
{}

/// The destination of a batch transform is the grouping from scratch of the documents that its checkpoint read.
#[tactic(auto, using(crate::proofs::ReadsLaw::batch_is_scratch))]
pub fn batch_is_scratch()
    ensures { BatchIsScratch }
{}

/// Where late documents are included, the destination is the grouping from scratch of the documents that the last
/// checkpoint read.
pub fn included_is_scratch()
    ensures { IncludedIsScratch }
{}

/// Where nothing was late at the Begin and there is no retention, a row above the position is the row over the documents
/// below the bound before.
pub fn kept_row_is_earlier()
    ensures { KeptRowIsEarlier }
{}

/// A finished checkpoint has as many Pages as its changed keys fill.
#[tactic(auto, using(crate::proofs::PagesLaw::pages_are_exact))]
pub fn pages_are_exact()
    ensures { PagesAreExact }
{}

/// Bounds never fall: a sync value below the bound of some checkpoint is below the last one.
#[tactic(auto, using(crate::proofs::LateLaw::last_bound_decides))]
pub fn last_bound_decides()
    ensures { LastBoundDecides }
{}

/// No more documents are late than the history has entries.
#[tactic(auto, using(crate::proofs::LateLaw::late_are_few))]
pub fn late_are_few()
    ensures { LateAreFew }
{}

/// Where each document has the moment of its entry as sync value, no document is late.
#[tactic(auto, using(crate::proofs::StampsLaw::stamped_is_never_late))]
pub fn stamped_is_never_late()
    ensures { StampedIsNeverLate }
{}

/// Where bounds are aligned to intervals that the keys show, no key is changed in two checkpoints of a life.
#[tactic(auto, using(crate::proofs::AlignedLaw::aligned_is_apart))]
pub fn aligned_is_apart()
    ensures { AlignedIsApart }
{}

/// In each prefix of a legal history with right Pages, the rows of finished transforms are their groupings.
#[tactic(auto, using(crate::proofs::HistoriesLaw::each_prefix_is_grouped))]
pub fn each_prefix_is_grouped()
    ensures { EachPrefixIsGrouped }
{}

/// A history whose Pages are right up to a place and after it has right Pages.
#[tactic(auto, using(crate::proofs::HistoriesLaw::right_after_is_right))]
pub fn right_after_is_right()
    ensures { RightAfterIsRight }
{}

/// What the indexer would make next is legal, and its Page is right.
pub fn moves_are_legal()
    ensures { MovesAreLegal }
{}

/// At one moment each move of a transform leaves fewer moves, so a settling ends.
#[tactic(auto, using(crate::proofs::EndsLaw::moves_end))]
pub fn moves_end()
    ensures { MovesEnd }
{}

/// The words of a meaning that is made from a configuration are those of the configuration itself: what counts, keys,
/// rows, retention, the grouping from scratch, bounds, cutoffs, windows, changed keys and what is due.
#[tactic(auto, using(crate::proofs::MeaningLaw::meanings_agree))]
pub fn meanings_agree()
    ensures { MeaningsAgree }
{}

/// A transform has a life exactly where it was put and not deleted, and the life has the meaning of its configuration.
#[tactic(auto, using(crate::proofs::EntriesLaw::lives_are_configured))]
pub fn lives_are_configured()
    ensures { LivesAreConfigured }
{}

/// The rows of a configured transform keep their retention values among more documents.
#[tactic(auto, using(crate::proofs::EntriesLaw::lives_are_steady))]
pub fn lives_are_steady()
    ensures { LivesAreSteady }
{}

/// Legal entries are legal events, so every law of checkpoints holds of them.
#[tactic(auto, using(crate::proofs::EntriesLaw::legal_entries_are_legal))]
pub fn legal_entries_are_legal()
    ensures { LegalEntriesAreLegal }
{}

/// Wherever a legal history of entries with right Pages has a finished transform, its rows are the grouping from scratch
/// by its configuration: of all documents where it is continuous and nothing is late, of those read where it is batch.
pub fn entries_are_grouped()
    ensures { EntriesAreGrouped }
{}

/// Where every source of a transform sets the sync field to the moment of the write, no document is late.
#[tactic(auto, using(crate::proofs::StampedLaw::stamped_sources_are_never_late))]
pub fn stamped_sources_are_never_late()
    ensures { StampedSourcesAreNeverLate }
{}

/// Where bounds are aligned to a date_histogram over the sync field, and dates are in range, no key is changed in two
/// checkpoints of a life.
#[tactic(auto, using(crate::proofs::OnceLaw::aligned_keys_appear_once))]
pub fn aligned_keys_appear_once()
    ensures { AlignedKeysAppearOnce }
{}
