// The laws of late documents and of aligned keys, over histories as indices really read their documents; and of jobs.
ghost use Rattle.tf_core.specs.Job.{RunningCheckpointsGoOn};
ghost use Rattle.tf_core.specs.Laws.{TakenEntriesAreLegal, StampedDocumentsAreNeverLate, AlignedKeysAreApart};

/// Entries that were taken one after the other are legal, so the laws of legal entries hold of every core's history.
#[tactic(auto, using(crate::proofs::Taken::taken_is_legal))]
pub fn taken_entries_are_legal()
    ensures { TakenEntriesAreLegal }
{}

/// Where every source of a transform has its sync field as stamp, no document is late.
#[tactic(auto, using(crate::proofs::HistoryLaws::stamped_documents_are_never_late))]
pub fn stamped_documents_are_never_late()
    ensures { StampedDocumentsAreNeverLate }
{}

/// Where bounds are aligned to a date_histogram over the sync field, no key is changed in two checkpoints of a life: each
/// is written by the Pages of one checkpoint alone.
#[tactic(auto, using(crate::proofs::HistoryLaws::aligned_keys_are_apart))]
pub fn aligned_keys_are_apart()
    ensures { AlignedKeysAreApart }
{}

/// Behind a Page of the running checkpoint the next job is the one before it, with the Page's last key as its position: a
/// worker that has a job goes on with it, and asks for no other while it makes Pages.
#[tactic(auto, using(crate::proofs::JobLaws::running_checkpoints_go_on))]
pub fn running_checkpoints_go_on()
    ensures { RunningCheckpointsGoOn }
{}
