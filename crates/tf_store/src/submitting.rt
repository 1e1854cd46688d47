// Submitting a command.
ghost use Rattle.std.specs.Prelude.{◌≡◌, ◌≤◌, ◌+◌, ◌++◌, [], ℕ, ℤ, IfOk, OnErr, OnOk, is_some, length, reverse, take, true};
ghost use Rattle.std.specs.List.{AllByRecursion};
ghost use Rattle.tf_journal.specs.Crashes.{LeavesOnly};
ghost use Rattle.tf_event.specs.Entries.{FitsEntry};
ghost use Rattle.tf_event.specs.declared.grammar.Grammar.TheVariants.{First};
ghost use Rattle.tf_core.specs.Legal.{AreTakenAfter};
ghost use Rattle.tf_decide.specs.Replying.{IsAccepted, replied, replied_after, told_alone};
ghost use Rattle.tf_store.specs.Answers.{OnNoCall, SubmitAnswers, added_size, broken_after, counted, failed_after, history_after};
ghost use Rattle.tf_store.specs.Commands.{entries_of};
ghost use Rattle.tf_store.specs.Crashes.{IsBeforeOrAfter};
ghost use Rattle.tf_store.specs.Standing.{StandsFor};

use crate::error::StoreError;
use crate::state::Store;
use tf_command::Command;
use tf_decide::{decide, reply};
use tf_disk::Disk;
use tf_model::{Entry, List, OutOfMemory};
use tf_reply::Reply;

impl<D: Disk> Store<D> {
    ghost use Rattle.tf_store.specs.Words.{history_of, failed_of, found_of, opened_with, journal_of, disk_of, file_len, broken_at, opened_at};

    /// Does a command after the history, by an actor, where a moment is given, in milliseconds since 1970. Its entries are
    /// committed as one frame where there are any, and the reply to it is given. All memory, that of the reply included, is
    /// taken before the first call of the disk.
    ///
    /// Where there are entries, the refusals are those of `commit`; but `Memory` may also come where the store is broken. Where
    /// there are none, `Memory` is the only one.
    pub fn submit(&mut self, command: &Command, actor: u8, now: i64) -> Result<Reply, StoreError>
        requires actor { actor ≤ 15 }
        ensures reply { IfOk result (λ reply. reply ≡ replied (reverse (history_of self.old)) actor now command.now) }
        ensures answer { let entries = entries_of (history_of self.old) actor now command.now in let number = length (history_of self.old ++ entries) in
            SubmitAnswers entries (broken_at self.old) (file_len self.old) number (D.meaning.faults (disk_of self.old)) (D.meaning.faults (disk_of self.new)) (counted number result) }
        ensures history { let entries = entries_of (history_of self.old) actor now command.now in let number = length (history_of self.old ++ entries) in
            history_of self.new ≡ history_after (history_of self.old) entries (counted number result) }
        ensures broken { let entries = entries_of (history_of self.old) actor now command.now in let number = length (history_of self.old ++ entries) in
            broken_at self.new ≡ broken_after (broken_at self.old) (counted number result) }
        ensures failed { let entries = entries_of (history_of self.old) actor now command.now in let number = length (history_of self.old ++ entries) in
            failed_of self.new ≡ failed_after (failed_of self.old) entries (counted number result) }
        ensures no_call { let entries = entries_of (history_of self.old) actor now command.now in let number = length (history_of self.old ++ entries) in
            OnNoCall (counted number result) (journal_of self.new ≡ journal_of self.old) }
        ensures no_entry { entries_of (history_of self.old) actor now command.now ≡ [] → journal_of self.new ≡ journal_of self.old }

        // The history of the file is the one from before it, followed by the entries.
        ensures stands { let entries = entries_of (history_of self.old) actor now command.now in
            StandsFor D.meaning (history_of self.old) (file_len self.old) (disk_of self.old)
            → OnOk result (StandsFor D.meaning (history_of self.old ++ entries) (file_len self.new) (disk_of self.new)) }

        // A crash at any moment of the call leaves the history from before it, with the entries or without them.
        ensures any_moment { let entries = entries_of (history_of self.old) actor now command.now in
            StandsFor D.meaning (history_of self.old) (file_len self.old) (disk_of self.old)
            → LeavesOnly D.meaning (disk_of self.old) (disk_of self.new) (IsBeforeOrAfter (history_of self.old) entries) }

        ensures len { OnOk result (file_len self.new ≡ file_len self.old + added_size (entries_of (history_of self.old) actor now command.now)) }
        ensures same_len { OnErr result (file_len self.new ≡ file_len self.old) }
        ensures found { found_of self.new ≡ found_of self.old }
        ensures opened { (opened_at self.new ≡ opened_at self.old) × (opened_with self.new ≡ opened_with self.old) }
        ensures later { D.meaning.faults (disk_of self.old) ≤ D.meaning.faults (disk_of self.new) }
        ensures tells { is_some (D.meaning.seen (disk_of self.new)) ≡ is_some (D.meaning.seen (disk_of self.old)) }
    {
        let decision = decide(self.alloc, &self.core, command, actor, now)?;
        self.commit_any(decision.entries)?;
        Ok(decision.reply)
    }

    /// The reply to a command when the moves behind it are made. The history had `from` entries before the command, and it was
    /// not refused after those; it writes no documents and asks for no rows above a key.
    pub fn reply(&self, command: &Command, from: u64) -> Result<Reply, OutOfMemory>
        requires from { from ≤ length (history_of self.now) }
        requires alone { is_some (told_alone command.now.op) ≡ true }
        requires accepted { IsAccepted (reverse (take from (history_of self.now))) command.now.op }
        ensures { IfOk result (λ reply. (actor : ℕ) (given : ℤ) → reply ≡ replied_after (reverse (take from (history_of self.now))) (reverse (history_of self.now)) actor given command.now) }
    {
        reply(self.alloc, &self.core, command, from)
    }

    // Makes the history longer by entries where there are any.
    #[tactic(auto, using(crate::proofs::Refusing::commit_refused))]
    fn commit_any(&mut self, entries: List<Entry>) -> Result<(), StoreError>
        requires taken { AreTakenAfter (history_of self.old) entries }
        requires spelled { AllByRecursion (FitsEntry First) entries }
        ensures answer { let number = length (history_of self.old ++ entries) in
            SubmitAnswers entries (broken_at self.old) (file_len self.old) number (D.meaning.faults (disk_of self.old)) (D.meaning.faults (disk_of self.new)) (counted number result) }
        ensures history { history_of self.new ≡ history_after (history_of self.old) entries (counted (length (history_of self.old ++ entries)) result) }
        ensures broken { broken_at self.new ≡ broken_after (broken_at self.old) (counted (length (history_of self.old ++ entries)) result) }
        ensures failed { failed_of self.new ≡ failed_after (failed_of self.old) entries (counted (length (history_of self.old ++ entries)) result) }
        ensures no_call { OnNoCall (counted (length (history_of self.old ++ entries)) result) (journal_of self.new ≡ journal_of self.old) }
        ensures no_entry { entries ≡ [] → journal_of self.new ≡ journal_of self.old }
        ensures stands { StandsFor D.meaning (history_of self.old) (file_len self.old) (disk_of self.old)
            → OnOk result (StandsFor D.meaning (history_of self.old ++ entries) (file_len self.new) (disk_of self.new)) }
        ensures any_moment { StandsFor D.meaning (history_of self.old) (file_len self.old) (disk_of self.old)
            → LeavesOnly D.meaning (disk_of self.old) (disk_of self.new) (IsBeforeOrAfter (history_of self.old) entries) }
        ensures len { OnOk result (file_len self.new ≡ file_len self.old + added_size entries) }
        ensures same_len { OnErr result (file_len self.new ≡ file_len self.old) }
        ensures found { found_of self.new ≡ found_of self.old }
        ensures opened { (opened_at self.new ≡ opened_at self.old) × (opened_with self.new ≡ opened_with self.old) }
        ensures later { D.meaning.faults (disk_of self.old) ≤ D.meaning.faults (disk_of self.new) }
        ensures tells { is_some (D.meaning.seen (disk_of self.new)) ≡ is_some (D.meaning.seen (disk_of self.old)) }
    {
        if entries.is_empty() {
            return Ok(());
        }
        match self.commit(entries) {
            Ok(_) => Ok(()),
            Err(error) => Err(error),
        }
    }
}
