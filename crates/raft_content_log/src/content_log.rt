//! What is asked of a log.
ghost use Rattle.std.specs.Prelude.{◌≡◌, ◌<◌, ℕ, List, OnOk, OnErr, IfErr, IfOk, Option, None, false, option_map};
ghost use Rattle.std.specs.List.Sorted.{IsStrictlySortedBy};
ghost use Rattle.std.specs.Ordering.{eq_by_cmp, nat_cmp};
ghost use Rattle.std.specs.Result.{result_err};
ghost use Rattle.std.specs.Set.{is_member};
ghost use Rattle.raft_content_log.specs.Leaving.{AgreesElsewhere, AreEntries, AreThere, AreUnmarked, IsWritten};
ghost use Rattle.raft_content_log.specs.Leaving.{LeavesElsewhere, LeavesNoMore, MayBeWritten};
ghost use Rattle.raft_log_memtables.specs.Content.{Content, after_batch, no_group};
ghost use Rattle.raft_log_memtables.specs.Taken.{TakesEach};
ghost use Rattle.raft_log_records.specs.Batch.{nothing_logged, payloads};

use raft_log_records::LogBatch;
use std::alloc::AllocError;

/// A log of batches (own). It is seen as the content that its calls answer, and as those that a
/// crash may leave. Once a call has failed, the next ones are promised nothing but to leave alone
/// the groups that they don't name.
pub trait ContentLog: Drop {
    /// Why a call fails. Want of memory is one of the reasons.
    type Fault: From<AllocError> + Drop;

    /// No call has failed since the log was opened.
    ghost is_sound: { Self → Type 0 };

    /// What its calls answer.
    ghost answers: { Self → Content (List ℕ) };

    /// A crash may leave what reads as this content.
    ghost leaves: { Self → Content (List ℕ) → Type 0 };

    /// Calls led from one to the other: none of them met a fault, or the last one met this one. By this
    /// a log tells why it fails.
    ghost meets: { Self → Self → Option Self.Fault → Type 0 };

    /// The fault tells of a misuse: the batch isn't taken, or an entry that is asked for isn't there.
    ghost is_misuse: { Self.Fault → Type 0 };

    /// Writes a batch, whole or not at all, and syncs it (own). It may be refused where its entries
    /// don't begin inside their group's list or at its end; nothing is promised of such a batch but
    /// that it leaves other groups alone. After an `Ok` the batch is empty.
    fn write(&mut self, batch: &mut LogBatch) -> Result<(), Self::Fault>
        ensures ok { is_sound self.old → TakesEach batch.old.items (answers self.old)
            → OnOk result (IsWritten (answers self.new) (leaves self.new) (after_batch batch.old.items (answers self.old))) }
        ensures err { is_sound self.old → TakesEach batch.old.items (answers self.old)
            → OnErr result (MayBeWritten (is_sound self.new) (answers self.new) (leaves self.new) (answers self.old) (after_batch batch.old.items (answers self.old))) }
        ensures sound { is_sound self.old → OnOk result (is_sound self.new) }
        ensures emptied { OnOk result (batch.new ≡ nothing_logged) }
        // The two others hold of each call, whatever it answers and whether one had failed before.
        ensures others { LeavesElsewhere batch.old.items (leaves self.old) (leaves self.new) }
        ensures others_answered { is_sound self.new → is_sound self.old × AgreesElsewhere batch.old.items (answers self.new) (answers self.old) }
        ensures met { meets self.old self.new (result_err result) }
        ensures fits { is_sound self.old → AreUnmarked batch.old.items → TakesEach batch.old.items (answers self.old) → IfErr result (λ fault. is_misuse fault → ⊥) };

    /// The value of a key of a group, if it is there (own).
    fn get(&mut self, group: u64, key: &[u8]) -> Result<Option<Vec<u8>>, Self::Fault>
        ensures value { is_sound self.old → IfOk result (λ found. option_map (λ v. v.items) found ≡ (answers self.old group).value key.now) }
        ensures sound { is_sound self.old → OnOk result (is_sound self.new) }
        ensures kept { is_sound self.new → is_sound self.old × (answers self.new ≡ answers self.old) }
        ensures left { LeavesNoMore (leaves self.old) (leaves self.new) }
        ensures met { meets self.old self.new (result_err result) }
        ensures fits { IfErr result (λ fault. is_misuse fault → ⊥) };

    /// A group's entries from an index on up to another one, which is left out (own). It fails where
    /// one of them isn't there.
    fn fetch_entries_to(
        &mut self,
        group: u64,
        begin: u64,
        end: u64,
    ) -> Result<Vec<Vec<u8>>, Self::Fault>
        ensures entries { is_sound self.old → IfOk result (λ found. AreEntries (answers self.old group).entry begin end (payloads found.items)) }
        ensures sound { is_sound self.old → OnOk result (is_sound self.new) }
        ensures kept { is_sound self.new → is_sound self.old × (answers self.new ≡ answers self.old) }
        ensures left { LeavesNoMore (leaves self.old) (leaves self.new) }
        ensures met { meets self.old self.new (result_err result) }
        ensures fits { is_sound self.old → begin < end → AreThere (answers self.old group).entry begin end → IfErr result (λ fault. is_misuse fault → ⊥) };

    /// The ids of the groups that the log has something of, rising (own).
    fn groups(&mut self) -> Result<Vec<u64>, Self::Fault>
        ensures rising { IfOk result (λ ids. IsStrictlySortedBy nat_cmp ids.items) }
        ensures there { is_sound self.old → IfOk result (λ ids. (group : ℕ) → (answers self.old group).there ≡ is_member (eq_by_cmp nat_cmp) ids.items group) }
        ensures none { is_sound self.old → OnOk result ((group : ℕ) → (answers self.old group).there ≡ false → answers self.old group ≡ no_group) }
        ensures sound { is_sound self.old → OnOk result (is_sound self.new) }
        ensures kept { is_sound self.new → is_sound self.old × (answers self.new ≡ answers self.old) }
        ensures left { LeavesNoMore (leaves self.old) (leaves self.new) }
        ensures met { meets self.old self.new (result_err result) }
        ensures fits { IfErr result (λ fault. is_misuse fault → ⊥) };

    /// Whether the log has something of a group (own).
    fn is_there(&mut self, group: u64) -> Result<bool, Self::Fault>
        ensures there { is_sound self.old → IfOk result (λ there. there ≡ (answers self.old group).there) }
        ensures sound { is_sound self.old → OnOk result (is_sound self.new) }
        ensures kept { is_sound self.new → is_sound self.old × (answers self.new ≡ answers self.old) }
        ensures left { LeavesNoMore (leaves self.old) (leaves self.new) }
        ensures met { meets self.old self.new (result_err result) }
        ensures fits { IfErr result (λ fault. is_misuse fault → ⊥) };

    /// No call meets no fault.
    ghost meets_none: { (x : Self) → meets x x None };

    /// Calls that met none are followed by others.
    ghost meets_later: { (x y z : Self) (met : Option Self.Fault) → meets x y None → meets y z met → meets x z met };
}
