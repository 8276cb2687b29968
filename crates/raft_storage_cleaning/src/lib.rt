//! What is asked of a storage whose log can be cleaned.
#![tactic(auto)]

ghost use Rattle.std.specs.Prelude.{ℕ, IfOk, OnOk};
ghost use Rattle.std.specs.List.Sorted.{IsStrictlySortedBy};
ghost use Rattle.std.specs.Ordering.{nat_cmp};
ghost use Rattle.std.specs.Result.{result_err};
ghost use Rattle.raft_group_storage.specs.Keeping.{KeepsAll};

use raft_group_storage::GroupStorage;

/// A storage that lets go of what counts no more in its log (own).
pub trait CleanStorage: GroupStorage {
    /// Cleans the log, where it is time for that. Answers the groups that hold old files of it back,
    /// rising: a snapshot and a purge of each of them let these go. Of each group the storage shows
    /// what it showed, whatever the call answers.
    fn clean_files(&mut self) -> Result<Vec<u64>, Self::Fault>
        ensures rising { IfOk result (λ groups. IsStrictlySortedBy nat_cmp groups.items) }
        ensures well { Self.GroupStorage.is_well self.old → OnOk result (Self.GroupStorage.is_well self.new) }
        ensures kept { KeepsAll (Self.GroupStorage.shows self.old) (Self.GroupStorage.shows self.new) }
        ensures met { Self.GroupStorage.meets self.old self.new (result_err result) };
}
