//! What is asked of a storage whose files can be made to refuse calls.
#![tactic(auto)]

ghost use Rattle.std.specs.Prelude.{ℕ, Option};
ghost use Rattle.raft_group_storage.specs.Keeping.{KeepsAll};

use raft_group_storage::GroupStorage;

/// A storage whose files can be made to refuse calls, for simulations (own).
pub trait FuseStorage: GroupStorage {
    /// What the storage is behind a fuse: its files refuse each changing call from that one on.
    ghost fused: { Self → Option ℕ → Self → Type 0 };

    /// Its files refuse each changing call from this one on, the first one counted as 1; with none
    /// they refuse no call any more. Nothing else changes.
    fn fuse(&mut self, first_refused: Option<u64>)
        ensures fused { fused self.old first_refused self.new }
        ensures well { Self.GroupStorage.is_well self.old → Self.GroupStorage.is_well self.new }
        ensures kept { KeepsAll (Self.GroupStorage.shows self.old) (Self.GroupStorage.shows self.new) };
}
