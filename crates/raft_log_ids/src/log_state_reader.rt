//! Reading the log ids of a state.
ghost use Rattle.std.specs.Prelude.{◌≡◌, ◌↔◌, IsTrue, List, Option, Some, true, false};
ghost use Rattle.std.specs.Option.{option_copied};
ghost use Rattle.raft_values.specs.declared.log_id.LogId.{LogId as Id};
ghost use Rattle.raft_log_ids.specs.LogIdList.{id_at, last_id};
ghost use Rattle.raft_values.specs.LogId.{reaches};
ghost use Rattle.raft_log_ids.specs.LogIdList.{id_before};

use raft_values::log_id::LogId;
use raft_values::node::NodeId;

/// What has the log ids of a node (openraft).
pub trait LogStateReader<NID: NodeId> {
    // The ids of the log, the last purged one with them.
    ghost ids: { Self → List (Id NID) };
    // The last committed log id.
    ghost committed_id: { Self → Option (Id NID) };
    // The last applied log id.
    ghost applied_id: { Self → Option (Id NID) };
    // The last log id of the snapshot that is written.
    ghost written_snapshot_id: { Self → Option (Id NID) };
    // The last log id that is really purged.
    ghost written_purged_id: { Self → Option (Id NID) };
    // The last log id of the snapshot.
    ghost snapshot_id: { Self → Option (Id NID) };
    // The log id up to which is to be purged.
    ghost purge_goal: { Self → Option (Id NID) };
    // The last purged log id.
    ghost purged_id: { Self → Option (Id NID) };

    /// The log id at the index; the last purged one is still there.
    fn get_log_id(&self, index: u64) -> Option<LogId<NID>>
        ensures { result ≡ id_at (ids self.now) index };

    /// The log id before the index; none before 0.
    fn prev_log_id(&self, index: u64) -> Option<LogId<NID>>
        ensures { result ≡ id_before (ids self.now) index }
    {
        if index == 0 {
            return None;
        }
        self.get_log_id(index - 1)
    }

    /// Whether the log has the log id. Whatever isn't past the committed one is taken for granted.
    fn has_log_id(&self, log_id: &LogId<NID>) -> bool
        ensures committed { reaches (committed_id self.now) log_id.now.index ≡ true → result ≡ true }
        ensures others { reaches (committed_id self.now) log_id.now.index ≡ false
            → (IsTrue result ↔ (id_at (ids self.now) log_id.now.index ≡ Some log_id.now)) }
    {
        if let Some(committed) = self.committed() {
            if log_id.index <= committed.index {
                return true;
            }
        }
        match self.get_log_id(log_id.index) {
            Some(local) => local == *log_id,
            None => false,
        }
    }

    /// The last log id.
    fn last_log_id(&self) -> Option<&LogId<NID>>
        ensures { option_copied result ≡ last_id (ids self.now) };

    /// The last committed log id.
    fn committed(&self) -> Option<&LogId<NID>>
        ensures { option_copied result ≡ committed_id self.now };

    /// The last applied log id.
    fn io_applied(&self) -> Option<&LogId<NID>>
        ensures { option_copied result ≡ applied_id self.now };

    /// The last log id of the snapshot that is written.
    fn io_snapshot_last_log_id(&self) -> Option<&LogId<NID>>
        ensures { option_copied result ≡ written_snapshot_id self.now };

    /// The last log id that is really purged.
    fn io_purged(&self) -> Option<&LogId<NID>>
        ensures { option_copied result ≡ written_purged_id self.now };

    /// The last log id of the snapshot.
    fn snapshot_last_log_id(&self) -> Option<&LogId<NID>>
        ensures { option_copied result ≡ snapshot_id self.now };

    /// The log id up to which is to be purged.
    fn purge_upto(&self) -> Option<&LogId<NID>>
        ensures { option_copied result ≡ purge_goal self.now };

    /// The last purged log id.
    fn last_purged_log_id(&self) -> Option<&LogId<NID>>
        ensures { option_copied result ≡ purged_id self.now };
}
