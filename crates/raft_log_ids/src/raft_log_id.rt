//! What has a log id.
ghost use Rattle.std.specs.Prelude.{◌≡◌, refl};
ghost use Rattle.raft_values.specs.declared.log_id.LogId.{LogId as Id};

use raft_values::log_id::LogId;
use raft_values::node::NodeId;

/// What has a log id (openraft).
pub trait RaftLogId<NID: NodeId> {
    // Its log id.
    ghost id: { Self → Id NID };
    // The same thing with another log id.
    ghost with_id: { Self → Id NID → Self };

    /// Its log id.
    fn get_log_id(&self) -> &LogId<NID>
        ensures { result.now ≡ id self.now };

    /// Gives it another log id.
    fn set_log_id(&mut self, log_id: &LogId<NID>)
        ensures { self.new ≡ with_id self.old log_id.now };

    // It has the log id that it was given.
    ghost given_id: { (x : Self) (i : Id NID) → id (with_id x i) ≡ i };
}

impl<NID: NodeId> RaftLogId<NID> for LogId<NID> {
    ghost id = { λ x. x };

    ghost with_id = { λ x i. i };

    fn get_log_id(&self) -> &LogId<NID> {
        self
    }

    fn set_log_id(&mut self, log_id: &LogId<NID>) {
        *self = *log_id;
    }

    ghost given_id = { λ x i. refl };
}
