//! Why a node stops where no call of a group did it.
ghost use Rattle.std.specs.Prelude.{◌≡◌};
ghost use Rattle.raft_node_logs.specs.Stopping.{quiet_stop};

use raft_cluster_events::{Sequence, Stop, StopCause};
use std::alloc::Global;

/// A stop where no token waited.
pub fn quiet_stop(alloc: Global, cause: StopCause) -> Stop
    ensures { result ≡ quiet_stop cause }
{
    Stop {
        cause,
        unsaid: None,
        unknown: Sequence::new(alloc),
    }
}
