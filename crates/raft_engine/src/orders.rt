//! Votes and last log ids in their order.
ghost use Rattle.std.specs.Prelude.{◌≡◌};
ghost use Rattle.raft_group_step.specs.Values.{last_id_lt, vote_lt};

use raft_state::{LogId, Vote};
use raft_values::log_id::log_ids_by_leader_and_index;
use raft_values::vote::votes_by_term_node_committed;

// Whether the first vote is below the second.
pub(crate) fn is_lower(vote: &Vote<u64>, other: &Vote<u64>) -> bool
    ensures { result ≡ vote_lt vote.now other.now }
{
    votes_by_term_node_committed(vote, other).is_lt()
}

// Whether a log with the first last log id is behind one with the second; one without entries is
// behind all others.
pub(crate) fn is_behind(last: &Option<LogId<u64>>, other: &Option<LogId<u64>>) -> bool
    ensures { result ≡ last_id_lt last.now other.now }
{
    match (last, other) {
        (_, None) => false,
        (None, Some(_)) => true,
        (Some(a), Some(b)) => log_ids_by_leader_and_index(a, b).is_lt(),
    }
}
