//! Those that wait to be told.
ghost use Rattle.std.specs.Prelude.{◌≡◌, ◌-◌, ◌≤◌, ℕ, IfOk, count_by, length, map};
ghost use Rattle.raft_values.specs.LogId.{reaches};
ghost use Rattle.raft_machines.specs.Telling.{untold_of};
ghost use Rattle.raft_step_laws.specs.Tokens.{RiseFrom};
ghost use Rattle.raft_applier.specs.Running.{is_same_lead};

use raft_machines::Untold;
use raft_state::{LogId, Vote};
use raft_values::log_id_option_ext::reaches;
use std::alloc::{AllocError, Global};

// Whether a node that led under the first vote leads on, under the same one.
pub(crate) fn leads_on(before: Option<Vote<u64>>, now: Option<Vote<u64>>) -> bool
    ensures { result ≡ is_same_lead before now }
{
    match (before, now) {
        (Some(before), Some(now)) => before == now,
        _ => false,
    }
}

// How many wait for places up to that of the log id, where places rise: found by halving.
pub(crate) fn due_count(waiting: &[Untold], upto: &Option<LogId<u64>>) -> usize
    ensures due { (place : ℕ) → RiseFrom place (untold_of waiting.now) → result ≡ count_by (λ x. reaches upto.now x.place) waiting.now }
    ensures within { result ≤ length waiting.now }
{
    waiting.partition_point(|x| reaches(upto, x.place))
}

// One less, if there is one.
pub(crate) fn without_one(count: usize) -> usize
    ensures { result ≡ count - 1 }
{
    count.saturating_sub(1)
}

// The tokens of those that wait.
pub(crate) fn tokens_of(alloc: Global, waiting: &[Untold]) -> Result<Vec<u64>, AllocError>
    ensures { IfOk result (λ tokens. tokens.items ≡ map (λ x. x.token) waiting.now) }
{
    waiting.iter().map(|x| x.token).collect(alloc)
}
