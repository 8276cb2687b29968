//! What an event told.
ghost use Rattle.std.specs.Prelude.{◌≡◌, ◌==◌};
ghost use Rattle.std.specs.List.{find};
ghost use Rattle.std.specs.Option.{option_copied};
ghost use Rattle.raft_cluster.specs.Told.{told_by, told_of};

use raft_cluster_events::{EventOutcome, GroupOutcome};
use raft_machines::Told;

// What an event did in a group, if it did something there.
fn outcome_in(outcomes: &[GroupOutcome], group: u64) -> Option<&GroupOutcome>
    ensures { option_copied result ≡ find (λ outcome. outcome.group == group) outcomes.now }
{
    outcomes.iter().find(|outcome| outcome.group == group)
}

// What was told for a group, of what an event did in groups.
fn told_by(outcomes: &[GroupOutcome], group: u64) -> &[Told]
    ensures { result.now ≡ told_by group outcomes.now }
{
    match outcome_in(outcomes, group) {
        Some(outcome) => outcome.told.as_slice(),
        None => &[],
    }
}

/// What an event told for a group. Nothing, unless it was done.
pub fn told_of(outcome: &EventOutcome, group: u64) -> &[Told]
    ensures { result.now ≡ told_of group outcome.now }
{
    match outcome {
        EventOutcome::Done(outcomes) => told_by(outcomes.as_slice(), group),
        _ => &[],
    }
}
