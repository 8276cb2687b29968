//! Why a membership isn't changed, told without making what the change asks for.
ghost use Rattle.std.specs.Prelude.{◌≡◌, ◌+◌, ◌&&◌, ◌||◌, ◌==◌, ◌∷◌, [], count_by, length, nat_eq, not, option_map};
ghost use Rattle.std.specs.Ordering.{nat_cmp};
ghost use Rattle.std.specs.List.{list_all};
ghost use Rattle.std.specs.Cmp.Lexicographic.{pointwise};
ghost use Rattle.raft_quorums.specs.Nodes.{has_id, with_ids};
ghost use Rattle.raft_quorums.specs.Quorum.{last_config, next_configs};
ghost use Rattle.raft_group_step.specs.Limits.{are_few_voters};
ghost use Rattle.raft_group_step.specs.Refusal.{change_reasons, first_of_reasons, unless};
ghost use Rattle.raft_group_step.specs.StepResult.{MembershipRefused, VoterChange};
ghost use Rattle.raft_group_step.specs.Values.{after_change};
ghost use Rattle.raft_conditions.specs.Fitting.{goal_of, ids_of, is_fit_group, is_last_fit, is_there, reason_of_step};
ghost use Rattle.raft_conditions.specs.Reason.{reason_of};

use crate::fitting::{
    But, Either, Those, are_fit_groups, are_fit_nodes, are_fit_now, are_fit_with, are_fit_with_new,
    are_fit_without, is_fit_group, is_last_fit, last_group,
};
use crate::goal::{Goal, Newcomers};
use crate::refusal::Refusal;
use raft_messages::are_few_voters;
use raft_state::{BasicNode, ChangeMembers, HasId, IdSet, Membership};

// The reason where groups and nodes fit or not, and the voter groups stay or not.
fn step_reason(groups_fit: bool, nodes_fit: bool, stays: bool) -> Option<Refusal<u64>>
    ensures { option_map reason_of result ≡ first_of_reasons (unless (groups_fit && nodes_fit) MembershipRefused ∷ unless stays VoterChange ∷ []) }
{
    if !groups_fit || !nodes_fit {
        return Some(Refusal::MembershipRefused);
    }
    if !stays {
        return Some(Refusal::VoterChange);
    }
    None
}

// Whether the goal is a voter group already.
fn has_group(groups: &[IdSet<u64>], goal: &Goal) -> bool
    ensures { result ≡ is_there (goal_of goal.now) groups.now }
{
    groups.iter().any(|group| goal.is_group(group.as_slice()))
}

// Whether the goal is the only voter group already.
fn is_only_group(groups: &[IdSet<u64>], goal: &Goal) -> bool
    ensures { result ≡ ((length groups.now == 1) && is_there (goal_of goal.now) groups.now) }
{
    groups.len() == 1 && has_group(groups, goal)
}

// Whether the goal can be a voter group where the nodes are these.
fn is_fit<S: HasId<u64>>(goal: &Goal, nodes: &S) -> bool
    ensures { result ≡ is_fit_group (S.has nodes.now) (goal_of goal.now) }
{
    goal.len() != 0 && are_few_voters(goal.len()) && goal.are_known(nodes)
}

// Whether the goal, and the last voter group where the goal is none yet, are fit.
fn is_step_fit<S: HasId<u64>>(groups: &[IdSet<u64>], goal: &Goal, nodes: &S) -> bool
    ensures { result ≡ (is_fit_group (S.has nodes.now) (goal_of goal.now) && (is_there (goal_of goal.now) groups.now || is_last_fit (S.has nodes.now) groups.now)) }
{
    is_fit(goal, nodes) && (has_group(groups, goal) || is_last_fit(groups, nodes))
}

// Whether there is room in the group for those who are new there.
fn has_room(group: &[u64], newcomers: &Newcomers) -> bool
    ensures { result ≡ are_few_voters (length group.now + count_by (λ id. not (has_id nat_eq group.now id)) (ids_of newcomers.now)) }
{
    are_few_voters(group.len().saturating_add(newcomers.count_new(group)))
}

// Whether the group with the newcomers can be a voter group where the nodes are these.
fn is_wider_fit<S: HasId<u64>>(group: &[u64], newcomers: &Newcomers, nodes: &S) -> bool
    ensures { result ≡ (is_fit_group (S.has nodes.now) group.now && list_all (S.has nodes.now) (ids_of newcomers.now)
        && are_few_voters (length group.now + count_by (λ id. not (has_id nat_eq group.now id)) (ids_of newcomers.now))) }
{
    is_fit_group(group, nodes) && newcomers.are_in(nodes) && has_room(group, newcomers)
}

// Whether the group is the only one, and has the newcomers already.
fn are_there(groups: &[IdSet<u64>], group: &[u64], newcomers: &Newcomers) -> bool
    ensures { result ≡ ((length groups.now == 1) && list_all (has_id nat_eq group.now) (ids_of newcomers.now)) }
{
    groups.len() == 1 && newcomers.are_in(&group)
}

// Why nodes don't change where the voter groups stay: these nodes are known, and fit or not.
fn nodes_refusal<S: HasId<u64>>(
    old: &Membership<u64, BasicNode>,
    nodes: &S,
    fit: bool,
) -> Option<Refusal<u64>>
    ensures { option_map reason_of result ≡ reason_of_step (S.has nodes.now) old.now.configs old.now.configs fit }
{
    step_reason(are_fit_groups(old.get_joint_config(), nodes), fit, true)
}

// Why the voter groups don't come to the goal.
fn step_refusal<S: HasId<u64>>(
    groups: &[IdSet<u64>],
    goal: &Goal,
    nodes: &S,
    fit: bool,
) -> Option<Refusal<u64>>
    ensures { option_map reason_of result ≡ reason_of_step (S.has nodes.now) groups.now (next_configs (pointwise nat_eq) groups.now (goal_of goal.now)) fit }
{
    step_reason(
        is_step_fit(groups, goal, nodes),
        fit,
        is_only_group(groups, goal),
    )
}

// Why the voter groups don't come to the last one with newcomers.
fn adding_refusal<S: HasId<u64>>(
    groups: &[IdSet<u64>],
    newcomers: &Newcomers,
    nodes: &S,
    fit: bool,
) -> Option<Refusal<u64>>
    ensures { option_map reason_of result ≡ reason_of_step (S.has nodes.now) groups.now
        (next_configs (pointwise nat_eq) groups.now (with_ids nat_cmp (last_config groups.now) (ids_of newcomers.now))) fit }
{
    newcomers.show_rising();
    let last = last_group(groups);
    if last.is_empty() {
        return step_refusal(groups, &Goal::Just(*newcomers), nodes, fit);
    }
    step_reason(
        is_wider_fit(last, newcomers, nodes),
        fit,
        are_there(groups, last, newcomers),
    )
}

/// Why the membership isn't changed so, if it isn't: the new one isn't valid or past a limit, or has
/// other voter groups. Takes no memory.
pub(crate) fn change_refusal(
    old: &Membership<u64, BasicNode>,
    change: &ChangeMembers<u64, BasicNode>,
) -> Option<Refusal<u64>>
    ensures { option_map reason_of result ≡ first_of_reasons (change_reasons old.now (after_change old.now change.now)) }
{
    let groups = old.get_joint_config();
    match change {
        ChangeMembers::AddVoterIds(ids) => {
            adding_refusal(
                groups,
                &Newcomers::Ids(ids),
                &Those { old },
                are_fit_now(old),
            )
        }
        ChangeMembers::AddVoters(more) => {
            let fit = are_fit_with_new(old, more);
            adding_refusal(groups, &Newcomers::Nodes(more), &Either { old, more }, fit)
        }
        ChangeMembers::RemoveVoters(ids) => {
            let goal = Goal::Stayers(last_group(groups), ids);
            step_refusal(groups, &goal, &Those { old }, are_fit_now(old))
        }
        ChangeMembers::ReplaceAllVoters(ids) => {
            let goal = Goal::Just(Newcomers::Ids(ids));
            step_refusal(groups, &goal, &Those { old }, are_fit_now(old))
        }
        ChangeMembers::AddNodes(more) => {
            nodes_refusal(old, &Either { old, more }, are_fit_with_new(old, more))
        }
        ChangeMembers::SetNodes(more) => {
            nodes_refusal(old, &Either { old, more }, are_fit_with(old, more))
        }
        ChangeMembers::RemoveNodes(ids) => {
            nodes_refusal(old, &But { old, ids }, are_fit_without(old, ids))
        }
        ChangeMembers::ReplaceAllNodes(others) => {
            nodes_refusal(old, others, are_fit_nodes(others.as_slice()))
        }
    }
}
