//! Changes of memberships, quorums, and what nodes are made of.

use crate::engines::text;
use raft_row_values::{ids, membership, nodes};
use raft_rows::Answer;
use raft_state::{
    AsJoint, BasicNode, ChangeMembers, EffectiveMembership, FindCoherent, IdSet, IntoNodes, Joint,
    Membership, QuorumSet, StoredMembership,
};
use std::alloc::{AllocError, Global};

type Change = ChangeMembers<u64, BasicNode>;

type Members = Membership<u64, BasicNode>;

// ---- changes

// A change of voters alone, or of nodes by their ids.
fn change_by_ids(call: &str, ids: IdSet<u64>) -> Change {
    match call {
        "add_voter_ids" => ChangeMembers::AddVoterIds(ids),
        "remove_voters" => ChangeMembers::RemoveVoters(ids),
        "replace_all_voters" => ChangeMembers::ReplaceAllVoters(ids),
        "remove_nodes" => ChangeMembers::RemoveNodes(ids),
        _ => ChangeMembers::from(ids),
    }
}

fn change(alloc: Global, call: &str, word: &str) -> Result<Change, AllocError> {
    Ok(match call {
        "add_voters" => ChangeMembers::AddVoters(nodes(alloc, word)?),
        "add_nodes" => ChangeMembers::AddNodes(nodes(alloc, word)?),
        "set_nodes" => ChangeMembers::SetNodes(nodes(alloc, word)?),
        "replace_all_nodes" => ChangeMembers::ReplaceAllNodes(nodes(alloc, word)?),
        _ => change_by_ids(call, ids(alloc, word)?),
    })
}

// Only a membership that has a voter group may be changed.
fn changed(alloc: Global, before: &Members, change: Change, retain: bool) -> Answer {
    if before.get_joint_config().len() == 0 {
        return Answer::Word("no voter group");
    }
    match before.change(change, retain) {
        Ok(next) => Answer::told(alloc, &next),
        Err(why) => Answer::told(alloc, &why),
    }
}

// The next step on the way to these voters.
fn stepped(alloc: Global, before: &Members, goal: IdSet<u64>) -> Answer {
    if before.get_joint_config().len() == 0 {
        return Answer::Word("no voter group");
    }
    match before.next_coherent(goal, true) {
        Ok(next) => Answer::told(alloc, &next),
        Err(_) => Answer::NoMemory,
    }
}

// ---- quorums

type Groups = Joint<u64, IdSet<u64>, Vec<IdSet<u64>>>;

// The next joint on the way from one group to the other, if there was memory.
fn next_joint(alloc: Global, from: IdSet<u64>, goal: IdSet<u64>) -> Result<Groups, AllocError> {
    let start = Joint::from(vec![in alloc; from]?);
    if start.children().len() == 0 {
        return Ok(start);
    }
    start.find_coherent(alloc, goal)
}

fn shown(alloc: Global, ids: Result<IdSet<u64>, AllocError>) -> Answer {
    match ids {
        Ok(ids) => Answer::shown(alloc, &ids),
        Err(_) => Answer::NoMemory,
    }
}

fn ids_of<QS: QuorumSet<u64>>(alloc: Global, set: &QS) -> Answer {
    shown(alloc, set.ids(alloc))
}

// The ids of voters, or of learners, of a membership alone or of a log's.
fn ids_by(kind: &str, members: Members) -> Result<IdSet<u64>, AllocError> {
    match kind {
        "learners" => members.learner_ids(),
        "stored" => StoredMembership::new(None, members).voter_ids(),
        "in-force" => EffectiveMembership::new(None, members).voter_ids(),
        _ => members.voter_ids(),
    }
}

fn joint_row(alloc: Global, kind: &str, from: &str, goal: &str) -> Option<Answer> {
    let next = next_joint(alloc, ids(alloc, from).ok()?, ids(alloc, goal).ok()?).ok()?;
    Some(match kind {
        "lent" => ids_of(alloc, &next.children().as_joint()),
        _ => ids_of(alloc, &next),
    })
}

// ---- what nodes are made of

// Whether these are nodes, how many ids they have, and the membership of the voters 1 and 2 with them.
fn made<T: IntoNodes<u64, BasicNode>>(alloc: Global, of: T) -> Result<String, AllocError> {
    let (has_nodes, count) = (of.has_nodes(), of.node_ids(alloc)?.len());
    let voters = vec![in alloc; ids(alloc, "1,2")?]?;
    let membership = Membership::new(alloc, voters, of)?;
    format!(in alloc; "{has_nodes} {count} {membership}")
}

fn made_of(alloc: Global, kind: &str) -> Result<String, AllocError> {
    match kind {
        "nothing" => made(alloc, ()),
        "ids" => made(alloc, ids(alloc, "2,3")?),
        "some-ids" => made(alloc, Some(ids(alloc, "2,3")?)),
        _ => made(alloc, nodes(alloc, "2=b,3=c")?),
    }
}

// ---- rows

fn change_row(alloc: Global, known: &str, call: &str, word: &str, retain: bool) -> Option<Answer> {
    let before = membership(alloc, known).ok()?;
    Some(changed(alloc, &before, change(alloc, call, word).ok()?, retain))
}

fn step_row(alloc: Global, known: &str, goal: &str) -> Option<Answer> {
    let before = membership(alloc, known).ok()?;
    Some(stepped(alloc, &before, ids(alloc, goal).ok()?))
}

fn quorum_row(alloc: Global, known: &str, set: &str) -> Option<Answer> {
    let known = membership(alloc, known).ok()?;
    Some(Answer::truth(known.is_quorum(&ids(alloc, set).ok()?)))
}

fn ids_row(alloc: Global, kind: &str, word: &str) -> Option<Answer> {
    match kind {
        "list" => Some(ids_of(alloc, &ids(alloc, word).ok()?.as_slice())),
        _ => Some(shown(alloc, ids_by(kind, membership(alloc, word).ok()?))),
    }
}

/// The answer to a row about memberships.
pub fn answered(alloc: Global, words: &[&str]) -> Option<Answer> {
    match *words {
        ["change", known, call, word, ref keep @ ..] => {
            change_row(alloc, known, call, word, !keep.is_empty())
        }
        ["step", known, goal] => step_row(alloc, known, goal),
        ["quorum", known, set] => quorum_row(alloc, known, set),
        ["ids", kind, word] => ids_row(alloc, kind, word),
        ["joint", kind, from, goal] => joint_row(alloc, kind, from, goal),
        ["made-of", kind] => Some(text(made_of(alloc, kind))),
        _ => None,
    }
}
