//! Progress of peers, and what a quorum has reached.

use raft_progress::{Progress, ReplayItem, VecProgress, replay};
use raft_row_values::ids;
use raft_rows::{Answer, number};
use std::alloc::{AllocError, Global};

/// Values by the ids of a list of voters.
pub type Values = VecProgress<u64, u64, u64, Vec<u64>>;

// The value 0 of each voter, and nobody else.
fn values(alloc: Global, voters: &str) -> Result<Values, AllocError> {
    let voters = ids(alloc, voters)?.as_slice().to_vec(alloc)?;
    VecProgress::new(alloc, voters, &[], 0)
}

// What is granted once a value is raised, by the bound alone.
fn raised<PR: Progress<u64, u64, u64, Vec<u64>>>(
    progress: &mut PR,
    id: u64,
    value: u64,
) -> Result<u64, u64> {
    progress.increase_to(&id, value)
}

fn upgrade(
    alloc: Global,
    voters: &str,
    learners: &str,
) -> Result<ReplayItem<u64, u64, Vec<u64>>, AllocError> {
    Ok(ReplayItem::UpgradeQuorumSet {
        quorum_set: ids(alloc, voters)?.as_slice().to_vec(alloc)?,
        learner_ids: ids(alloc, learners)?.as_slice().to_vec(alloc)?,
        default_value: 1,
    })
}

// What is granted behind the item, or why it isn't done.
fn replayed(values: &mut Values, alloc: Global, item: ReplayItem<u64, u64, Vec<u64>>) -> Answer {
    let Ok(items) = vec![in alloc; item] else {
        return Answer::NoMemory;
    };
    match replay(alloc, values, items) {
        Ok(()) => Answer::shown(alloc, values.granted()),
        Err(why) => Answer::told(alloc, &why),
    }
}

fn of_values(values: &mut Values, alloc: Global, words: &[&str]) -> Option<Answer> {
    Some(match *words {
        ["raise", id, value] => { Answer::shown(alloc, &raised(values, number(id), number(value))) }
        ["update", id, value] => {
            let (id, value) = (number(id), number(value));
            replayed(values, alloc, ReplayItem::Update { id, value })
        }
        ["upgrade", voters, learners] => {
            replayed(values, alloc, upgrade(alloc, voters, learners).ok()?)
        }
        ["text"] => Answer::told(alloc, values),
        _ => return None,
    })
}

/// The answer to a row about progress.
pub fn progressed(known: &mut Option<Values>, alloc: Global, words: &[&str]) -> Option<Answer> {
    if let ["of", voters] = *words {
        *known = Some(values(alloc, voters).ok()?);
        return Some(Answer::Word("()"));
    }
    of_values(known.as_mut()?, alloc, words)
}
