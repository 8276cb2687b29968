//! Ids, nodes, voter groups and memberships.

use raft_rows::number;
use raft_state::{BasicNode, IdSet, Membership, NodeMap, VoterGroups};
use std::alloc::{AllocError, Global};

/// A word such as `1,2`, `0..3` or `-`.
pub fn ids(alloc: Global, word: &str) -> Result<IdSet<u64>, AllocError> {
    let mut ids = IdSet::new(alloc);
    if let Some((first, end)) = word.split_once("..") {
        for id in number(first)..number(end) {
            ids.insert(id)?;
        }
        return Ok(ids);
    }
    for part in word.split(',') {
        if let Ok(id) = part.parse::<u64>() {
            ids.insert(id)?;
        }
    }
    Ok(ids)
}

/// A word such as `1=a,2=b`, `1,2` or `-`.
pub fn nodes(alloc: Global, word: &str) -> Result<NodeMap<u64, BasicNode>, AllocError> {
    let mut nodes = NodeMap::new(alloc);
    for part in word.split(',') {
        let (id, addr) = part.split_once('=').unwrap_or((part, ""));
        if let Ok(id) = id.parse::<u64>() {
            nodes.insert(id, BasicNode::new(alloc, addr)?)?;
        }
    }
    Ok(nodes)
}

/// A word such as `1,2;1,5`; `none` is no group.
pub fn voter_groups(alloc: Global, word: &str) -> Result<VoterGroups<u64>, AllocError> {
    let mut groups = VoterGroups::new(alloc);
    if word == "none" {
        return Ok(groups);
    }
    for part in word.split(';') {
        groups.push(ids(alloc, part)?)?;
    }
    Ok(groups)
}

/// A word such as `1,2/1=a,2=b`; the voters are all nodes where none stand behind them.
pub fn membership(alloc: Global, word: &str) -> Result<Membership<u64, BasicNode>, AllocError> {
    let (voters, known) = word.split_once('/').unwrap_or((word, word));
    Ok(Membership::from_parts(voter_groups(alloc, voters)?, nodes(alloc, known)?))
}
