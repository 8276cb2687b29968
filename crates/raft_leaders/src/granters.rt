//! The ids that have granted a vote, one by one.
ghost use Rattle.std.specs.Prelude.{◌≡◌, ◌++◌, Bool};
ghost use Rattle.std.specs.Iterator.{YieldsFirst, item_count};
ghost use Rattle.raft_leaders.specs.Candidate.{granting_ids};

use raft_progress::Iter;
use raft_state::NodeId;
use std::iter::FusedIterator;
use std::marker::Model;

/// The ids that have granted a vote (own). It is seen as the list of what is left.
#[derive(Drop)]
pub struct Granters<'a, NID> {
    entries: Iter<'a, NID, bool>,
}

impl<'a, NID> Model for Granters<'a, NID> {
    ghost use Rattle.std.specs.Prelude.{List};
    ghost use Rattle.raft_leaders.specs.Candidate.{granting_ids};

    ghost Value = { List NID };

    ghost view = { λ g. granting_ids g.entries };
}

impl<'a, NID> Granters<'a, NID> {
    // Those of the entries whose flag is set.
    pub(crate) fn new(entries: Iter<'a, NID, bool>) -> Granters<'a, NID>
        ensures { result ≡ granting_ids entries.entry }
    {
        Granters { entries }
    }
}

impl<'a, NID: NodeId> Iterator for Granters<'a, NID> {
    type Item = NID;

    ghost next_gives = { YieldsFirst (λ s. s) };

    ghost remaining = { item_count (λ s. s) };

    fn next(&mut self) -> Option<NID> {
        while let Some(entry) = self.entries.next() {
            if entry.1 {
                return Some(entry.0);
            }
        }
        None
    }
}

impl<'a, NID: NodeId> FusedIterator for Granters<'a, NID> {}
