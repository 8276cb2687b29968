//! Any number of groups, kept in memory.
ghost use Rattle.std.specs.Prelude.{◌≡◌, ℕ, [], IfOk, filter, is_some};
ghost use Rattle.std.specs.BTreeMap.{get, keys};
ghost use Rattle.std.specs.List.Sorted.{IsStrictlySortedBy};
ghost use Rattle.std.specs.Ordering.{eq_by_cmp, nat_cmp};
ghost use Rattle.std.specs.Set.{is_member};
ghost use Rattle.raft_group_storage.specs.Plain.{stored_in};

use crate::loaded_group::{LoadedGroup, loaded};
use crate::storage::GroupStorage;
use raft_group_step::Entries;
use raft_messages::{GroupEntry, SnapshotHead, copies_of};
use raft_state::{BasicNode, Bytes, LogId, Vote};
use raft_stored_group::{GroupSnapshot, StoredGroup};
use std::alloc::{AllocError, Global};
use std::collections::BTreeMap;
use std::marker::Model;

/// Groups by their ids (own). Contracts see a list of pairs, an id and what is stored of its group.
/// Of an id that isn't there nothing is stored.
#[derive(Drop)]
pub struct PlainGroups {
    alloc: Global,
    groups: BTreeMap<u64, StoredGroup>,
}

impl Model for PlainGroups {
    ghost use Rattle.std.specs.Prelude.{ℕ, List};
    ghost use Rattle.raft_group_step.specs.StoredGroup.{StoredGroup as Stored};

    ghost Value = { List (ℕ × Stored) };

    ghost view = { λ x. x.groups.entries };
}

// Whether something is stored of the group, and it is present.
fn is_present(groups: &BTreeMap<u64, StoredGroup>, group: u64) -> bool
    ensures { result ≡ (stored_in groups.now.entries group).present }
{
    match groups.get(&group) {
        Some(stored) => stored.is_present(),
        None => false,
    }
}

// The ids of the groups that are present, rising.
fn present_ids(alloc: Global, groups: &BTreeMap<u64, StoredGroup>) -> Result<Vec<u64>, AllocError>
    ensures ids { IfOk result (λ ids. ids.items ≡ filter (λ group. (stored_in groups.now.entries group).present) (keys groups.now)) }
    ensures rising { IsStrictlySortedBy nat_cmp (keys groups.now) }
    ensures exactly { (group : ℕ) → is_some (get nat_cmp groups.now group) ≡ is_member (eq_by_cmp nat_cmp) (keys groups.now) group }
{
    groups
        .keys()
        .copied()
        .filter(|group| is_present(groups, *group))
        .collect(alloc)
}

impl PlainGroups {
    /// No group. Takes no memory (own).
    pub fn new(alloc: Global) -> PlainGroups
        ensures { result ≡ [] }
    {
        PlainGroups {
            alloc,
            groups: BTreeMap::new(alloc),
        }
    }
}

impl GroupStorage for PlainGroups {
    type Snapshot = GroupSnapshot;

    type Fault = AllocError;

    ghost use Rattle.raft_group_storage.specs.Plain.{IsAmong, among_shows_more};
    ghost use Rattle.std.specs.Prelude.{◌≡◌};

    ghost is_well = { λ x. Unit {0} };

    ghost shows = { λ x group parts. IsAmong x group parts };

    ghost stands = { λ x y. x ≡ y };

    ghost meets = { λ old new met. Unit {0} };

    ghost fails = { λ x c s. Unit {0} };

    ghost shows_more = { λ x. among_shows_more x };

    ghost meets_none = { λ x. tt };

    ghost meets_later = { λ x y z met before after. tt };

    ghost meets_want = { λ x y refused why gives before. tt };

    ghost well_fails = { λ x well c s. tt };

    fn make_group(&mut self, group: u64) -> Result<(), AllocError> {
        let none = StoredGroup::new(self.alloc);
        self.groups.entry(group)?.or_insert(none).make_group();
        Ok(())
    }

    fn set_vote(&mut self, group: u64, vote: Vote<u64>) -> Result<(), AllocError> {
        let none = StoredGroup::new(self.alloc);
        self.groups.entry(group)?.or_insert(none).set_vote(vote);
        Ok(())
    }

    fn put_entries(
        &mut self,
        group: u64,
        place: u64,
        entries: &[GroupEntry],
    ) -> Result<(), AllocError> {
        let none = StoredGroup::new(self.alloc);
        self.groups
            .entry(group)?
            .or_insert(none)
            .put_entries(place, entries)
    }

    fn cut_from(&mut self, group: u64, place: u64) -> Result<(), AllocError> {
        let none = StoredGroup::new(self.alloc);
        self.groups.entry(group)?.or_insert(none).cut_from(place);
        Ok(())
    }

    fn remove_up_to(&mut self, group: u64, id: LogId<u64>) -> Result<(), AllocError> {
        let none = StoredGroup::new(self.alloc);
        self.groups.entry(group)?.or_insert(none).remove_up_to(id);
        Ok(())
    }

    fn set_snapshot(&mut self, group: u64, snapshot: &GroupSnapshot) -> Result<(), AllocError> {
        let copy = snapshot.clone()?;
        let none = StoredGroup::new(self.alloc);
        self.groups.entry(group)?.or_insert(none).set_snapshot(copy);
        Ok(())
    }

    fn start_after(&mut self, group: u64, id: LogId<u64>) -> Result<(), AllocError> {
        let none = StoredGroup::new(self.alloc);
        self.groups.entry(group)?.or_insert(none).start_after(id);
        Ok(())
    }

    fn entries_between(
        &mut self,
        alloc: Global,
        group: u64,
        prev: Option<LogId<u64>>,
        last: Option<LogId<u64>>,
    ) -> Result<Entries<u64, BasicNode, Bytes>, AllocError> {
        match self.groups.get(&group) {
            Some(stored) => copies_of(alloc, stored.between(prev, last)),
            None => Ok(Entries::new(alloc)),
        }
    }

    fn snapshot(
        &mut self,
        _alloc: Global,
        group: u64,
    ) -> Result<Option<GroupSnapshot>, AllocError> {
        match self.groups.get(&group) {
            Some(stored) => match stored.snapshot() {
                Some(snapshot) => Ok(Some(snapshot.clone()?)),
                None => Ok(None),
            },
            None => Ok(None),
        }
    }

    fn head(snapshot: &GroupSnapshot) -> SnapshotHead<'_> {
        snapshot.head()
    }

    fn load(&mut self, alloc: Global, group: u64) -> Result<LoadedGroup, AllocError> {
        match self.groups.get(&group) {
            Some(stored) => loaded(alloc, stored),
            None => loaded(alloc, &StoredGroup::new(alloc)),
        }
    }

    fn groups(&mut self, alloc: Global) -> Result<Vec<u64>, AllocError> {
        present_ids(alloc, &self.groups)
    }
}
