//! A stored group alone is a storage of one group.
use crate::loaded_group::{LoadedGroup, loaded};
use crate::storage::GroupStorage;
use raft_group_step::Entries;
use raft_messages::{GroupEntry, SnapshotHead, copies_of};
use raft_state::{BasicNode, Bytes, LogId, Vote};
use raft_stored_group::{GroupSnapshot, StoredGroup};
use std::alloc::{AllocError, Global};

/// The id under which a stored group is kept that is a storage by itself (own).
pub const ONLY_GROUP: u64 = 0;

impl GroupStorage for StoredGroup {
    type Snapshot = GroupSnapshot;

    type Fault = AllocError;

    ghost use Rattle.raft_group_storage.specs.Plain.{IsOnly, only_shows_more};
    ghost use Rattle.std.specs.Prelude.{◌≡◌};

    ghost is_well = { λ x. Unit {0} };

    ghost shows = { λ x group parts. IsOnly x group parts };

    ghost stands = { λ x y. x ≡ y };

    ghost meets = { λ old new met. Unit {0} };

    ghost fails = { λ x c s. Unit {0} };

    ghost shows_more = { λ x. only_shows_more x };

    ghost meets_none = { λ x. tt };

    ghost meets_later = { λ x y z met before after. tt };

    ghost meets_want = { λ x y refused why gives before. tt };

    ghost well_fails = { λ x well c s. tt };

    fn make_group(&mut self, group: u64) -> Result<(), AllocError> {
        if group == ONLY_GROUP {
            self.make_group();
        }
        Ok(())
    }

    fn set_vote(&mut self, group: u64, vote: Vote<u64>) -> Result<(), AllocError> {
        if group == ONLY_GROUP {
            self.set_vote(vote);
        }
        Ok(())
    }

    fn put_entries(
        &mut self,
        group: u64,
        place: u64,
        entries: &[GroupEntry],
    ) -> Result<(), AllocError> {
        if group == ONLY_GROUP {
            self.put_entries(place, entries)?;
        }
        Ok(())
    }

    fn cut_from(&mut self, group: u64, place: u64) -> Result<(), AllocError> {
        if group == ONLY_GROUP {
            self.cut_from(place);
        }
        Ok(())
    }

    fn remove_up_to(&mut self, group: u64, id: LogId<u64>) -> Result<(), AllocError> {
        if group == ONLY_GROUP {
            self.remove_up_to(id);
        }
        Ok(())
    }

    fn set_snapshot(&mut self, group: u64, snapshot: &GroupSnapshot) -> Result<(), AllocError> {
        if group == ONLY_GROUP {
            self.set_snapshot(snapshot.clone()?);
        }
        Ok(())
    }

    fn start_after(&mut self, group: u64, id: LogId<u64>) -> Result<(), AllocError> {
        if group == ONLY_GROUP {
            self.start_after(id);
        }
        Ok(())
    }

    fn entries_between(
        &mut self,
        alloc: Global,
        _group: u64,
        prev: Option<LogId<u64>>,
        last: Option<LogId<u64>>,
    ) -> Result<Entries<u64, BasicNode, Bytes>, AllocError> {
        copies_of(alloc, self.between(prev, last))
    }

    fn snapshot(
        &mut self,
        _alloc: Global,
        _group: u64,
    ) -> Result<Option<GroupSnapshot>, AllocError> {
        match StoredGroup::snapshot(self) {
            Some(snapshot) => Ok(Some(snapshot.clone()?)),
            None => Ok(None),
        }
    }

    fn head(snapshot: &GroupSnapshot) -> SnapshotHead<'_> {
        snapshot.head()
    }

    fn load(&mut self, alloc: Global, _group: u64) -> Result<LoadedGroup, AllocError> {
        loaded(alloc, self)
    }

    fn groups(&mut self, alloc: Global) -> Result<Vec<u64>, AllocError> {
        if self.is_present() {
            Ok(Vec::from_slice(alloc, &[ONLY_GROUP])?)
        } else {
            Ok(Vec::new(alloc))
        }
    }
}
