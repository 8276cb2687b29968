//! Whether the records of atomic groups stand together.

ghost use Rattle.std.specs.Prelude.{◌≡◌, ◌↔◌, ◌++◌, ◌∷◌, [], ℕ, List, IsTrue};
ghost use Rattle.raft_log_purge.specs.Anew.{MayStand, StandTogether};
ghost use Rattle.raft_log_purge.specs.Anew.{left_open as open_after};
ghost use Rattle.raft_log_purge.specs.Together.{MapsTogether, MayCome, Tells};
ghost use Rattle.raft_log_memtables.specs.Replay.{mark_of};
ghost use Rattle.raft_log_records.specs.declared.item.EntryIndex.{EntryIndex};
ghost use Rattle.raft_log_records.specs.Item.{Item, items_of};

use raft_log_records::{AtomicGroupStatus, LogItem, LogItemContent};

/// The atomic group that a record belongs to, and where in it the record stands.
fn mark_in(items: &[LogItem]) -> Option<(u64, AtomicGroupStatus)>
    ensures { result ≡ mark_of (items_of items.now) }
{
    for item in items {
        if let LogItemContent::AtomicGroup { id, status } = item.content {
            return Some((id, status));
        }
    }
    None
}

/// The atomic group that a record leaves open.
fn left_open(mark: Option<(u64, AtomicGroupStatus)>) -> Option<u64>
    ensures { result ≡ open_after mark }
{
    let (id, status) = mark?;
    match status {
        AtomicGroupStatus::Begin => Some(id),
        AtomicGroupStatus::Middle => Some(id),
        AtomicGroupStatus::End => None,
    }
}

/// Whether a record may stand behind one that leaves this atomic group open, or none.
fn may_stand(begun: Option<u64>, mark: Option<(u64, AtomicGroupStatus)>) -> bool
    ensures { IsTrue result ↔ MayStand begun mark }
{
    match mark {
        None => true,
        Some((_, AtomicGroupStatus::Begin)) => true,
        Some((id, AtomicGroupStatus::Middle)) => begun == Some(id),
        Some((id, AtomicGroupStatus::End)) => begun == Some(id),
    }
}

/// Whether a record may come behind the last one, if there is one.
fn may_come(last: Option<Option<u64>>, mark: Option<(u64, AtomicGroupStatus)>) -> bool
    ensures { IsTrue result ↔ MayCome last mark }
{
    match last {
        None => true,
        Some(begun) => may_stand(begun, mark),
    }
}

/// Records of a queue, one after the other: whether those of each atomic group stand together (own).
/// Of the first one records before these may be gone.
#[derive(Clone, Copy, PartialEq, Eq)]
pub struct Together {
    /// What the last record leaves open, if there is a record.
    last: Option<Option<u64>>,
    /// They stand together so far.
    so_far: bool,
}

impl Together {
    /// Before any record.
    pub fn new() -> Together
        ensures { Tells {E = EntryIndex} result [] }
    {
        Together {
            last: None,
            so_far: true,
        }
    }

    /// With one record more.
    pub fn add(&mut self, items: &[LogItem])
        ensures { (records : List (List (Item EntryIndex))) → Tells self.old records → Tells self.new (records ++ items_of items.now ∷ []) }
    {
        let mark = mark_in(items);
        let comes = may_come(self.last, mark);
        self.so_far = self.so_far && comes;
        self.last = Some(left_open(mark));
    }

    /// Whether they stand together.
    pub fn stand(&self) -> bool
        ensures { (records : List (List (Item EntryIndex))) → Tells self.now records → (IsTrue result ↔ StandTogether records) }
    {
        self.so_far
    }
}

/// It is the same of entries' places and of their bytes.
pub fn records_seen_otherwise_stand_together()
    ensures { MapsTogether EntryIndex (List ℕ) }
{}
