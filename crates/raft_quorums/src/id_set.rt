//! Sets of node ids.
ghost use Rattle.std.specs.Prelude.{◌≡◌, ◌+◌, ◌<◌, [], length, IfOk, OnOk, OnErr, MatchResult, ◌≤◌, ◌==◌, if◌then◌else◌, suc};
ghost use Rattle.std.specs.List.{filter, list_any};
ghost use Rattle.raft_quorums.specs.Quorum.{rising_ids};
ghost use Rattle.raft_quorums.specs.Nodes.{with_ids};
ghost use Rattle.std.specs.BTreeSet.{insert_key};
ghost use Rattle.raft_quorums.specs.Rising.{IsRising};
ghost use Rattle.raft_quorums.specs.Place.{place};
ghost use Rattle.std.specs.Cmp.Lexicographic.{pointwise, lists_per, lists_equiv};

use crate::has_id::HasId;
use raft_values::node::NodeId;
use std::alloc::{AllocError, Global};
use std::cmp::Ordering;
use std::marker::Model;

/// A set of node ids. Contracts see its ids as a list in rising order.
#[derive(Debug, Drop)]
pub struct IdSet<NID: NodeId> {
    ids: Vec<NID>,
}

impl<NID: NodeId> Model for IdSet<NID> {
    ghost use Rattle.std.specs.Prelude.{List};
    ghost use Rattle.raft_quorums.specs.Rising.{IsRising};

    ghost Value = { List NID };

    ghost view = { λ s. s.ids.items };

    ghost invariant = { λ s. IsRising NID.cmp s.ids.items };
}

// The place of the id among rising ids, or the gap where it belongs.
fn place<NID: NodeId>(ids: &[NID], id: &NID) -> Result<usize, usize>
    ensures place { result ≡ place (NID.cmp id.now) ids.now }
    ensures within { MatchResult result (λ at. at < length ids.now) (λ gap. gap ≤ length ids.now) }
{
    for (at, other) in ids.iter().enumerate() {
        match id.cmp(other) {
            Ordering::Less => return Err(at),
            Ordering::Equal => return Ok(at),
            Ordering::Greater => {}
        }
    }
    Err(ids.len())
}

fn insert_rising<NID: NodeId>(ids: &mut Vec<NID>, id: NID) -> Result<bool, AllocError>
    requires { IsRising NID.cmp ids.old.items }
    ensures ok { OnOk result (ids.new.items ≡ insert_key NID.cmp ids.old.items id) }
    ensures grows { IfOk result (λ is_new. length ids.new.items ≡ (if is_new then suc (length ids.old.items) else length ids.old.items)) }
    ensures err { OnErr result (ids.new.items ≡ ids.old.items) }
    ensures rising { IsRising NID.cmp ids.new.items }
{
    match place(ids.as_slice(), &id) {
        Ok(_) => Ok(false),
        Err(gap) => {
            ids.insert(gap, id)?;
            Ok(true)
        }
    }
}

// The ids that are to be kept.
fn filter_ids<NID: NodeId, S: HasId<NID>>(
    alloc: Global,
    ids: &[NID],
    keep: &S,
) -> Result<Vec<NID>, AllocError>
    requires { IsRising NID.cmp ids.now }
    ensures items { IfOk result (λ kept. kept.items ≡ filter (S.has keep.now) ids.now) }
    ensures rising { IfOk result (λ kept. IsRising NID.cmp kept.items) }
{
    let mut kept = Vec::new(alloc);
    for id in ids {
        if keep.has_id(id) {
            kept.push(*id)?;
        }
    }
    Ok(kept)
}

impl<NID: NodeId> IdSet<NID> {
    /// The set with no ids.
    pub fn new(alloc: Global) -> IdSet<NID>
        ensures { result ≡ [] }
    {
        IdSet {
            ids: Vec::new(alloc),
        }
    }

    /// How many ids the set has.
    pub fn len(&self) -> usize
        ensures { result ≡ length self.now }
    {
        self.ids.len()
    }

    /// The ids in rising order.
    pub fn as_slice(&self) -> &[NID]
        ensures ids { result.now ≡ self.now }
        ensures rising { IsRising NID.cmp self.now }
    {
        self.ids.as_slice()
    }

    /// The set of these ids.
    pub fn from_slice(alloc: Global, ids: &[NID]) -> Result<IdSet<NID>, AllocError>
        ensures { IfOk result (λ set. set ≡ rising_ids NID.cmp ids.now) }
    {
        let mut set = IdSet::new(alloc);
        for id in ids {
            set.insert(*id)?;
        }
        Ok(set)
    }

    /// The set of ids that are in order already. Takes no memory.
    pub fn from_rising(rising: Vec<NID>) -> IdSet<NID>
        requires { IsRising NID.cmp rising.items }
        ensures { result ≡ rising.items }
    {
        IdSet { ids: rising }
    }

    /// Whether the set has no ids.
    pub fn is_empty(&self) -> bool
        ensures { result ≡ (length self.now == 0) }
    {
        self.ids.is_empty()
    }

    // What the set takes its memory from.
    fn allocator(&self) -> Global {
        *self.ids.allocator()
    }

    /// The set with these ids too.
    pub fn with(&self, ids: &[NID]) -> Result<IdSet<NID>, AllocError>
        ensures { IfOk result (λ set. set ≡ with_ids NID.cmp self.now ids.now) }
    {
        let mut set = self.clone()?;
        for id in ids {
            set.insert(*id)?;
        }
        Ok(set)
    }

    /// The ids of the set that are in the other one too.
    pub fn filtered<S: HasId<NID>>(&self, keep: &S) -> Result<IdSet<NID>, AllocError>
        ensures { IfOk result (λ set. set ≡ filter (S.has keep.now) self.now) }
    {
        let ids = filter_ids(self.allocator(), self.as_slice(), keep)?;
        Ok(IdSet { ids })
    }

    /// Whether the set has the id.
    pub fn contains(&self, id: &NID) -> bool
        ensures { result ≡ list_any (λ x. NID.eq x id.now) self.now }
    {
        self.ids.contains(id)
    }

    /// Takes the id in, and says whether it is new. Without memory the set stays.
    pub fn insert(&mut self, id: NID) -> Result<bool, AllocError>
        ensures ok { OnOk result (self.new ≡ insert_key NID.cmp self.old id) }
        ensures grows { IfOk result (λ is_new. length self.new ≡ (if is_new then suc (length self.old) else length self.old)) }
        ensures err { OnErr result (self.new ≡ self.old) }
    {
        insert_rising(&mut self.ids, id)
    }
}

impl<NID: NodeId> Clone for IdSet<NID> {
    ghost is_clone = { λ x y. y ≡ x };

    fn clone(&self) -> Result<IdSet<NID>, AllocError> {
        let mut ids = Vec::new(*self.ids.allocator());
        ids.extend_from_slice(self.ids.as_slice())?;
        Ok(IdSet { ids })
    }
}

impl<NID: NodeId> PartialEq for IdSet<NID> {
    ghost eq = { pointwise NID.eq };

    ghost laws = { lists_per NID.PartialEq.laws };

    fn eq(&self, other: &IdSet<NID>) -> bool {
        self.ids == other.ids
    }
}

impl<NID: NodeId> Eq for IdSet<NID> {
    ghost laws = { lists_equiv NID.Eq.laws };
}
