//! The progress of all peers, and what a quorum of the voters has reached.
ghost use Rattle.std.specs.Prelude.{◌≡◌, ◌<◌, ◌||◌, ◌++◌, OnOk, length, slice_index_or, Bool, true, false};
ghost use Rattle.std.specs.Prelude.{Ok, Err, IfSome, IsSome, Some, None, map, IfOk, OnErr, IsPermutation, if◌then◌else◌};
ghost use Rattle.std.specs.Ordering.{is_le};
ghost use Rattle.std.specs.Borrow.{Lends, LendsIf, sem};
ghost use Rattle.std.specs.Fn.{FnOnceReturnsAtMut};
ghost use Rattle.std.specs.List.{list_any};
ghost use Rattle.std.specs.Option.{option_copied, option_copied_mut};
ghost use Rattle.raft_quorums.specs.Nodes.{has_id, has_node};
ghost use Rattle.raft_progress.specs.Counted.{IsCounted, IsNoLess, IsSamePart, lowers_value};
ghost use Rattle.raft_progress.specs.Granted.{IsFalling};
ghost use Rattle.raft_progress.specs.Parts.{IsUpgraded, SetsValue, carried, has_value, value_of, with_learner, with_voter, written};
ghost use Rattle.raft_progress.specs.Values.{are_distinct, rises_above, value_at};

use crate::borrow::Borrow;
use crate::entries::{beside, distinct_place, place, set_value, value_in};
use crate::front::{granted_by, is_below, push_falling, raise};
use crate::iter::Iter;
use raft_quorums::QuorumSet;
use raft_values::NodeId;
use std::alloc::{AllocError, Global};
use std::fmt::{self, Display};
use std::marker::Model;

/// The progress of all peers (openraft). Contracts see its quorum set, the value that it was last
/// built with, what is granted, and the values of voters and learners beside their ids. The
/// voters stand in falling order of their values, as long as none is changed by `get_mut`; those
/// of `new`, which are all equal, and of `upgrade_by_id` stand by rising id until one rises.
#[derive(Drop)]
pub struct VecProgress<ID: PartialEq, V, P, QS> {
    quorum_set: QS,
    built_with: P,
    granted: P,
    voters: Vec<(ID, V)>,
    learners: Vec<(ID, V)>,
}

impl<ID: PartialEq, V, P, QS> Model for VecProgress<ID, V, P, QS> {
    ghost use Rattle.raft_progress.specs.Parts.{Parts, ids_of};
    ghost use Rattle.std.specs.List.{IsDistinct};

    ghost Value = { Parts ID V P QS };

    ghost view = { λ p. record {
      quorum_set = p.quorum_set;
      built_with = p.built_with;
      granted = p.granted;
      voters = p.voters.items;
      learners = p.learners.items;
    } };

    ghost invariant = { λ p. IsDistinct ID.eq (ids_of p.voters.items) };
}

impl<ID: NodeId, V: Copy + Borrow<P>, P: Copy + Ord, QS: QuorumSet<ID> + Drop> VecProgress<
    ID,
    V,
    P,
    QS,
> {
    ghost use Rattle.raft_progress.specs.contracts.vec_progress.VecProgress.{the_row};

    /// The progress of the quorum set's voters and of these learners, who are distinct and no
    /// voters, each at the default (openraft).
    pub fn new(
        alloc: Global,
        quorum_set: QS,
        learner_ids: &[ID],
        default_value: V,
    ) -> Result<VecProgress<ID, V, P, QS>, AllocError>
        requires distinct { are_distinct ID.eq learner_ids.now ≡ true }
        requires no_voters { list_any (has_id ID.eq (QS.members quorum_set)) learner_ids.now ≡ false }
        ensures quorum_set { IfOk result (λ p. p.quorum_set ≡ quorum_set) }
        ensures built_with { IfOk result (λ p. p.built_with ≡ V.borrowed default_value) }
        ensures voters { IfOk result (λ p. p.voters ≡ map (λ id. (id, default_value)) (QS.members quorum_set)) }
        ensures learners { IfOk result (λ p. p.learners ≡ map (λ id. (id, default_value)) learner_ids.now) }
        ensures counted { IfOk result (λ p. IsCounted ID.eq P.cmp V.borrowed QS.accepts p) }
    {
        let ids = quorum_set.ids(alloc)?;
        let voters = beside(alloc, ids.as_slice(), default_value)?;
        let learners = beside(alloc, learner_ids, default_value)?;
        let granted = *default_value.borrow();
        Ok(VecProgress {
            quorum_set,
            built_with: granted,
            granted,
            voters,
            learners,
        })
    }

    /// Sets the value of the id, which is no less than before, and answers what is granted: as an
    /// error where nobody has the id, and then nothing is changed (openraft).
    pub fn update(&mut self, id: &ID, value: V) -> Result<P, P>
        requires rises { IsNoLess P.cmp V.borrowed (value_at ID.eq self.old.voters id.now) value }
        ensures sets { SetsValue ID.eq self.old self.new id.now value }
        ensures counted { IsCounted ID.eq P.cmp V.borrowed QS.accepts self.old → IsCounted ID.eq P.cmp V.borrowed QS.accepts self.new }
        ensures grows { is_le (P.cmp self.old.granted self.new.granted) ≡ true }
        ensures answer { result ≡ (if has_value ID.eq self.old id.now then Ok self.new.granted else Err self.new.granted) }
    {
        match place(self.voters.as_slice(), id) {
            Some(at) => {
                let voters = self.voters.as_mut_slice();
                self.granted = raise(&self.quorum_set, self.granted, voters, at, value);
                Ok(self.granted)
            }
            None => {
                if set_value(self.learners.as_mut_slice(), id, value) {
                    Ok(self.granted)
                } else {
                    Err(self.granted)
                }
            }
        }
    }

    /// Changes the value of the id by the closure, which doesn't lower it, and answers what is
    /// granted: as an error where nobody has the id, and then nothing is changed (openraft).
    pub fn update_with<F: FnOnce(&mut V) + Drop>(&mut self, id: &ID, f: F) -> Result<P, P>
        requires callable { F.IsAlwaysCallable f }
        requires rises { (before value : V) → value_at ID.eq self.old.voters id.now ≡ Some before → FnOnceReturnsAtMut F.FnOnce f before tt value
            → is_le (P.cmp (V.borrowed before) (V.borrowed value)) ≡ true }
        ensures sets { OnOk result ((before value : V) × (value_of ID.eq self.old id.now ≡ Some before)
            × FnOnceReturnsAtMut F.FnOnce f before tt value × SetsValue ID.eq self.old self.new id.now value) }
        ensures unknown { OnErr result (self.new ≡ self.old) }
        ensures counted { IsCounted ID.eq P.cmp V.borrowed QS.accepts self.old → IsCounted ID.eq P.cmp V.borrowed QS.accepts self.new }
        ensures grows { is_le (P.cmp self.old.granted self.new.granted) ≡ true }
        ensures answer { result ≡ (if has_value ID.eq self.old id.now then Ok self.new.granted else Err self.new.granted) }
    {
        let Some(before) = self.try_get(id) else {
            return Err(self.granted);
        };
        let mut value = *before;
        f(&mut value);
        self.update(id, value)
    }

    /// The value of the id, or None where nobody has it (openraft).
    pub fn try_get(&self, id: &ID) -> Option<&V>
        ensures { option_copied result ≡ value_of ID.eq self.now id.now }
    {
        let voters = self.voters.as_slice();
        match distinct_place(voters, id) {
            Some(at) => Some(&voters[at].1),
            None => value_in(self.learners.as_slice(), id),
        }
    }

    /// The value of the id, which somebody has (openraft).
    pub fn get(&self, id: &ID) -> &V
        requires { IsSome (value_of ID.eq self.now id.now) }
        ensures { Some result.now ≡ value_of ID.eq self.now id.now }
    {
        self.try_get(id).unwrap()
    }

    // The value of the voter at the index.
    fn voter_mut(&mut self, at: usize) -> &mut V
        requires { at < length self.old.voters }
        ensures* writes_back { sem 𝓛 (Lends (the_row ID.row V.row P.row QS.row ID.PartialEq) V.row self.entry result (with_voter self.old at)) }
        ensures value { (x : ID × V) → result.now ≡ (slice_index_or self.old.voters at x).1 }
    {
        let entry = &mut self.voters[at];
        &mut entry.1
    }

    // The value of the learner at the index.
    fn learner_mut(&mut self, at: usize) -> &mut V
        requires { at < length self.old.learners }
        ensures* writes_back { sem 𝓛 (Lends (the_row ID.row V.row P.row QS.row ID.PartialEq) V.row self.entry result (with_learner self.old at)) }
        ensures value { (x : ID × V) → result.now ≡ (slice_index_or self.old.learners at x).1 }
    {
        let entry = &mut self.learners[at];
        &mut entry.1
    }

    /// The value of the id to be written, or None where nobody has it (openraft). What is granted
    /// stays counted where the part that is compared stays, or the id is a learner's. Where a
    /// voter's part is changed it is no longer promised, and nothing else breaks.
    pub fn get_mut(&mut self, id: &ID) -> Option<&mut V>
        ensures* writes_back { sem 𝓛 (LendsIf (the_row ID.row V.row P.row QS.row ID.PartialEq) V.row self.entry result (written ID.eq self.old id.now) self.old) }
        ensures value { option_copied_mut result ≡ value_of ID.eq self.old id.now }
        ensures sets { (value : V) → SetsValue ID.eq self.old (written ID.eq self.old id.now value) id.now value }
        ensures counted { (value : V) → IsSamePart V.borrowed (value_at ID.eq self.old.voters id.now) value
            → IsCounted ID.eq P.cmp V.borrowed QS.accepts self.old → IsCounted ID.eq P.cmp V.borrowed QS.accepts (written ID.eq self.old id.now value) }
    {
        match distinct_place(self.voters.as_slice(), id) {
            Some(at) => Some(self.voter_mut(at)),
            None => match place(self.learners.as_slice(), id) {
                Some(at) => Some(self.learner_mut(at)),
                None => None,
            },
        }
    }

    // Whether the value is below that of the id, if a voter has it.
    pub(crate) fn lowers(&self, id: &ID, value: &V) -> bool
        ensures { result ≡ lowers_value P.cmp V.borrowed (value_at ID.eq self.now.voters id.now) value.now }
    {
        match value_in(self.voters.as_slice(), id) {
            Some(before) => is_below(value.borrow(), before.borrow()),
            None => false,
        }
    }

    // Whether the value is above that of the id.
    fn rises(&self, id: &ID, value: &V) -> bool
        ensures { result ≡ rises_above P.cmp V.borrowed (value_of ID.eq self.now id.now) value.now }
    {
        match self.try_get(id) {
            Some(before) => is_below(before.borrow(), value.borrow()),
            None => false,
        }
    }

    /// Sets the value of the id if that raises it, and answers what is granted: as an error where
    /// nobody has the id, and then nothing is changed (openraft).
    pub fn increase_to(&mut self, id: &ID, value: V) -> Result<P, P>
        ensures sets { rises_above P.cmp V.borrowed (value_of ID.eq self.old id.now) value ≡ true → SetsValue ID.eq self.old self.new id.now value }
        ensures unless_it_rises { rises_above P.cmp V.borrowed (value_of ID.eq self.old id.now) value ≡ false → self.new ≡ self.old }
        ensures counted { IsCounted ID.eq P.cmp V.borrowed QS.accepts self.old → IsCounted ID.eq P.cmp V.borrowed QS.accepts self.new }
        ensures grows { is_le (P.cmp self.old.granted self.new.granted) ≡ true }
        ensures answer { result ≡ (if has_value ID.eq self.old id.now then Ok self.new.granted else Err self.new.granted) }
    {
        if self.rises(id, &value) {
            return self.update(id, value);
        }
        match self.is_voter(id) {
            Some(_) => Ok(self.granted),
            None => Err(self.granted),
        }
    }

    /// Whether the id is a voter's, or None where nobody has it (openraft).
    pub fn is_voter(&self, id: &ID) -> Option<bool>
        ensures { result ≡ (if has_node ID.eq self.now.voters id.now then Some true else (if has_node ID.eq self.now.learners id.now then Some false else None)) }
    {
        if place(self.voters.as_slice(), id).is_some() {
            return Some(true);
        }
        if place(self.learners.as_slice(), id).is_some() {
            return Some(false);
        }
        None
    }

    /// What is granted: the greatest of the value that it was built with and those that a quorum
    /// of the voters has reached (openraft).
    pub fn granted(&self) -> &P
        ensures { result.now ≡ self.now.granted }
    {
        &self.granted
    }

    /// The quorum set that counts (openraft).
    pub fn quorum_set(&self) -> &QS
        ensures { result.now ≡ self.now.quorum_set }
    {
        &self.quorum_set
    }

    /// The ids with their values, voters first, then learners (openraft).
    pub fn iter(&self) -> Iter<'_, ID, V>
        ensures { result ≡ self.now.voters ++ self.now.learners }
    {
        Iter::new(self.voters.as_slice(), self.learners.as_slice())
    }

    // The id with its value, or else with the default.
    fn carried(&self, id: &ID, default_value: V) -> (ID, V)
        ensures { result ≡ carried ID.eq self.now default_value id.now }
    {
        match self.try_get(id) {
            Some(value) => (*id, *value),
            None => (*id, default_value),
        }
    }

    // These ids, each with its value or the default.
    fn carry(&self, alloc: Global, ids: &[ID], default_value: V) -> Result<Vec<(ID, V)>, AllocError>
        ensures { IfOk result (λ entries. entries.items ≡ map (carried ID.eq self.now default_value) ids.now) }
    {
        let mut entries = Vec::new(alloc);
        for id in ids {
            entries.push(self.carried(id, default_value))?;
        }
        Ok(entries)
    }

    // The same in falling order of their values.
    fn carry_falling(
        &self,
        alloc: Global,
        ids: &[ID],
        default_value: V,
    ) -> Result<Vec<(ID, V)>, AllocError>
        ensures entries { IfOk result (λ entries. IsPermutation (map (carried ID.eq self.now default_value) ids.now) entries.items) }
        ensures falling { IfOk result (λ entries. IsFalling P.cmp V.borrowed entries.items) }
    {
        let mut entries = Vec::new(alloc);
        for id in ids {
            push_falling(&mut entries, self.carried(id, default_value))?;
        }
        Ok(entries)
    }

    /// The progress of another quorum set's voters and of these learners: who has a value here keeps
    /// it, the others begin at the default. What is granted is
    /// counted afresh from the default on (openraft, where the old progress is used up).
    pub fn upgrade_quorum_set(
        &self,
        alloc: Global,
        quorum_set: QS,
        learner_ids: &[ID],
        default_value: V,
    ) -> Result<VecProgress<ID, V, P, QS>, AllocError>
        ensures upgraded { IfOk result (λ p. IsUpgraded ID.eq self.now p quorum_set (QS.members quorum_set) learner_ids.now default_value) }
        ensures built_with { IfOk result (λ p. p.built_with ≡ V.borrowed default_value) }
        ensures counted { IfOk result (λ p. IsCounted ID.eq P.cmp V.borrowed QS.accepts p) }
    {
        let ids = quorum_set.ids(alloc)?;
        let voters = self.carry_falling(alloc, ids.as_slice(), default_value)?;
        let learners = self.carry(alloc, learner_ids, default_value)?;
        let built_with = *default_value.borrow();
        let granted = granted_by(&quorum_set, voters.as_slice(), built_with);
        Ok(VecProgress {
            quorum_set,
            built_with,
            granted,
            voters,
            learners,
        })
    }

    /// The same with the voters by rising id, where each is found by halving as long as values are
    /// changed by `get_mut` alone. What is granted isn't counted (own).
    pub fn upgrade_by_id(
        &self,
        alloc: Global,
        quorum_set: QS,
        learner_ids: &[ID],
        default_value: V,
    ) -> Result<VecProgress<ID, V, P, QS>, AllocError>
        ensures upgraded { IfOk result (λ p. IsUpgraded ID.eq self.now p quorum_set (QS.members quorum_set) learner_ids.now default_value) }
        ensures voters { IfOk result (λ p. p.voters ≡ map (carried ID.eq self.now default_value) (QS.members quorum_set)) }
        ensures built_with { IfOk result (λ p. (p.built_with ≡ V.borrowed default_value) × (p.granted ≡ V.borrowed default_value)) }
    {
        let ids = quorum_set.ids(alloc)?;
        let voters = self.carry(alloc, ids.as_slice(), default_value)?;
        let learners = self.carry(alloc, learner_ids, default_value)?;
        let granted = *default_value.borrow();
        Ok(VecProgress {
            quorum_set,
            built_with: granted,
            granted,
            voters,
            learners,
        })
    }
}

impl<ID: NodeId, V: Display, P, QS> Display for VecProgress<ID, V, P, QS> {
    fn fmt<W: fmt::Write>(&self, f: &mut fmt::Formatter<W>) -> fmt::Result {
        write!(f, "{{")?;
        for (at, (id, value)) in Iter::new(
            self.voters.as_slice(),
            self.learners.as_slice(),
        ).enumerate()
        {
            if at > 0 {
                write!(f, ", ")?;
            }
            write!(f, "{id}: {value}")?;
        }
        write!(f, "}}")
    }
}
