//! What tracks the progress of peers.
ghost use Rattle.std.specs.Prelude.{◌≡◌, ◌++◌, true, false, Ok, Err, IsSome, Some, None, IfOk, OnOk, OnErr, if◌then◌else◌};
ghost use Rattle.std.specs.Ordering.{is_le};
ghost use Rattle.std.specs.Borrow.{LendsSo, sem};
ghost use Rattle.std.specs.Fn.{FnOnceReturnsAtMut};
ghost use Rattle.std.specs.Option.{option_copied, option_copied_mut};
ghost use Rattle.raft_quorums.specs.Nodes.{has_node};
ghost use Rattle.raft_progress.specs.Counted.{IsCounted, IsNoLess, IsSamePart};
ghost use Rattle.raft_progress.specs.Parts.{IsUpgraded, Parts, SetsValue, has_value, value_of, written};
ghost use Rattle.raft_progress.specs.Replay.{Increases};
ghost use Rattle.raft_progress.specs.Values.{value_at};

use crate::borrow::Borrow;
use crate::iter::Iter;
use crate::vec_progress::VecProgress;
use raft_quorums::QuorumSet;
use raft_values::NodeId;
use std::alloc::{AllocError, Global};

/// What tracks a value of each peer, and which of them a quorum has reached (openraft).
pub trait Progress<ID: NodeId, V: Copy + Borrow<P>, P: Copy + Ord, QS: QuorumSet<ID>> {
    // What contracts see of it.
    ghost parts: { Self → Parts ID V P QS };

    /// Changes the value of the id by the closure, which doesn't lower it, and answers what is
    /// granted: as an error where nobody has the id, and then nothing is changed.
    fn update_with<F: FnOnce(&mut V) + Drop>(&mut self, id: &ID, f: F) -> Result<P, P>
        requires callable { F.IsAlwaysCallable f }
        requires rises { (before value : V) → value_at ID.eq (parts self.old).voters id.now ≡ Some before → FnOnceReturnsAtMut F.FnOnce f before tt value
            → is_le (P.cmp (V.borrowed before) (V.borrowed value)) ≡ true }
        ensures sets { OnOk result ((before value : V) × (value_of ID.eq (parts self.old) id.now ≡ Some before)
            × FnOnceReturnsAtMut F.FnOnce f before tt value × SetsValue ID.eq (parts self.old) (parts self.new) id.now value) }
        ensures unknown { OnErr result (parts self.new ≡ parts self.old) }
        ensures counted { IsCounted ID.eq P.cmp V.borrowed QS.accepts (parts self.old) → IsCounted ID.eq P.cmp V.borrowed QS.accepts (parts self.new) }
        ensures grows { is_le (P.cmp (parts self.old).granted (parts self.new).granted) ≡ true }
        ensures answer { result ≡ (if has_value ID.eq (parts self.old) id.now then Ok (parts self.new).granted else Err (parts self.new).granted) };

    /// Sets the value of the id, which is no less than before, and answers what is granted: as an
    /// error where nobody has the id, and then nothing is changed.
    fn update(&mut self, id: &ID, value: V) -> Result<P, P>
        requires rises { IsNoLess P.cmp V.borrowed (value_at ID.eq (parts self.old).voters id.now) value }
        ensures sets { SetsValue ID.eq (parts self.old) (parts self.new) id.now value }
        ensures counted { IsCounted ID.eq P.cmp V.borrowed QS.accepts (parts self.old) → IsCounted ID.eq P.cmp V.borrowed QS.accepts (parts self.new) }
        ensures grows { is_le (P.cmp (parts self.old).granted (parts self.new).granted) ≡ true }
        ensures answer { result ≡ (if has_value ID.eq (parts self.old) id.now then Ok (parts self.new).granted else Err (parts self.new).granted) };

    /// Sets the value of the id if that raises it, and answers what is granted: as an error where
    /// nobody has the id, and then nothing is changed.
    fn increase_to(&mut self, id: &ID, value: V) -> Result<P, P>
        ensures increases { Increases ID.eq P.cmp V.borrowed (parts self.old) (parts self.new) id.now value }
        ensures counted { IsCounted ID.eq P.cmp V.borrowed QS.accepts (parts self.old) → IsCounted ID.eq P.cmp V.borrowed QS.accepts (parts self.new) }
        ensures grows { is_le (P.cmp (parts self.old).granted (parts self.new).granted) ≡ true }
        ensures answer { result ≡ (if has_value ID.eq (parts self.old) id.now then Ok (parts self.new).granted else Err (parts self.new).granted) };

    /// The value of the id, or None where nobody has it.
    fn try_get(&self, id: &ID) -> Option<&V>
        ensures { option_copied result ≡ value_of ID.eq (parts self.now) id.now };

    /// The value of the id to be written, or None where nobody has it. What is granted stays
    /// counted where the part that is compared stays, or the id is a learner's. Where a voter's
    /// part is changed it is no longer promised, and nothing else breaks.
    fn get_mut(&mut self, id: &ID) -> Option<&mut V>
        ensures* writes_back { sem 𝓛 (LendsSo Self.row V.row self.entry result
            (λ after value. parts after ≡ written ID.eq (parts self.old) id.now value) (λ after. parts after ≡ parts self.old)) }
        ensures value { option_copied_mut result ≡ value_of ID.eq (parts self.old) id.now }
        ensures sets { (value : V) → SetsValue ID.eq (parts self.old) (written ID.eq (parts self.old) id.now value) id.now value }
        ensures counted { (value : V) → IsSamePart V.borrowed (value_at ID.eq (parts self.old).voters id.now) value
            → IsCounted ID.eq P.cmp V.borrowed QS.accepts (parts self.old)
            → IsCounted ID.eq P.cmp V.borrowed QS.accepts (written ID.eq (parts self.old) id.now value) };

    /// The value of the id, which somebody has.
    fn get(&self, id: &ID) -> &V
        requires { IsSome (value_of ID.eq (parts self.now) id.now) }
        ensures { Some result.now ≡ value_of ID.eq (parts self.now) id.now };

    /// What is granted.
    fn granted(&self) -> &P
        ensures { result.now ≡ (parts self.now).granted };

    /// The quorum set that counts.
    fn quorum_set(&self) -> &QS
        ensures { result.now ≡ (parts self.now).quorum_set };

    /// The ids with their values, voters first, then learners.
    fn iter(&self) -> Iter<'_, ID, V>
        ensures { result ≡ (parts self.now).voters ++ (parts self.now).learners };

    /// The progress of another quorum set's voters and of these learners: who has a value here
    /// keeps it, the others begin at the default.
    fn upgrade_quorum_set(
        &self,
        alloc: Global,
        quorum_set: QS,
        learner_ids: &[ID],
        default_value: V,
    ) -> Result<Self, AllocError>
    where
        Self: Sized,
        ensures upgraded { IfOk result (λ p. IsUpgraded ID.eq (parts self.now) (parts p) quorum_set (QS.members quorum_set) learner_ids.now default_value) }
        ensures built_with { IfOk result (λ p. (parts p).built_with ≡ V.borrowed default_value) }
        ensures counted { IfOk result (λ p. IsCounted ID.eq P.cmp V.borrowed QS.accepts (parts p)) };

    /// Whether the id is a voter's, or None where nobody has it.
    fn is_voter(&self, id: &ID) -> Option<bool>
        ensures { result ≡ (if has_node ID.eq (parts self.now).voters id.now then Some true else (if has_node ID.eq (parts self.now).learners id.now then Some false else None)) };
}

impl<ID: NodeId, V: Copy + Borrow<P>, P: Copy + Ord, QS: QuorumSet<ID> + Drop> Progress<
    ID,
    V,
    P,
    QS,
> for VecProgress<ID, V, P, QS> {
    ghost parts = { λ p. p };

    fn update_with<F: FnOnce(&mut V) + Drop>(&mut self, id: &ID, f: F) -> Result<P, P> {
        VecProgress::update_with(self, id, f)
    }

    fn update(&mut self, id: &ID, value: V) -> Result<P, P> {
        VecProgress::update(self, id, value)
    }

    fn increase_to(&mut self, id: &ID, value: V) -> Result<P, P> {
        VecProgress::increase_to(self, id, value)
    }

    fn try_get(&self, id: &ID) -> Option<&V> {
        VecProgress::try_get(self, id)
    }

    fn get_mut(&mut self, id: &ID) -> Option<&mut V> {
        VecProgress::get_mut(self, id)
    }

    fn get(&self, id: &ID) -> &V {
        VecProgress::get(self, id)
    }

    fn granted(&self) -> &P {
        VecProgress::granted(self)
    }

    fn quorum_set(&self) -> &QS {
        VecProgress::quorum_set(self)
    }

    fn iter(&self) -> Iter<'_, ID, V> {
        VecProgress::iter(self)
    }

    fn upgrade_quorum_set(
        &self,
        alloc: Global,
        quorum_set: QS,
        learner_ids: &[ID],
        default_value: V,
    ) -> Result<Self, AllocError> {
        VecProgress::upgrade_quorum_set(self, alloc, quorum_set, learner_ids, default_value)
    }

    fn is_voter(&self, id: &ID) -> Option<bool> {
        VecProgress::is_voter(self, id)
    }
}
