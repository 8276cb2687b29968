//! Pieces of the peers' streams.
ghost use Rattle.std.specs.Prelude.{◌≡◌, ◌≤◌, ◌<◌, ◌++◌, [], ℕ, List, length, true, false, vec_len, vec_capacity};
ghost use Rattle.std.specs.Prelude.{Err, IfOk, IfSome, OnErr, OnOk, None, Some, is_some, option_and_then};
ghost use Rattle.std.specs.Ordering.{nat_cmp};
ghost use Rattle.std.specs.BTreeMap.{get};
ghost use Rattle.raft_wire.specs.Frames.{FitsFrame, spelled_frame};
ghost use Rattle.raft_wire.specs.Stream.{Answers, IsSpelledSo, front, fresh};
ghost use Rattle.raft_wire.specs.declared.frame.Frame.{Frame as Spoken};
ghost use Rattle.raft_node_faults.specs.Fault.{fault_met_by_node, storage_fault_of};
ghost use Rattle.raft_node_faults.specs.declared.fault.Fault.TheVariants.{Failed};
ghost use Rattle.raft_node.specs.Feeding.{FeedsPart, FeedsTo, FeedsWhole, IsFrame, TakesNext, so_far};
ghost use Rattle.raft_node.specs.Standing.{feeding_of, value_of};

use crate::naming::with_one;
use crate::node::Node;
use crate::outcome::{Fed, Outcome};
use raft_framed_groups::receive_frame;
use raft_group_storage::GroupStorage;
use raft_machines::StateMachine;
use raft_messages::SnapshotBytes;
use raft_node_faults::{Cause, Fault};
use raft_wire::{Fed as Read, Feeder, Frame};
use std::alloc::{AllocError, Global};
use std::collections::BTreeMap;

// The peer has a stream.
fn open_stream(
    alloc: Global,
    feeders: &mut BTreeMap<u64, Feeder>,
    peer: u64,
) -> Result<(), AllocError>
    ensures there { OnOk result (is_some (get nat_cmp feeders.new peer) ≡ true) }
    ensures same { (other : ℕ) → feeding_of (get nat_cmp feeders.new other) ≡ feeding_of (get nat_cmp feeders.old other) }
{
    if feeders.contains_key(&peer) {
        return Ok(());
    }
    match feeders.insert(peer, Feeder::new(alloc)) {
        Ok(_) => Ok(()),
        Err(refused) => Err(AllocError::from(refused)),
    }
}

// There is room for the peer's stream, and for what one more frame of it does.
fn make_room(
    alloc: Global,
    feeders: &mut BTreeMap<u64, Feeder>,
    outcomes: &mut Vec<Outcome>,
    peer: u64,
) -> Result<(), AllocError>
    ensures there { OnOk result (is_some (get nat_cmp feeders.new peer) ≡ true) }
    ensures same { (other : ℕ) → feeding_of (get nat_cmp feeders.new other) ≡ feeding_of (get nat_cmp feeders.old other) }
    ensures items { outcomes.new.items ≡ outcomes.old.items }
    ensures room { OnOk result (vec_len outcomes.new < vec_capacity outcomes.new) }
{
    open_stream(alloc, feeders, peer)?;
    outcomes.reserve(1)
}

// The piece comes to the peer's stream, which is there.
fn read_piece(feeders: &mut BTreeMap<u64, Feeder>, peer: u64, piece: &[u8]) -> Read
    requires { is_some (get nat_cmp feeders.old peer) ≡ true }
    ensures answers { Answers (feeding_of (get nat_cmp feeders.old peer)) piece.now result.used result.frame (feeding_of (get nat_cmp feeders.new peer)) }
    ensures spelled { IsSpelledSo (feeding_of (get nat_cmp feeders.old peer)).held piece.now result.used result.frame }
    ensures waited { front (feeding_of (get nat_cmp feeders.old peer)).held ≡ None }
    ensures others { (other : ℕ) → (other ≡ peer → ⊥) → get nat_cmp feeders.new other ≡ get nat_cmp feeders.old other }
{
    match feeders.get_mut(&peer) {
        Some(feeder) => {
            // Says that no frame is whole in what is held.
            let _room = feeder.room();
            feeder.feed(piece)
        }
        None => Read {
            used: 0,
            frame: Ok(None),
        },
    }
}

// How many bytes of a piece were taken, and what they did.
#[derive(Drop)]
struct Step<F> {
    used: usize,
    outcome: Result<Option<Outcome>, Fault<F>>,
}

impl<M: StateMachine, S: GroupStorage<Snapshot = SnapshotBytes>> Node<M, S> {
    // The peer's frame comes to its group.
    fn take_frame(&mut self, peer: u64, frame: &Frame, now: u64) -> Result<Outcome, Fault<S::Fault>>
        ensures frame { IsFrame M.rules S.stands (self.new ≡ self.old) (value_of M.state S.is_well S.shows S.fails self.old)
            (value_of M.state S.is_well S.shows S.fails self.new) peer frame.now now result }
        ensures met { S.meets self.old.groups.storage self.new.groups.storage (fault_met_by_node result) }
    {
        let answered = receive_frame(self.alloc, &mut self.groups, peer, frame, now);
        self.settle(frame.group, answered)
    }

    // The next frame of a piece comes to its group, if it gets whole. Room for what it does comes
    // before it.
    fn feed_frame(
        &mut self,
        outcomes: &mut Vec<Outcome>,
        peer: u64,
        piece: &[u8],
        now: u64,
    ) -> Step<S::Fault>
        ensures next { TakesNext M.rules S.stands (value_of M.state S.is_well S.shows S.fails self.old)
            (value_of M.state S.is_well S.shows S.fails self.new) peer now piece.now result.used result.outcome }
        ensures within { result.used ≤ length piece.now }
        ensures progress { IfOk result.outcome (λ came. IfSome came (λ o. 0 < result.used)) }
        ensures items { outcomes.new.items ≡ outcomes.old.items }
        ensures room { OnOk result.outcome (vec_len outcomes.new < vec_capacity outcomes.new) }
        ensures met { S.meets self.old.groups.storage self.new.groups.storage (fault_met_by_node result.outcome) }
    {
        if make_room(self.alloc, &mut self.feeders, outcomes, peer).is_err() {
            return Step {
                used: 0,
                outcome: Err(self.stop(Cause::Memory)),
            };
        }
        let Read { used, frame } = read_piece(&mut self.feeders, peer, piece);
        match frame {
            Ok(None) => Step {
                used,
                outcome: Ok(None),
            },
            Ok(Some(frame)) => match self.take_frame(peer, &frame, now) {
                Ok(outcome) => Step {
                    used,
                    outcome: Ok(Some(outcome)),
                },
                Err(fault) => Step {
                    used,
                    outcome: Err(fault),
                },
            },
            Err(why) => Step {
                used,
                outcome: Err(self.stream_fault(why)),
            },
        }
    }

    // The frames of a piece come to their groups, at a node that hasn't failed.
    fn feed_frames(&mut self, peer: u64, piece: &[u8], now: u64) -> Fed<S::Fault>
        ensures frames { FeedsTo (value_of M.state S.is_well S.shows S.fails) M.rules S.stands peer now result.outcomes.items result.fault self.old self.new piece.now result.used }
        ensures met { S.meets self.old.groups.storage self.new.groups.storage (option_and_then storage_fault_of result.fault) }
    {
        let mut outcomes = Vec::new(self.alloc);
        let mut used = 0;
        while used < piece.len() {
            let Step {
                used: taken,
                outcome,
            } = self.feed_frame(&mut outcomes, peer, &piece[used..], now);
            used += taken;
            match outcome {
                Ok(Some(outcome)) => outcomes = with_one(outcomes, outcome),
                Ok(None) => {
                    return Fed {
                        outcomes,
                        fault: None,
                        used,
                    };
                }
                Err(why) => {
                    return Fed {
                        outcomes,
                        fault: Some(why),
                        used,
                    };
                }
            }
        }
        Fed {
            outcomes,
            fault: None,
            used,
        }
    }

    /// A piece of a peer's stream comes at this moment, in ticks (own). Each frame that gets whole
    /// comes to its group, in order. The first one that is refused ends that: its bytes are taken, and
    /// the rest of the piece isn't. Refused as `Failed` (11), `Frame` (15: the stream answers so until
    /// `reset_peer`), `WrongParty` (12), `UnknownGroup` (2), `NumberAtEnd` (10), `BreaksCondition` (14);
    /// behind 12, 2, 10 and 14 the stream goes on.
    pub fn feed(&mut self, peer: u64, piece: &[u8], now: u64) -> Fed<S::Fault>
        ensures failed { self.old.groups.has_failed ≡ true → (result.outcomes.items ≡ []) × (result.fault ≡ Some Failed) × (result.used ≡ 0) × (self.new ≡ self.old) }
        ensures frames { self.old.groups.has_failed ≡ false
            → FeedsTo (value_of M.state S.is_well S.shows S.fails) M.rules S.stands peer now result.outcomes.items result.fault self.old self.new piece.now result.used }
        ensures whole { (frame : Spoken) → self.old.groups.has_failed ≡ false → (feeding_of (get nat_cmp self.old.feeders peer)).failed ≡ false → FitsFrame frame
            → 0 < length piece.now → so_far (value_of M.state S.is_well S.shows S.fails self.old) peer piece.now ≡ spelled_frame frame
            → FeedsWhole M.rules S.stands (value_of M.state S.is_well S.shows S.fails self.old) (value_of M.state S.is_well S.shows S.fails self.new) peer now
            frame piece.now result.outcomes.items result.fault result.used }
        ensures part { (frame : Spoken) (more : List ℕ) → self.old.groups.has_failed ≡ false → (feeding_of (get nat_cmp self.old.feeders peer)).failed ≡ false → FitsFrame frame
            → 0 < length more → so_far (value_of M.state S.is_well S.shows S.fails self.old) peer piece.now ++ more ≡ spelled_frame frame
            → FeedsPart M.rules S.stands (value_of M.state S.is_well S.shows S.fails self.old) (value_of M.state S.is_well S.shows S.fails self.new) peer now
            piece.now result.outcomes.items result.fault result.used }
        ensures met { S.meets self.old.groups.storage self.new.groups.storage (option_and_then storage_fault_of result.fault) }
    {
        if self.groups.has_failed {
            return Fed {
                outcomes: Vec::new(self.alloc),
                fault: Some(Fault::Failed),
                used: 0,
            };
        }
        self.feed_frames(peer, piece, now)
    }

    /// The peer's stream begins anew, and what was held of it goes (own). Refused as `Failed` (11).
    pub fn reset_peer(&mut self, peer: u64) -> Result<(), Fault<S::Fault>>
        ensures failed { self.old.groups.has_failed ≡ true → (result ≡ Err Failed) × (self.new ≡ self.old) }
        ensures fresh { OnOk result (feeding_of (get nat_cmp self.new.feeders peer) ≡ fresh) }
        ensures others { (other : ℕ) → (other ≡ peer → ⊥) → get nat_cmp self.new.feeders other ≡ get nat_cmp self.old.feeders other }
        ensures groups { self.new.groups ≡ self.old.groups }
        ensures machines { self.new.machines ≡ self.old.machines }
        ensures only { OnErr result (self.old.groups.has_failed ≡ true) }
    {
        if self.groups.has_failed {
            return Err(Fault::Failed);
        }
        if let Some(feeder) = self.feeders.get_mut(&peer) {
            feeder.reset();
        }
        Ok(())
    }
}
