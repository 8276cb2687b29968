//! Calls of a progress, one after the other.
ghost use Rattle.std.specs.Prelude.{◌≡◌, IfErr, OnOk};
ghost use Rattle.raft_progress.specs.Counted.{IsCounted};
ghost use Rattle.raft_progress.specs.Replay.{DoesItem, IsRefused, Replays, StopsBefore};

use crate::borrow::Borrow;
use crate::vec_progress::VecProgress;
use raft_quorums::QuorumSet;
use raft_values::NodeId;
use std::alloc::Global;
use thiserror::Error;

/// A call of a progress (own).
#[derive(Drop)]
pub enum ReplayItem<ID, V, QS> {
    /// The value of the id is set.
    Update {
        /// Whose value.
        id: ID,
        /// The value, no less than before for a voter.
        value: V,
    },
    /// The value of the id is set if that raises it.
    IncreaseTo {
        /// Whose value.
        id: ID,
        /// The value.
        value: V,
    },
    /// Another quorum set counts.
    UpgradeQuorumSet {
        /// The quorum set.
        quorum_set: QS,
        /// Who is followed beside its voters.
        learner_ids: Vec<ID>,
        /// The value of those who had none.
        default_value: V,
    },
}

/// Why a replay stops before an item (own).
#[derive(Clone, Copy, Debug, PartialEq, Eq, Error)]
pub enum ReplayError {
    /// The update would lower a voter's value.
    #[error("the update would lower a voter's value")]
    Lowers,
    /// There is no memory for another quorum set.
    #[error("out of memory")]
    Memory,
}

// Does one item, or changes nothing.
fn replay_item<ID: NodeId, V: Copy + Borrow<P>, P: Copy + Ord, QS: QuorumSet<ID> + Drop>(
    alloc: Global,
    progress: &mut VecProgress<ID, V, P, QS>,
    item: ReplayItem<ID, V, QS>,
) -> Result<(), ReplayError>
    ensures ok { OnOk result (DoesItem ID.eq P.cmp V.borrowed QS.members progress.old item progress.new) }
    ensures unchanged { IfErr result (λ error. progress.new ≡ progress.old) }
    ensures refused { IfErr result (IsRefused ID.eq P.cmp V.borrowed progress.old item) }
    ensures counted { IsCounted ID.eq P.cmp V.borrowed QS.accepts progress.old → IsCounted ID.eq P.cmp V.borrowed QS.accepts progress.new }
{
    match item {
        ReplayItem::Update { id, value } => {
            if progress.lowers(&id, &value) {
                return Err(ReplayError::Lowers);
            }
            let _ = progress.update(&id, value);
            Ok(())
        }
        ReplayItem::IncreaseTo { id, value } => {
            let _ = progress.increase_to(&id, value);
            Ok(())
        }
        ReplayItem::UpgradeQuorumSet {
            quorum_set,
            learner_ids,
            default_value,
        } => {
            let ids = learner_ids.as_slice();
            match progress.upgrade_quorum_set(alloc, quorum_set, ids, default_value) {
                Ok(next) => {
                    *progress = next;
                    Ok(())
                }
                Err(_) => Err(ReplayError::Memory),
            }
        }
    }
}

/// Does the items one after the other. What is granted stays counted over every list of them.
/// An update that would lower a voter's value, and a change for which there is no memory, ends
/// the replay: the progress is as the items before left it (own).
pub fn replay<ID: NodeId, V: Copy + Borrow<P>, P: Copy + Ord, QS: QuorumSet<ID> + Drop>(
    alloc: Global,
    progress: &mut VecProgress<ID, V, P, QS>,
    items: Vec<ReplayItem<ID, V, QS>>,
) -> Result<(), ReplayError>
    ensures ok { OnOk result (Replays ID.eq P.cmp V.borrowed QS.members progress.old items.items progress.new) }
    ensures err { IfErr result (StopsBefore ID.eq P.cmp V.borrowed QS.members progress.old items.items progress.new) }
    ensures counted { IsCounted ID.eq P.cmp V.borrowed QS.accepts progress.old → IsCounted ID.eq P.cmp V.borrowed QS.accepts progress.new }
{
    for item in items {
        replay_item(alloc, progress, item)?;
    }
    Ok(())
}
