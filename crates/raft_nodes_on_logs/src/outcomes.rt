//! What a node's events do, as a cluster takes it.
ghost use Rattle.std.specs.Prelude.{◌≡◌, IfErr, IfOk, map};
ghost use Rattle.raft_node_laws.specs.Answered.{unsaid_of};
ghost use Rattle.raft_nodes_on_logs.specs.Answering.{node_frame, node_outcome};

use raft_cluster_events::{NodeFrame, NodeOutcome, Sequence, Unsaid};
use raft_framed_groups::GroupFrame;
use raft_node::Outcome;
use raft_state::Bytes;
use std::alloc::{AllocError, Global};

// The frames with their bytes.
fn frames_of(alloc: Global, frames: Vec<GroupFrame>) -> Result<Sequence<NodeFrame>, AllocError>
    ensures { IfOk result (λ taken. taken ≡ map node_frame frames.items) }
{
    let mut taken = Sequence::new(alloc);
    for frame in frames {
        let bytes = Bytes::from_slice(alloc, frame.bytes.as_slice())?;
        taken.push(NodeFrame {
            peer: frame.addressee,
            bytes,
            accepts: frame.accepts,
        })?;
    }
    Ok(taken)
}

/// The outcome of one event in its group. An `Err` is want of memory for its frames, and hands back its
/// tokens.
pub fn outcome_of(alloc: Global, outcome: Outcome) -> Result<NodeOutcome, Unsaid>
    ensures ok { IfOk result (λ o. o ≡ node_outcome outcome) }
    ensures err { IfErr result (λ unsaid. unsaid ≡ unsaid_of (node_outcome outcome)) }
{
    let Outcome {
        group,
        frames,
        told,
        unknown,
    } = outcome;
    let told = Sequence::from_vec(told);
    let unknown = Sequence::from_vec(unknown);
    match frames_of(alloc, frames) {
        Ok(frames) => Ok(NodeOutcome {
            group,
            frames,
            told,
            unknown,
        }),
        Err(_) => Err(Unsaid {
            group,
            told,
            unknown,
        }),
    }
}

/// The outcomes of an opening, in their order. An `Err` is want of memory.
pub fn outcomes_of(
    alloc: Global,
    outcomes: Vec<Outcome>,
) -> Result<Sequence<NodeOutcome>, AllocError>
    ensures { IfOk result (λ taken. taken ≡ map node_outcome outcomes.items) }
{
    let mut taken = Sequence::new(alloc);
    for outcome in outcomes {
        let Ok(outcome) = outcome_of(alloc, outcome) else {
            return Err(AllocError);
        };
        taken.push(outcome)?;
    }
    Ok(taken)
}
