//! Why a cluster refuses an event.
ghost use Rattle.std.specs.Prelude.{◌≡◌, [], Some, false, IfSome};
ghost use Rattle.raft_cluster_conditions.specs.Refusal.{is_of_crash, refusal_of};

use crate::cuts::are_cuts;
use thiserror::Error;

/// What is known of the node that an event is for (own).
#[derive(Clone, Copy, Debug, PartialEq, Eq)]
pub enum NodeStanding {
    /// There is no such node.
    Missing,
    /// It is down.
    Down,
    /// It is up.
    Up,
}

/// What an event asks of a cluster (own).
#[derive(Clone, Copy, PartialEq, Eq)]
pub enum Asked {
    /// A call of the node.
    Call,
    /// The group's set-up. `differs` says that an earlier one, which wasn't refused, named another
    /// membership.
    SetUp { differs: bool },
    /// A frame comes to the node, cut at some places. Its length is in bytes; there is none where
    /// no frame has that number.
    Delivery { length: Option<u64> },
    /// The node's files get a fuse, or lose it: up or down.
    Fuse,
    /// The node's machine stops.
    Crash,
    /// The node is opened again.
    Reopen,
}

/// Why a cluster refuses an event (own). Nothing changes but the history, and the run goes on.
#[derive(Clone, Copy, Debug, PartialEq, Eq, Error)]
pub enum ClusterRefusal {
    /// C1
    #[error("there is no such node")]
    NoNode,
    /// C2
    #[error("the node is down")]
    NodeDown,
    /// C3
    #[error("the node is up")]
    NodeUp,
    /// C4
    #[error("no such frame was sent")]
    NoFrame,
    /// C5
    #[error("the group was set up with another membership")]
    SetupDiffers,
    /// C6: only the node of a crash tells it.
    #[error("the crash would show by chance what nobody wrote")]
    ByChance,
    /// C7: only the node of a crash tells it.
    #[error("no crash leaves such files")]
    NotAnImage,
    /// C9
    #[error("the frame can't be cut there")]
    BadCut,
}

// Why a delivery is refused, or goes on to the node.
fn delivery_refusal(node: NodeStanding, length: u64, cuts: &[u64]) -> Option<ClusterRefusal>
    ensures first { result ≡ refusal_of node (Asked.Delivery (Some length)) cuts.now }
    ensures unseen { IfSome result (λ why. is_of_crash why ≡ false) }
{
    if let Some(why) = standing_refusal(node) {
        return Some(why);
    }
    if are_cuts(length, cuts) {
        None
    } else {
        Some(ClusterRefusal::BadCut)
    }
}

// Why an event of a node that has to be up is refused.
fn standing_refusal(node: NodeStanding) -> Option<ClusterRefusal>
    ensures first { result ≡ refusal_of node Asked.Call [] }
    ensures unseen { IfSome result (λ why. is_of_crash why ≡ false) }
{
    match node {
        NodeStanding::Missing => Some(ClusterRefusal::NoNode),
        NodeStanding::Down => Some(ClusterRefusal::NodeDown),
        NodeStanding::Up => None,
    }
}

/// Why the cluster refuses what is asked of it for this node, if it does (own). `cuts` counts at a
/// delivery alone. The first reason is told: no frame, no node, down or up, a bad cut, another
/// set-up. What only the node of a crash can tell is tried behind these.
pub fn refusal(node: NodeStanding, asked: Asked, cuts: &[u64]) -> Option<ClusterRefusal>
    ensures first { result ≡ refusal_of node asked cuts.now }
    ensures unseen { IfSome result (λ why. is_of_crash why ≡ false) }
{
    match asked {
        Asked::Delivery { length: None } => Some(ClusterRefusal::NoFrame),
        Asked::Delivery {
            length: Some(length),
        } => delivery_refusal(node, length, cuts),
        Asked::SetUp { differs: true } => {
            standing_refusal(node).or(Some(ClusterRefusal::SetupDiffers))
        }
        Asked::Call | Asked::SetUp { differs: false } | Asked::Crash => standing_refusal(node),
        Asked::Fuse => match node {
            NodeStanding::Missing => Some(ClusterRefusal::NoNode),
            NodeStanding::Down | NodeStanding::Up => None,
        },
        Asked::Reopen => match node {
            NodeStanding::Missing => Some(ClusterRefusal::NoNode),
            NodeStanding::Down => None,
            NodeStanding::Up => Some(ClusterRefusal::NodeUp),
        },
    }
}
