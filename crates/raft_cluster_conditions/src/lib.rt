//! When a cluster refuses an event before any node sees it, over plain facts of the event.
#![tactic(auto)]

mod cuts;
mod reasons;

pub use cuts::are_cuts;
pub use reasons::{Asked, ClusterRefusal, NodeStanding, refusal};
