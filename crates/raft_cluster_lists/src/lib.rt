//! What a cluster keeps of the one list of each group, and the laws by which that goes on.
#![tactic(auto)]

mod brought;
mod each;
mod keeping;
mod kept;
mod lists;

pub use brought::{Brought, brought_by, group_of};
pub use keeping::{events_go_on, lists_are_kept};
pub use kept::{KeptGroup, StoppedCall};
pub use lists::ClusterLists;
