//! What a node applies of a group: its machine, how far that has run, and who waits to be told.
#![tactic(auto)]

mod applied;
mod applier;
mod building;
mod running;
mod seen;
mod waiting;

pub use applied::{Applied, Progress};
pub use applier::Applier;
