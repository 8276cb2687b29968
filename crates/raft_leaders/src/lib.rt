//! A node that stands for election, and a node that leads: who has granted the vote, which log ids
//! the leader gives, and what it knows of each peer.
#![tactic(auto)]

pub mod accepted;
pub mod candidate;
pub mod granters;
pub mod leader;

pub use accepted::greatest_accepted;
pub use candidate::Candidate;
pub use granters::Granters;
pub use leader::Leader;
