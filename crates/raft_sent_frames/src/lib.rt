//! The frames that the nodes of a cluster sent, numbered by group in the order of sending.
#![tactic(auto)]

mod accepted;
mod frame;
mod sending;
mod sent_frames;
mod sequence;

pub use accepted::first_accepted;
pub use frame::{NodeFrame, SentFrame, SentNumber};
pub use sent_frames::SentFrames;
pub use sequence::Sequence;
