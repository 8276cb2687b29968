//! A node's groups behind frames: bytes of a peer come, and bytes go out.
#![tactic(auto)]

mod answering;
mod frames;

pub use answering::{Answer, AnswerError, Outcome, answer_piece, ask_group, receive_frame};
pub use frames::{GroupFrame, frames_of};
