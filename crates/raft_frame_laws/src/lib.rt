//! What a group's step sends has frames, and what a frame brings is within the limits of steps:
//! laws, as contracts of functions without a body.
#![tactic(auto)]

mod laws;

pub use laws::{
    few_bytes_have_frames, frames_fit_steps, messages_that_have_frames, snapshots_have_frames,
    steps_have_frames,
};
