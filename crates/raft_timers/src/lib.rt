//! The clock of a node's groups: moments in, what to ask the node for out. It calls nothing itself.
#![tactic(auto)]

mod config;
mod draw;
mod election;
mod interval;
mod laws;
mod lead;
mod majority;
mod policy;
mod request;
mod rows;
mod timers;
mod view;
mod wanted;

pub use config::{TimerConfig, TimerFault, TimerSettings};
pub use draw::draw_timeout;
pub use election::ElectionTimer;
pub use interval::Interval;
pub use laws::{
    elections_are_apart, elections_come_neither_early_nor_late, heartbeats_are_apart,
    logs_are_made_shorter_by_policy, lost_requests_have_waited, timeouts_lie_within_their_bounds,
    want_of_a_quorum_is_told_in_time,
};
pub use lead::Lead;
pub use majority::majority_heard;
pub use policy::{is_snapshot_due, purge_place};
pub use request::RequestTimer;
pub use rows::{
    faults_of_settings, logs_by_policy, majorities_that_are_heard, ticks_that_have_passed,
    timeouts_of_requests, words_of_the_generator,
};
pub use timers::Timers;
pub use view::GroupView;
pub use wanted::Wanted;

#[cfg(test)]
mod tests;
