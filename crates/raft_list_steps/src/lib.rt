//! The list of a group behind an event, by what is heard of the event.
#![tactic(auto)]

mod events;
mod hearing;
mod laws;
mod report;
mod start;

pub use events::list_behind;
pub use hearing::hear;
pub use laws::events_accept_once;
pub use raft_list_facts::{Acceptance, Base, Leading};
pub use report::{GroupReport, SetUp};
