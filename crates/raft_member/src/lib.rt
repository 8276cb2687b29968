//! A member of a group at a node, over any storage: what comes to it is judged, done by its engine,
//! stored and sent.
#![tactic(auto)]

mod calls;
mod ending;
mod facts;
pub mod member;
mod messages;
mod opening;
mod ready;

pub use facts::facts_of;
pub use member::{Broken, ByteGroup, Ended, Member};
pub use ready::ready_states_stay_ready;
