//! What a node knows of its stored group.
#![tactic(auto)]

mod key_leaders;
pub mod known_state;
mod member_ids;
mod terms;

pub use known_state::KnownState;
