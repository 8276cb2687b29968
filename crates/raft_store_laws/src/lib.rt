//! What groups store in any history a store takes: laws, as contracts of functions without a body.
#![tactic(auto)]

mod laws;

pub use laws::{adding_machines_have_short_snapshots, stored_commands_are_storable};
