//! The law of a cluster's node, and a cluster's records as the plain values of a history: laws over plain
//! values.
#![tactic(auto)]

pub mod rows;
