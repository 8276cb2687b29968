//! What the type of a cluster keeps, so that its runs carry the headline: laws over plain values.
#![tactic(auto)]

pub mod acting;
pub mod keeping;
pub mod rows;
