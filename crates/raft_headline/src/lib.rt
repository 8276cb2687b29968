//! What a cluster's history promises of each group: laws of plain histories, machines and the filter to a group.
#![tactic(auto)]

pub mod filter;
pub mod folds;
pub mod headline;
pub mod rows;
