//! Worked runs of two queues, each with the content that it has to give and what a rule that was
//! taken word for word gives in its place. Each row is computed in its clauses.
#![tactic(auto)]

pub mod anew;
pub mod rows;
