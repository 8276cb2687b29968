//! Runs of clusters whose nodes may be of any kind, and what came of them as text: sections of rows, for
//! a program that names the kinds.
#![tactic(auto)]

mod bench;
mod kind;
mod lines;
mod listed;
mod pair;
mod sections;

pub use kind::{NodeKind, RoundKind};
pub use sections::print_sections;
