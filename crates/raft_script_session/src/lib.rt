//! A script that is read in pieces: bytes become lines, and lines are run and answered.
#![tactic(auto)]

mod end;
mod output;
mod reading;
mod run;
mod runner;

pub use end::ScriptEnd;
pub use run::run_lines;
pub use runner::LineRunner;
