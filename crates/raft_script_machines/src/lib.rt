//! State machines in scripts: which lines propose their commands, and how their answers are printed.
#![tactic(auto)]

mod amounts;
mod keys;
mod machine;

pub use machine::ScriptMachine;
