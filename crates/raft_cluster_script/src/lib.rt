//! Scripts of a cluster of nodes: each line is an event of it, or a question to it.
#![tactic(auto)]

mod answers;
mod calls;
mod either;
mod fuse;
mod run;
mod script;
mod stops;

pub use answers::{outcome_text, stop_text};
pub use calls::{event_of, tokens_after};
pub use either::EitherScript;
pub use raft_script_session::ScriptEnd;
pub use run::{run_either_script, run_script};
pub use script::Script;
