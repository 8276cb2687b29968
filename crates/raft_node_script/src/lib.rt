//! Scripts of one node: each line is an event of it, or a question to it. What it sends comes as the
//! frames' bytes, and so does what its peers send it.
#![tactic(auto)]

mod answers;
mod clock;
mod home;
mod lines;
mod run;
mod script;

pub use home::{HomeRefusal, NodeHome};
pub use lines::{NodeLine, NodeLineError, ReadNodeLine, read_node_line};
pub use raft_script_session::ScriptEnd;
pub use run::run_node_script;
pub use script::NodeScript;
