//! A node: its groups over one storage, the machine of each, and its peers' streams.
#![tactic(auto)]

mod asking;
mod calls;
mod cleaning;
mod crash;
mod feeding;
mod fuse;
mod machines;
mod naming;
mod node;
mod opening;
mod outcome;
mod readers;
mod settling;

pub use node::Node;
pub use opening::{NotOpened, Opened};
pub use outcome::{Fed, Outcome};
pub use raft_machines::UnknownTokens;
pub use raft_node_faults::{Cause, Fault};
