//! Why nodes of a cluster stop: laws, as contracts of functions without a body.
#![tactic(auto)]

mod causes;
mod files;

pub use causes::log_nodes_stop_for_cause;
pub use files::file_nodes_stop_for_cause;
