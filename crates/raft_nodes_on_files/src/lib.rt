//! Nodes of a cluster, each on files of its own in memory.
#![tactic(auto)]

mod file_node;
mod law;
mod opening;
mod reading;
mod settings;
mod stops;

pub use file_node::FileNode;
pub use law::{nodes_on_files_keep_the_law, run_on_files, run_round_on_files};
pub use opening::{Kept, abandon_node, close_node, files_of, open_node};
pub use reading::{applied_on_files, machine_on_files, told_entry_on_files};
pub use settings::log_settings;
pub use stops::file_nodes_stop_as_asked;
