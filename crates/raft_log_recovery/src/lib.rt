//! Opening log files that are there: which of them count, and what each is cut to.
#![tactic(auto)]

mod both;
mod builder;
mod directories;
mod laws;
mod machine;
mod opening;
mod queue;
mod reading;
mod recover;
mod repair;
mod scan;
mod stale;

pub use builder::DualPipesBuilder;
pub use laws::{any_fault_is_tolerated, crashed_pipes_are_found, one_directory_is_enough};
pub use machine::{DefaultMachineFactory, Factory, MergeMachine, NewMachine, ReplayMachine};
pub use queue::open_file;
pub use reading::{ReadFile, replay_file};
pub use recover::recover_file;
pub use repair::{FileEnd, repair_file};
pub use scan::{FileKind, FileName};
