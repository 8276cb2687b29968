//! A file system for tests whose first write waits until another one, with the same gate, has come to
//! its first write, too; or of which one file is read only behind another. So a test can tell whether
//! two threads were at work at once.
#![tactic(auto)]

mod calls;
mod files;
mod gate;
mod late;

pub use files::GateFiles;
pub use gate::Gate;
pub use late::LateRead;
