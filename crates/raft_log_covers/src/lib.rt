//! Why two queues of log files read as the content, while old files of them go.
#![tactic(auto)]

pub mod account;
pub mod cells;
pub mod joined;
pub mod kept;
pub mod marks;
pub mod queues;
pub mod trace;
pub mod written;
