//! Prints the text of each error that a library tells, under its type's name; and of values that no
//! other program prints.
#![tactic(auto)]

mod faults;
mod groups;
mod log_files;
mod logs;
mod nodes;
mod texts;
mod values;

use std::io;

fn main(rt: HostRuntime) -> io::Result<()> {
    groups::print(&rt)?;
    logs::print(&rt)?;
    log_files::print(&rt)?;
    nodes::print(&rt)?;
    faults::print(&rt, rt.alloc())?;
    values::print(&rt, rt.alloc())
}
