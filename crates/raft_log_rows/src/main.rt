//! The log below its engine, a row of text each: files in memory and crashes, records and memtables,
//! settings and names, one log file, both queues of them, what they read as, and what cleaning keeps.
#![tactic(auto)]

mod batches;
mod bench;
mod crashes;
mod disk;
mod items;
mod looks;
mod memtables;
mod messages;
mod puts;
mod queues;
mod reading;
mod rows;
mod steps;
mod texts;
mod traces;
mod writing;

use raft_rows::run;
use rows::Floor;
use std::io;

fn main(rt: HostRuntime) -> io::Result<()> {
    run(&rt, &mut Floor::new(rt.alloc()))
}
