//! Streams, frames and entries as bytes, a row of text each, and what is read and written of them.
//!
//! `scripts/wire_rows` writes `stdin` and `stdout` by the format, and by a judge of its own.
#![tactic(auto)]

mod alone;
mod bench;
mod calls;
mod changing;
mod cutting;
mod entries;
mod frames;
mod rooms;
mod rows;
mod snapshots;

use raft_rows::run;
use rows::Calls;
use std::io;

fn main(rt: HostRuntime) -> io::Result<()> {
    run(&rt, &mut Calls::new(rt.alloc()))
}
