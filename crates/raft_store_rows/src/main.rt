//! Calls of a node's store over a log in memory, a row of text each.
//!
//! - `node 1`: the store of a node that has nothing;
//! - `again`: the store is opened again on its log;
//! - `begin-with 7 vote "\x00"`: the log has one key of one group, and nothing else;
//! - `7 make`, `7 vote 3-2`, `7 put 1-1-0 blank "one"`, `7 cut-from 1`, `7 remove-up-to 6-1-1`,
//!   `7 start-after 6-1-1`, `7 set-snapshot 6-1-1 1-1-0=1,2/1=a,2=b "state"`: what is stored;
//! - `groups`, `7 load`, `7 between - 2-1-1`, `7 snapshot`: what is read.
//!
//! `scripts/store_rows` writes `stdin` and `stdout` by a plain model of its own.
#![tactic(auto)]

mod calls;
mod rows;
mod store;
mod texts;

use raft_rows::run;
use std::io;
use store::Calls;

fn main(rt: HostRuntime) -> io::Result<()> {
    run(&rt, &mut Calls::new(rt.alloc()))
}
