//! Calls of the engine and of what it stands on, a row of text each, and what they answer: texts,
//! memberships, log ids, progress, storages in memory, an engine's events and handlers; and counted
//! work.
//!
//! Words are spelled as in `raft_row_values`. Each call stands behind a function without clauses: a
//! proof that carries the clauses of several calls takes many minutes.
//!
//! `bench 3 0 100 1000` is counted work: how many voters a group has, how many learners, how many
//! entries its log before, and how many commands the leader takes, one after the other, each with all
//! messages up to the last answer. Five more words may follow: how many leaders wrote the entries
//! before, one after the other, and how many of these have a membership; 1 where there is none; how
//! many heartbeats the leader sends before an entry of its own comes to anybody, how many elections it
//! wins before that, and how many places of a log like that are purged, one after the other; or none.
//! The answer is how many entries are committed, how many messages were sent, and how many places were
//! purged.
#![tactic(auto)]

mod benches;
mod engines;
mod events;
mod handlers;
mod lists;
mod memberships;
mod nodes;
mod progress;
mod rows;
mod sent;
mod setup;
mod storages;
mod texts;

use raft_rows::run;
use rows::Calls;
use std::io;

fn main(rt: HostRuntime) -> io::Result<()> {
    run(&rt, &mut Calls::new(rt.alloc()))
}
