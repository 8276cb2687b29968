//! Runs the script of a node.

use crate::home::NodeHome;
use crate::script::NodeScript;
use raft_script_session::{ScriptEnd, run_lines};
use raft_timers::TimerConfig;
use std::alloc::Global;
use std::io::{Read, Write};
use std::thread::Threads;

/// Opens the node of this id with what is stored at its home, and runs the script that the reader gives
/// (own); its groups' clocks have these settings. The answer of the opening is written first, and then
/// that of each line, before the next read waits. Lines, answers and statuses are described in docs/SCRIPT.md, "One node on a disk".
pub fn run_node_script<H: NodeHome, R: Read, W: Write, T: Threads + Sync>(
    rt: &T,
    alloc: Global,
    id: u64,
    home: H,
    timers: TimerConfig,
    reader: &mut R,
    writer: &mut W,
) -> ScriptEnd {
    let mut script = NodeScript::new(alloc, id, home, timers);
    let Ok(text) = script.reopen(rt) else {
        return ScriptEnd::Memory;
    };
    if writer.write_all(text.as_bytes()).is_err() || writer.flush().is_err() {
        return ScriptEnd::Fault;
    }
    run_lines(rt, alloc, &mut script, reader, writer)
}
