//! Sections of rows: a line `== NAME` begins each, and the end of its name says what its lines are. What
//! stands before the first one is passed over.
//!
//! - `, rounds`: each line is a round on three nodes, events with `; ` between them, beside the same events
//!   one after another;
//! - `, listed`: a script on a cluster that keeps the list of each group; behind a fuse with `most` before
//!   it a crash leaves what reads see. `, listed in memory` is the same over logs in memory;
//! - `, bench`: each line is a task whose work is counted;
//! - `, in memory`: a script on nodes over logs in memory; how it ended is the last line;
//! - `, small files`: a script on nodes whose log files have 1 KB, and are cleaned past 4 KB;
//! - any other: a script.

use crate::bench::run_task;
use crate::kind::{NodeKind, RoundKind};
use crate::listed::Listed;
use crate::pair::Pair;
use raft_cluster_script::run_script;
use std::alloc::Global;
use std::io;
use std::thread::Threads;

// A script runs, and what it is answered is printed.
fn print_script<K: NodeKind, R: Print + Threads + Sync>(
    rt: &R,
    alloc: Global,
    file_size: u32,
    script: &str,
) -> io::Result<()> {
    let settings = K::settings(alloc, file_size, file_size.saturating_mul(4))?;
    let mut reader = script.as_bytes();
    let mut written = Vec::new(alloc);
    let end = run_script::<K::Node, _, _, _>(rt, alloc, settings, &mut reader, &mut written);
    let text = str::from_utf8(written.as_slice()).unwrap_or("no UTF-8");
    println!(rt; "{text}-- {end:?}")
}

fn print_rounds<K: RoundKind, R: Print + Threads + Sync>(
    rt: &R,
    pair: &mut Pair<K>,
    lines: &str,
) -> io::Result<()> {
    for line in lines.lines() {
        println!(rt; "{}", pair.line(rt, line)?)?;
    }
    Ok(())
}

fn print_listed<K: NodeKind, R: Print + Threads + Sync>(
    rt: &R,
    listed: &mut Listed<K>,
    lines: &str,
) -> io::Result<()> {
    for line in lines.lines() {
        println!(rt; "{}", listed.line(rt, line)?)?;
    }
    Ok(())
}

fn print_tasks<K: RoundKind, R: Print + Threads + Sync>(
    rt: &R,
    alloc: Global,
    lines: &str,
) -> io::Result<()> {
    for line in lines.lines() {
        println!(rt; "{}", run_task::<K, R>(rt, alloc, line)?)?;
    }
    Ok(())
}

// The lines of a section of that kind.
fn print_lines<F: RoundKind, P: NodeKind, R: Print + Threads + Sync>(
    rt: &R,
    alloc: Global,
    kind: &str,
    lines: &str,
) -> io::Result<()> {
    match kind {
        "rounds" => print_rounds(rt, &mut Pair::<F>::new(rt, alloc)?, lines),
        "listed" => print_listed(rt, &mut Listed::<F>::new(rt, alloc)?, lines),
        "listed in memory" => print_listed(rt, &mut Listed::<P>::new(rt, alloc)?, lines),
        "bench" => print_tasks::<F, R>(rt, alloc, lines),
        "in memory" => print_script::<P, R>(rt, alloc, 64, lines),
        "small files" => print_script::<F, R>(rt, alloc, 1, lines),
        _ => print_script::<F, R>(rt, alloc, 64, lines),
    }
}

/// Prints what the lines of each section are answered by: on nodes of the first kind, which are on
/// files, or of the other one, which are over logs in memory.
pub fn print_sections<F: RoundKind, P: NodeKind, R: Print + Threads + Sync>(
    rt: &R,
    alloc: Global,
    input: &str,
) -> io::Result<()> {
    for section in input.split("== ").skip(1) {
        let (name, lines) = section.split_once('\n').unwrap_or((section, ""));
        let (_, kind) = name.rsplit_once(", ").unwrap_or(("", ""));
        println!(rt; "== {name}")?;
        print_lines::<F, P, R>(rt, alloc, kind, lines)?;
    }
    Ok(())
}
