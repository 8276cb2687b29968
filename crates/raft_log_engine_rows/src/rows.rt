//! Rows, and what each is answered.

use crate::session::Session;
use crate::steps::take;
use raft_rows::number;
use std::io;
use std::thread::Threads;

/// Takes steps on no files.
fn take_steps<R: Threads + Sync>(rt: &R, at: &mut Session, round: u64, steps: &[&str]) {
    at.begin(round);
    for word in steps {
        take(rt, at, word);
    }
}

/// Takes steps for each number from a first one up to before a last one, as `1..5` says them.
fn take_rounds<R: Threads + Sync>(rt: &R, at: &mut Session, range: &str, steps: &[&str]) {
    let (first, end) = range.split_once("..").unwrap_or(("0", range));
    at.desk.told.begin_rounds();
    for round in number(first)..number(end) {
        take_steps(rt, at, round, steps);
        at.desk.told.note_round();
    }
    at.desk.told.end_rounds();
}

/// Takes what a row says.
fn ask<R: Threads + Sync>(rt: &R, at: &mut Session, row: &str) {
    at.desk.told.lacks_memory = false;
    let words: Result<Vec<&str>, _> = row.split_whitespace().collect(at.desk.alloc);
    match words.as_deref() {
        Ok(["each", range, steps @ ..]) => take_rounds(rt, at, range, steps),
        Ok(steps) => take_steps(rt, at, 0, steps),
        Err(_) => at.desk.told.lacks_memory = true,
    }
}

/// Prints a row with its answer behind `->`; an empty one and one that begins with `#` as they are.
/// Without memory for it the row is asked once more.
fn answer<R: Print + Threads + Sync>(rt: &R, at: &mut Session, row: &str) -> io::Result<()> {
    if row.is_empty() || row.starts_with('#') {
        return println!(rt; "{row}");
    }
    ask(rt, at, row);
    if at.desk.told.lacks_memory {
        ask(rt, at, row);
    }
    println!(rt; "{row} -> {}", at.desk.told.text())
}

/// Answers each line of standard input.
pub fn answer_all<R: Input + Print + AllocGlobal + Threads + Sync>(
    rt: &R,
    at: &mut Session,
) -> io::Result<()> {
    for line in rt.lines(rt.alloc()) {
        let line = line?;
        answer(rt, at, line.as_str())?;
    }
    Ok(())
}
