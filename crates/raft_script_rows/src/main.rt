//! Reads lines of scripts, and runs scripts whose lines are only counted: one on each line of the input.
//!
//! In a row `|` stands for a newline and `%FF` for a byte. These are the rows:
//!
//! - `read LINE`: of which kind the line is, or why it is no event;
//! - `comment N`: the same of `#` and N bytes more;
//! - `session run SCRIPT`: each line of the script is answered by its length, but that `!` is no event and
//!   `?` finds no memory; how it ends and what it answers is printed;
//! - `session comment N SCRIPT`: `nodes 1|`, then N times `#`, then the script;
//! - `session pieces N READ ROOM SCRIPT`: the reader and the writer take N bytes at a time and are
//!   interrupted before each; the reader fails behind READ bytes and the writer without ROOM;
//! - `session flushes N READ SCRIPT`: the reader gives N bytes at a time and fails behind READ bytes, and
//!   each flush is written as `~`: an answer is flushed before more is read;
//! - `session reads N LENGTH`: `nodes 1|` and a comment of so many bytes, by a reader that gives N bytes
//!   at a time: how many were given, and how many were asked for at most;
//! - `= TEXT`: the text.
#![tactic(auto)]

mod broken;
mod rows;
mod sessions;

use raft_script_lines::{ScriptLine, read_line};
use rows::{bytes_of, number_in};
use sessions::session;
use std::alloc::{AllocError, Global};
use std::io;
use std::thread::Threads;

// Of which kind a line is.
fn kind_of(line: &ScriptLine) -> &'static str {
    match line {
        ScriptLine::Skipped => "skipped",
        ScriptLine::Nodes { .. } => "nodes",
        ScriptLine::Kv { .. } => "kv",
        ScriptLine::Now { .. } => "now",
        ScriptLine::Total { .. } => "total",
        ScriptLine::Happens(_) => "an event",
        ScriptLine::Fuse { .. } => "an event with a fuse",
    }
}

// What the bytes of a line are.
fn line_text(alloc: Global, bytes: &[u8]) -> Result<String, AllocError> {
    match read_line(alloc, bytes) {
        Ok(line) => String::from_str(alloc, kind_of(&line)),
        Err(why) => format!(in alloc; "{why}"),
    }
}

// A comment of so many bytes behind its `#`.
fn comment_of(alloc: Global, words: &str) -> Result<Vec<u8>, AllocError> {
    let (length, _) = number_in(words);
    let mut line = b"#".to_vec(alloc)?;
    for _ in 0..length {
        line.push(b'x')?;
    }
    Ok(line)
}

// What a row is answered by.
fn answer<R: Threads + Sync>(
    rt: &R,
    alloc: Global,
    verb: &str,
    words: &str,
) -> Result<String, AllocError> {
    match verb {
        "read" => line_text(alloc, bytes_of(alloc, words)?.as_slice()),
        "comment" => line_text(alloc, comment_of(alloc, words)?.as_slice()),
        "session" => session(rt, alloc, words),
        _ => String::from_str(alloc, "no row"),
    }
}

fn main(rt: HostRuntime) -> io::Result<()> {
    for row in rt.lines(rt.alloc()) {
        let row = row?;
        let (verb, words) = row.split_once(' ').unwrap_or((row.as_str(), ""));
        if verb == "=" {
            println!(rt; "{row}")?;
        } else {
            println!(rt; "{row} -> {}", answer(&rt, rt.alloc(), verb, words)?)?;
        }
    }
    Ok(())
}
