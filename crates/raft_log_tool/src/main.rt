//! Looks into the log of a node: `raft_log_tool COMMAND DIRECTORY`. The directory is read and never
//! changed; see docs/LOGTOOL.md.
#![tactic(auto)]

mod command;
mod copying;
mod directory;
mod failure;
mod holes;
mod lines;
mod repairing;
mod running;
mod sizes;
mod span;

use crate::command::{Command, CommandError, read_command};
use crate::failure::{End, Failure};
use crate::running::run;
use std::env;
use std::process::ExitCode;

const USAGE: &str = "\
usage: raft_log_tool dump DIRECTORY
       raft_log_tool check DIRECTORY
       raft_log_tool span DIRECTORY
       raft_log_tool sizes DIRECTORY
       raft_log_tool copy DIRECTORY TARGET
       raft_log_tool repair DIRECTORY TARGET MODE
       raft_log_tool --help";

const HELP: &str = "
Looks into the log files of a node's DIRECTORY, and changes nothing there.
  dump   each item of each file, and where a file's reading ended
  check  groups whose entries have a hole, and files that end at a fault
  span   for each queue its files, from the first to the last, and bytes
  sizes  bytes of entries and of keys by group, as found in the files
  copy   copies the files that an opening finds into TARGET, which is
         empty, or made
  repair copies them, and cuts each copy where its whole records end, as
         an opening by MODE does:
           absolute-consistency             cuts none
           tolerate-corrupted-tail-records  cuts the last file of a queue
           tolerate-any-corruption          cuts each
A directory that a node has open is refused. docs/LOGTOOL.md has the lines.

Statuses:
  0  done
  1  the check found something
  2  memory was refused
  3  the directory can't be read
  4  the arguments are others
  5  the target isn't empty, or can't be written
  6  a node has the directory open
  7  the output can't be written
  8  the mode refuses a fault: nothing is written";

// Usage and statuses, on standard output.
fn help(rt: HostRuntime) -> Result<End, Failure> {
    match println!(&rt; "{USAGE}\n{HELP}") {
        Ok(()) => Ok(End::Done),
        Err(why) => Err(Failure::Output(why)),
    }
}

// Which path a failure is about.
fn place_of<'a>(command: Command<'a>, why: &Failure) -> &'a str {
    match command {
        Command::Help => "--help",
        Command::Dump(directory)
        | Command::Check(directory)
        | Command::Span(directory)
        | Command::Sizes(directory) => directory,
        Command::Copy { directory, target }
        | Command::Repair {
            directory,
            target,
            ..
        } => {
            if why.is_of_target() {
                target
            } else {
                directory
            }
        }
    }
}

// Does what the arguments ask for, and says on standard error why it can't.
fn obey(rt: HostRuntime, command: Command) -> u8 {
    let done = match command {
        Command::Help => help(rt),
        other => run(rt, other),
    };
    match done {
        Ok(end) => end.status(),
        Err(why) => {
            let place = place_of(command, &why);
            let _ = eprintln!(&rt; "raft: {place}: {why}");
            why.status()
        }
    }
}

// The arguments are others.
fn refuse(rt: HostRuntime, why: CommandError) -> u8 {
    let _ = eprintln!(&rt; "raft: {why}\n{USAGE}");
    Failure::ARGUMENTS
}

fn main(rt: HostRuntime) -> ExitCode {
    let Ok(words) = env::args(&rt) else {
        return ExitCode::from(Failure::Memory.status());
    };
    let Ok(words) = words.collect(rt.alloc()) else {
        return ExitCode::from(Failure::Memory.status());
    };
    let words: Vec<String> = words;
    let status = match read_command(words.get(1..).unwrap_or(&[])) {
        Ok(command) => obey(rt, command),
        Err(why) => refuse(rt, why),
    };
    ExitCode::from(status)
}
