//! Runs one node on the files of a directory: `raft_node_files DIRECTORY ID [SETTINGS]`. Each line
//! of standard input is an event of it, and is answered by a line; see docs/SCRIPT.md. Started again
//! on the directory it opens as after a crash.
#![tactic(auto)]

mod end;
mod home;
mod input;
mod output;
mod settings;
mod timers;

use crate::end::{End, end_of_script};
use home::DiskHome;
use input::KnownLines;
use output::Answers;
use raft_kv::KvMachine;
use raft_machines::AddingMachine;
use raft_node_script::{ScriptEnd, run_node_script};
use raft_script_lines::number_of;
use raft_script_machines::ScriptMachine;
use settings::{NodeSettings, SettingsFault, settings_in, settings_of_file};
use std::marker::PhantomData;
use std::process::ExitCode;
use std::thread::Threads;
use std::{env, io};

const USAGE: &str = "usage: raft_node_files DIRECTORY ID [kv] [SETTINGS]";

/// The word for nodes that keep values by keys.
const KV: &str = "kv";

const HELP: &str = "
Runs node ID on the files of DIRECTORY, which is made if it isn't there.
Its groups add up amounts. With `kv` they keep values by keys; the same
directory is to be opened with the same machine each time.
SETTINGS is a TOML file with settings of its log, and a table `timers` with
those of its groups' clocks. Without one a file is full at 64 KiB, the log
is cleaned past 256 KiB, and clocks run as docs/SCRIPT.md says.
The line `tick` lets a moment pass: the node asks itself for what is due.
Each line of standard input is answered by a line; docs/SCRIPT.md has them.
One that isn't understood is told on standard error, and passed over.

Statuses:
  0  the input ended
  1  a line was no event, though this program took it for one
  2  memory was refused
  3  the input can't be read
  4  the arguments are others
  5  the settings can't be read, or are refused
  6  the node wasn't opened
  7  an answer can't be written";

// Why the script ended is said on standard error, where neither the reader nor the writer has.
fn complain_of(rt: HostRuntime, end: ScriptEnd) {
    let _ = match end {
        ScriptEnd::NoEvent(line) => eprintln!(&rt; "raft: line {line} is no event"),
        ScriptEnd::Fault => eprintln!(&rt; "raft: the input doesn't end"),
        ScriptEnd::Done | ScriptEnd::Memory => Ok(()),
    };
}

// The node's script runs with these settings. Its files are opened on threads.
fn run<M: ScriptMachine, R: Threads + Sync>(
    threads: &R,
    rt: HostRuntime,
    id: u64,
    settings: NodeSettings,
) -> End {
    let input: io::Result<KnownLines<M, _>> = KnownLines::new(rt, id, rt.stdin());
    let Ok(mut input) = input else {
        return End::Memory;
    };
    let mut output = Answers::new(rt, rt.stdout());
    let NodeSettings { log, timers } = settings;
    let home: DiskHome<M> = DiskHome {
        rt,
        id,
        settings: log,
        of: PhantomData,
    };
    let end = run_node_script(
        threads,
        rt.alloc(),
        id,
        home,
        timers,
        &mut input,
        &mut output,
    );
    match (output.end, input.end) {
        (Some(end), _) => end,
        (None, Some(end)) => end,
        (None, None) => {
            complain_of(rt, end);
            end_of_script(end)
        }
    }
}

// The settings of the node, those of the file if there is one.
fn settings_at(
    rt: HostRuntime,
    directory: &str,
    file: Option<&str>,
) -> Result<NodeSettings, SettingsFault> {
    match file {
        Some(file) => settings_of_file(&rt, directory, file),
        None => settings_in(rt.alloc(), directory, ""),
    }
}

// Why settings aren't taken is said on standard error.
fn refuse_settings(rt: HostRuntime, file: Option<&str>, why: &SettingsFault) -> End {
    if let SettingsFault::Memory = why {
        return End::Memory;
    }
    let file = file.unwrap_or("settings");
    let _ = eprintln!(&rt; "raft: {file}: {why}");
    End::Settings
}

// A node with such machines on a directory, by settings of a file if there is one.
fn run_in<M: ScriptMachine, R: Threads + Sync>(
    threads: &R,
    rt: HostRuntime,
    directory: &str,
    id: &str,
    file: Option<&str>,
) -> End {
    let Some(id) = number_of(id) else {
        let _ = eprintln!(&rt; "raft: {id}: an id is a number below 2^64\n{USAGE}");
        return End::Arguments;
    };
    match settings_at(rt, directory, file) {
        Ok(settings) => run::<M, R>(threads, rt, id, settings),
        Err(why) => refuse_settings(rt, file, &why),
    }
}

// Usage and statuses, on standard output.
fn help(rt: HostRuntime) -> End {
    match println!(&rt; "{USAGE}\n{HELP}") {
        Ok(()) => End::Done,
        Err(_) => End::Output,
    }
}

// The arguments are others.
fn usage(rt: HostRuntime) -> End {
    let _ = eprintln!(&rt; "{USAGE}");
    End::Arguments
}

// A node with such machines. At most one word is left, the file of settings.
fn run_with<M: ScriptMachine, R: Threads + Sync>(
    threads: &R,
    rt: HostRuntime,
    directory: &str,
    id: &str,
    words: &[String],
) -> End {
    match words {
        [] => run_in::<M, R>(threads, rt, directory, id, None),
        [file] => run_in::<M, R>(threads, rt, directory, id, Some(file.as_str())),
        _ => usage(rt),
    }
}

// What the arguments ask for.
fn run_words<R: Threads + Sync>(threads: &R, rt: HostRuntime, words: &[String]) -> End {
    match words {
        [_, word] if word.as_str() == "--help" => help(rt),
        [_, directory, id, word, left @ ..] if word.as_str() == KV => {
            run_with::<KvMachine, R>(threads, rt, directory.as_str(), id.as_str(), left)
        }
        [_, directory, id, left @ ..] => {
            run_with::<AddingMachine, R>(threads, rt, directory.as_str(), id.as_str(), left)
        }
        _ => usage(rt),
    }
}

fn main(rt: HostRuntime) -> ExitCode {
    let Ok(words) = env::args(&rt) else {
        return ExitCode::from(End::Memory.status());
    };
    let Ok(words) = words.collect(rt.alloc()) else {
        return ExitCode::from(End::Memory.status());
    };
    let words: Vec<String> = words;
    let end = run_words(&rt, rt, words.as_slice());
    let _ = match end {
        End::Memory => eprintln!(&rt; "raft: out of memory"),
        End::Opening => eprintln!(&rt; "raft: the node isn't opened"),
        _ => Ok(()),
    };
    ExitCode::from(end.status())
}
