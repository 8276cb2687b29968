//! Commands, run on a directory of the disk.
ghost use Rattle.std.specs.Prelude.{◌≡◌, IfOk, string_bytes};
ghost use Rattle.raft_log_tool.specs.Lines.{content_text, is_finding};

use crate::command::Command;
use crate::copying::{check_target, fork_directory, write_copies};
use crate::directory::read_directory;
use crate::failure::{End, Failure};
use crate::holes::text_of_holes;
use crate::lines::push_items;
use crate::repairing::repair_directory;
use crate::sizes::GroupSizes;
use crate::span::{sizes_of, text_of_span};
use raft_log_contents::{
    Ending, LogContent, LogFile, files_of_queue, push_cut, push_ending, read_content,
};
use raft_log_files::{Error, FileSystem, MemoryFileSystem, RecoveryMode};
use raft_log_records::LogQueue;
use raft_log_tools::{CopyDetails, consistency_check};
use std::alloc::{AllocError, Global};
use std::io::Write;

/// The queues, in the order in which an opening replays them.
const QUEUES: [LogQueue; 2] = [LogQueue::Rewrite, LogQueue::Append];

// The text gets onto standard output.
fn print(rt: &HostRuntime, text: &str) -> Result<(), Failure> {
    let mut output = rt.stdout();
    match output.write_all(text.as_bytes()) {
        Ok(()) => Ok(()),
        Err(why) => Err(Failure::Output(why)),
    }
}

// The lines of a file: its items, and where its reading ended.
fn text_of_content(
    alloc: Global,
    file: &LogFile,
    content: &LogContent,
) -> Result<String, AllocError>
    ensures { IfOk result (λ text. string_bytes text ≡ content_text file.now.id content.now) }
{
    let mut text = String::new(alloc);
    push_items(alloc, &mut text, file.id, content.items.as_slice())?;
    push_ending(&mut text, file.id, content.ending, content.to, content.size)?;
    Ok(text)
}

// Each item of the files of a queue.
fn dump_queue<F: FileSystem>(
    rt: &HostRuntime,
    files: &mut F,
    directory: &str,
    queue: LogQueue,
) -> Result<(), Failure> {
    for file in &files_of_queue(files, rt.alloc(), directory, queue)? {
        let content = read_content(files, rt.alloc(), file)?;
        print(rt, text_of_content(rt.alloc(), file, &content)?.as_str())?;
    }
    Ok(())
}

// Whether a check tells of a file that ended so: of room only where another file follows.
fn is_finding(ending: Ending, is_last: bool) -> bool
    ensures { result ≡ is_finding ending is_last }
{
    match ending {
        Ending::Whole => false,
        Ending::Room => !is_last,
        Ending::Fault(_) => true,
    }
}

// The files of a queue that end at a fault, a line each, and whether there are any.
fn faults_of_queue<F: FileSystem>(
    files: &mut F,
    alloc: Global,
    directory: &str,
    queue: LogQueue,
) -> Result<String, Error> {
    let mut text = String::new(alloc);
    let found = files_of_queue(files, alloc, directory, queue)?;
    for (place, file) in found.iter().enumerate() {
        let content = read_content(files, alloc, file)?;
        if is_finding(content.ending, place + 1 == found.len()) {
            push_ending(&mut text, file.id, content.ending, content.to, content.size)?;
        }
    }
    Ok(text)
}

// Holes, and files that end at a fault.
fn check<F: FileSystem>(rt: &HostRuntime, files: &mut F, directory: &str) -> Result<End, Failure> {
    let alloc = rt.alloc();
    let holes = consistency_check(files, alloc, directory)?;
    let rewrite = faults_of_queue(files, alloc, directory, LogQueue::Rewrite)?;
    let append = faults_of_queue(files, alloc, directory, LogQueue::Append)?;
    print(rt, text_of_holes(alloc, holes.as_slice())?.as_str())?;
    print(rt, rewrite.as_str())?;
    print(rt, append.as_str())?;
    if holes.is_empty() && rewrite.is_empty() && append.is_empty() {
        Ok(End::Done)
    } else {
        Ok(End::Found)
    }
}

// The line of a queue's files.
fn span_of_queue<F: FileSystem>(
    rt: &HostRuntime,
    files: &mut F,
    directory: &str,
    queue: LogQueue,
) -> Result<(), Failure> {
    let found = files_of_queue(files, rt.alloc(), directory, queue)?;
    let sizes = sizes_of(files, rt.alloc(), found.as_slice())?;
    print(
        rt,
        text_of_span(rt.alloc(), queue, sizes.as_slice())?.as_str(),
    )
}

// Adds what the files of a queue have of each group.
fn add_queue<F: FileSystem>(
    files: &mut F,
    alloc: Global,
    directory: &str,
    queue: LogQueue,
    sizes: &mut GroupSizes,
) -> Result<(), Error> {
    for file in &files_of_queue(files, alloc, directory, queue)? {
        let content = read_content(files, alloc, file)?;
        sizes.add_items(content.items.as_slice())?;
    }
    Ok(())
}

// Bytes by group.
fn sizes<F: FileSystem>(rt: &HostRuntime, files: &mut F, directory: &str) -> Result<(), Failure> {
    let mut sizes = GroupSizes::new(rt.alloc());
    for queue in QUEUES {
        add_queue(files, rt.alloc(), directory, queue, &mut sizes)?;
    }
    print(rt, sizes.into_text(rt.alloc())?.as_str())
}

// A target's path without slashes at its end.
fn without_slashes(target: &str) -> &str {
    match target.trim_end_matches('/') {
        "" => "/",
        trimmed => trimmed,
    }
}

// A line for each copy.
fn print_copied(rt: &HostRuntime, copied: &[String]) -> Result<(), Failure> {
    for path in copied {
        print(rt, "copied ")?;
        print(rt, path.as_str())?;
        print(rt, "\n")?;
    }
    Ok(())
}

// The files that an opening finds in the directory, copied in memory under their names in the target.
fn copied(
    rt: &HostRuntime,
    directory: &str,
    target: &str,
) -> Result<(MemoryFileSystem, CopyDetails), Failure> {
    check_target(rt, directory, target)?;
    let mut files = read_directory(rt, directory)?;
    let details = fork_directory(&mut files, rt.alloc(), directory, target)?;
    Ok((files, details))
}

// The copies, in the target.
fn copy(rt: &HostRuntime, directory: &str, target: &str) -> Result<(), Failure> {
    let (mut files, details) = copied(rt, directory, target)?;
    write_copies(rt, &mut files, target, details.copied.as_slice())?;
    print_copied(rt, details.copied.as_slice())
}

// Where files of a queue are cut, a line each.
fn cuts_of_queue<F: FileSystem>(
    files: &mut F,
    alloc: Global,
    directory: &str,
    queue: LogQueue,
) -> Result<String, Error> {
    let mut text = String::new(alloc);
    for file in &files_of_queue(files, alloc, directory, queue)? {
        let content = read_content(files, alloc, file)?;
        push_cut(&mut text, file.id, &content)?;
    }
    Ok(text)
}

// The copies, each cut by the mode before it gets onto the disk. Where the mode refuses a fault
// nothing is written.
fn repair(
    rt: &HostRuntime,
    directory: &str,
    target: &str,
    mode: RecoveryMode,
) -> Result<(), Failure> {
    let (mut files, details) = copied(rt, directory, target)?;
    let rewrite = cuts_of_queue(&mut files, rt.alloc(), target, LogQueue::Rewrite)?;
    let append = cuts_of_queue(&mut files, rt.alloc(), target, LogQueue::Append)?;
    repair_directory(&mut files, rt.alloc(), target, mode).map_err(Failure::of_repairing)?;
    write_copies(rt, &mut files, target, details.copied.as_slice())?;
    print_copied(rt, details.copied.as_slice())?;
    print(rt, rewrite.as_str())?;
    print(rt, append.as_str())
}

/// Does what a command asks for. Nothing changes in its directory.
pub fn run(rt: HostRuntime, command: Command) -> Result<End, Failure> {
    match command {
        Command::Help => {}
        Command::Dump(directory) => {
            let mut files = read_directory(&rt, directory)?;
            for queue in QUEUES {
                dump_queue(&rt, &mut files, directory, queue)?;
            }
        }
        Command::Check(directory) => {
            let mut files = read_directory(&rt, directory)?;
            return check(&rt, &mut files, directory);
        }
        Command::Span(directory) => {
            let mut files = read_directory(&rt, directory)?;
            for queue in QUEUES {
                span_of_queue(&rt, &mut files, directory, queue)?;
            }
        }
        Command::Sizes(directory) => {
            let mut files = read_directory(&rt, directory)?;
            sizes(&rt, &mut files, directory)?;
        }
        Command::Copy { directory, target } => copy(&rt, directory, without_slashes(target))?,
        Command::Repair {
            directory,
            target,
            mode,
        } => repair(&rt, directory, without_slashes(target), mode)?,
    }
    Ok(End::Done)
}
