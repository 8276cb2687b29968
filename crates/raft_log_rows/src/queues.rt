//! Both queues of log files: what an opening of them shows, and steps behind it.

ghost use Rattle.std.specs.Prelude.{IfOk};
ghost use Rattle.raft_log_pipes.specs.Pipes.{ArePipes};

use crate::items::checked;
use crate::puts::say;
use crate::steps::{say_span, steps};
use raft_disk_uses::BesideFiles;
use raft_log_files::{Config, Error, FileSystem, MemoryFileSystem};
use raft_log_memtables::MemTables;
use raft_log_pipes::DualPipes;
use raft_log_records::{EntryIndex, LogQueue, read_entries_block};
use raft_log_recovery::{DefaultMachineFactory, DualPipesBuilder};
use raft_log_replay::ReplayedTables;
use raft_rows::Answer;
use std::alloc::{AllocError, Global};
use std::mem;

/// Both queues as they are found, and the tables of their batches.
fn open<F: FileSystem>(
    files: &mut F,
    alloc: Global,
    config: &Config,
) -> Result<(DualPipes, MemTables), Error>
    ensures { IfOk result (λ r. ArePipes r.0 (F.disk files.new)) }
{
    let mut builder = DualPipesBuilder::new(alloc, config.clone()?);
    builder.scan(files)?;
    let factory = DefaultMachineFactory::new(alloc);
    let (pipes, machine) = builder.recover_alone::<F, ReplayedTables, DefaultMachineFactory>(
        files, &factory,
    )?;
    Ok((pipes, machine.finish()))
}

fn first_of(bytes: &[u8]) -> char {
    match bytes {
        [first, ..] => char::from(*first),
        [] => '-',
    }
}

/// Tells the first bytes of the values of the keys `a` to `e` of group 7.
fn say_values(tables: &MemTables, text: &mut String) -> Result<(), AllocError> {
    say(text, "values ", &[])?;
    for key in b'a'..=b'e' {
        text.push(tables.get(7, [key].as_slice()).map_or('-', first_of))?;
    }
    Ok(())
}

/// Tells the queue of an entry, and its first byte there.
fn say_entry<F: FileSystem>(
    files: &F,
    pipes: &DualPipes,
    place: EntryIndex,
    text: &mut String,
) -> Result<(), Error>
    requires { ArePipes pipes.now (F.disk files.now) }
{
    let Some(handle) = place.entries else {
        return Ok(());
    };
    let bytes = pipes.read_bytes(files, handle)?;
    let Ok(entries) = read_entries_block(&bytes) else {
        return Ok(());
    };
    let at = (place.entry_offset as usize).min(entries.len());
    text.push_str(if handle.id.queue == LogQueue::Rewrite {
        " r"
    } else {
        " a"
    })?;
    Ok(text.push(first_of(&entries[at..]))?)
}

/// Tells group 7's entries 1 to 3.
fn say_entries<F: FileSystem>(
    files: &F,
    pipes: &DualPipes,
    tables: &MemTables,
    text: &mut String,
) -> Result<(), Error>
    requires { ArePipes pipes.now (F.disk files.now) }
{
    say(text, "entries", &[])?;
    for index in 1..4u64 {
        match tables.get_entry(7, index) {
            Some(place) => say_entry(files, pipes, place, text)?,
            None => text.push_str(" --")?,
        }
    }
    Ok(())
}

/// Tells what an opening shows: each queue's first file and its last, values and entries.
fn say_found<F: FileSystem>(
    files: &F,
    pipes: &DualPipes,
    tables: &MemTables,
    text: &mut String,
) -> Result<(), Error>
    requires { ArePipes pipes.now (F.disk files.now) }
{
    say_span(text, "appends", pipes, LogQueue::Append)?;
    say_span(text, "rewrites", pipes, LogQueue::Rewrite)?;
    say_values(tables, text)?;
    say_entries(files, pipes, tables, text)
}

/// Opens both queues, and takes steps.
fn run<F: FileSystem>(
    files: &mut F,
    alloc: Global,
    config: &Config,
    words: &[&str],
    text: &mut String,
) -> Result<(), Error> {
    let (mut pipes, tables) = open(files, alloc, config)?;
    say_found(files, &pipes, &tables, text)?;
    Ok(steps(files, &mut pipes, words, text)?)
}

fn ran(files: &mut MemoryFileSystem, alloc: Global, config: &Config, words: &[&str]) -> Answer {
    let mut text = String::new(alloc);
    match run(files, alloc, config, words, &mut text) {
        Ok(()) => Answer::Text(text),
        told => Answer::shown(alloc, &told),
    }
}

/// Looks for the files of the queues where something is kept beside the files of these paths. Of each:
/// which of all that was deleted it was.
fn scanned(
    files: MemoryFileSystem,
    alloc: Global,
    config: &Config,
    paths: &[&str],
) -> Result<Vec<Option<u64>>, Error> {
    let mut files = BesideFiles::new(alloc, files, paths)?;
    let mut builder = DualPipesBuilder::new(alloc, config.clone()?);
    builder.scan(&mut files)?;
    Ok(files.deleted(alloc)?)
}

/// The answer to a row that opens both queues, or looks for their files.
pub fn opened(
    files: &mut MemoryFileSystem,
    config: &Config,
    alloc: Global,
    words: &[&str],
) -> Option<Answer> {
    Some(match words {
        ["open", steps @ ..] => ran(files, alloc, config, steps),
        ["beside", paths @ ..] => {
            let files = mem::replace(files, MemoryFileSystem::new(alloc));
            Answer::shown(alloc, &scanned(files, alloc, config, paths))
        }
        _ => return checked(files, config, alloc, words),
    })
}
