//! Which log files the directories have.

ghost use Rattle.std.specs.Prelude.{◌≡◌, ◌+◌, ◌<◌, ◌≤◌, ◌^◌, ◌++◌, List, length, map, option_map, option_to_list, IfOk, OnOk, IfErr, string_bytes};
ghost use Rattle.raft_log_files.specs.declared.error.Error.TheVariants.{Memory};
ghost use Rattle.raft_log_recovery.specs.Scan.{AreFound, AreInDirectories, IsLastRun, files_named, seq_in};

use raft_log_files::{Error, FileNameExt, FileSystem, PathId, parse_reserved_file_name};
use raft_log_records::{FileId, FileSeq, LogQueue};
use std::alloc::{AllocError, Global};

/// Which files are looked for.
#[derive(Clone, Copy, PartialEq, Eq)]
pub enum FileKind {
    /// The log files of a queue.
    Log(LogQueue),
    /// Files of the append queue that are kept for reuse.
    Reserved,
}

/// A file that was found in a directory (raft-engine's `FileName`).
#[derive(Clone, Copy, PartialEq, Eq)]
pub struct FileName {
    pub seq: FileSeq,
    /// In which of the directories it lies.
    pub path_id: PathId,
}

/// The number of a file of this kind, if that is its name.
fn seq_of(kind: FileKind, name: &str) -> Option<FileSeq>
    ensures { result ≡ seq_in kind name.now }
{
    match kind {
        FileKind::Log(queue) => match FileId::parse_file_name(name) {
            Some(id) => {
                if id.queue == queue {
                    Some(id.seq)
                } else {
                    None
                }
            }
            None => None,
        },
        FileKind::Reserved => parse_reserved_file_name(name),
    }
}

/// Adds the file of a number, if there is one.
fn push_seq(
    found: &mut Vec<FileName>,
    path_id: PathId,
    seq: Option<FileSeq>,
) -> Result<(), AllocError>
    ensures { OnOk result (found.new.items ≡ found.old.items ++ option_to_list (option_map (λ n. record { seq = n; path_id = path_id }) seq)) }
{
    match seq {
        Some(seq) => {
            found.push(FileName { seq, path_id })?;
            Ok(())
        }
        None => Ok(()),
    }
}

/// Adds the files of a kind that a directory has.
fn push_named(
    found: &mut Vec<FileName>,
    kind: FileKind,
    path_id: PathId,
    names: &[String],
) -> Result<(), AllocError>
    ensures { OnOk result (found.new.items ≡ found.old.items ++ files_named kind path_id (map string_bytes names.now)) }
{
    for name in names {
        push_seq(found, path_id, seq_of(kind, name.as_str()))?;
    }
    Ok(())
}

/// Adds the files of a kind that the directories have, which are numbered from `path_id` on.
fn push_all<F: FileSystem>(
    found: &mut Vec<FileName>,
    files: &F,
    alloc: Global,
    directories: &[String],
    kind: FileKind,
    path_id: PathId,
) -> Result<(), Error>
    requires { path_id + length directories.now < 2 ^ 64 }
    ensures ok { OnOk result ((more : List FileName) × (found.new.items ≡ found.old.items ++ more)
        × AreInDirectories (F.disk files.now) kind path_id (map string_bytes directories.now) more) }
    ensures err { IfErr result (λ e. e ≡ Memory) }
{
    match directories {
        [] => Ok(()),
        [first, rest @ ..] => {
            let names = files.list(alloc, first.as_str())?;
            push_named(found, kind, path_id, &names)?;
            push_all(found, files, alloc, rest, kind, path_id + 1)
        }
    }
}

/// Where the last run of numbers that follow one another begins.
fn run_start(files: &[FileName]) -> usize
    ensures run { IsLastRun files.now result }
    ensures within { result ≤ length files.now }
{
    let mut start = files.len().saturating_sub(1);
    while start > 0 {
        let before = files[start - 1].seq;
        let here = files[start].seq;
        if here <= before || here - before != 1 {
            return start;
        }
        start -= 1;
    }
    start
}

/// The files of a kind that count: those of the last run.
pub(crate) fn find_files<F: FileSystem>(
    files: &F,
    alloc: Global,
    directories: &[String],
    kind: FileKind,
) -> Result<Vec<FileName>, Error>
    ensures ok { IfOk result (λ v. AreFound (F.disk files.now) kind (map string_bytes directories.now) v.items) }
    ensures err { IfErr result (λ e. e ≡ Memory) }
{
    let mut found = Vec::new(alloc);
    push_all(&mut found, files, alloc, directories, kind, 0)?;
    found.sort_by_key(|file| file.seq)?;
    let start = run_start(&found);
    let run = Vec::from_slice(alloc, &found[start..])?;
    Ok(run)
}
