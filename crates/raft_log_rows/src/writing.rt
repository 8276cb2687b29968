//! A writer of a log file, and what each of its steps answers.

ghost use Rattle.raft_log_file.specs.Writer.{IsWriter};

use crate::reading::read;
use raft_log_file::{LogFileWriter, build_file_writer};
use raft_log_files::{Fd, FileSystem, IoFault, LogFileFormat, MemoryFileSystem};
use raft_log_records::Version;
use raft_rows::{Answer, bytes, number};
use std::alloc::{AllocError, Global};

/// Any word but `V2` is version 1.
pub fn version(word: &str) -> Version {
    if word == "V2" {
        Version::V2
    } else {
        Version::V1
    }
}

/// A format that a header can say: version 1 has no alignment.
pub fn format_of(word: &str, alignment: &str) -> LogFileFormat {
    LogFileFormat::new(version(word), number(alignment))
}

/// Takes a step of a writer: `sync`, `truncate`, `close`, or bytes to be written.
fn step<F: FileSystem>(
    files: &mut F,
    alloc: Global,
    writer: &mut LogFileWriter,
    target_size: u64,
    word: &str,
) -> Result<(), IoFault>
    requires { IsWriter writer.old (F.disk files.old) }
    ensures { IsWriter writer.new (F.disk files.new) }
{
    match word {
        "sync" => writer.sync(files),
        "truncate" => writer.truncate(files),
        "close" => writer.close(files),
        _ => {
            let bytes = bytes(alloc, word)?;
            writer.write(files, &bytes, target_size)
        }
    }
}

/// What each step told, with the offset behind it.
fn steps<F: FileSystem>(
    files: &mut F,
    alloc: Global,
    writer: &mut LogFileWriter,
    target_size: u64,
    words: &[&str],
) -> Result<Vec<(Result<(), IoFault>, u64)>, AllocError>
    requires { IsWriter writer.old (F.disk files.old) }
{
    let mut all = Vec::new(alloc);
    for word in words {
        let told = step(files, alloc, writer, target_size, word);
        all.push((told, writer.offset()))?;
    }
    Ok(all)
}

fn write(
    files: &mut MemoryFileSystem,
    alloc: Global,
    fd: u64,
    format: LogFileFormat,
    reset: bool,
    target_size: u64,
    words: &[&str],
) -> Answer {
    if !format.is_spellable() {
        return Answer::Word("no header says that");
    }
    match build_file_writer(files, alloc, Fd(fd), format, reset) {
        Ok(mut writer) => {
            let told = steps(files, alloc, &mut writer, target_size, words);
            Answer::shown(alloc, &told)
        }
        Err(fault) => Answer::shown(alloc, &fault),
    }
}

/// The answer to a row that writes: the file's number, the version, the alignment, `reset` or
/// `keep`, the target size, and steps.
pub fn logged(files: &mut MemoryFileSystem, alloc: Global, words: &[&str]) -> Option<Answer> {
    match words {
        ["writer", fd, word, alignment, how, target_size, steps @ ..] => {
            let format = format_of(word, alignment);
            let reset = *how == "reset";
            let target_size = number(target_size);
            Some(write(files, alloc, number(fd), format, reset, target_size, steps))
        }
        _ => read(files, alloc, words),
    }
}
