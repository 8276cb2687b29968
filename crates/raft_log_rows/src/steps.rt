//! Calls on both queues of log files, and what each answers.

ghost use Rattle.std.specs.Prelude.{OnOk};
ghost use Rattle.raft_log_pipes.specs.Pipes.{ArePipes};

use crate::puts::{put_of, say};
use raft_log_files::{Error, FileSystem};
use raft_log_pipes::DualPipes;
use raft_log_records::{FileBlockHandle, FileId, LogQueue};
use raft_rows::number;
use std::alloc::{AllocError, Global};

/// The byte that a queue's values are of.
fn byte_of(queue: LogQueue) -> u8 {
    match queue {
        LogQueue::Append => b'a',
        LogQueue::Rewrite => b'r',
    }
}

/// Tells the numbers of a queue's first file and of its last.
pub fn say_span(
    text: &mut String,
    word: &str,
    pipes: &DualPipes,
    queue: LogQueue,
) -> Result<(), AllocError> {
    let (first, last) = pipes.file_span(queue);
    say(text, word, &[first, last])
}

/// Puts a key with so many bytes, as in `end:8`, and tells the file, the place and the length of its
/// record.
fn put<F: FileSystem>(
    files: &mut F,
    pipes: &mut DualPipes,
    queue: LogQueue,
    word: &str,
    text: &mut String,
) -> Result<(), Error>
    requires { ArePipes pipes.old (F.disk files.old) }
    ensures { OnOk result (ArePipes pipes.new (F.disk files.new)) }
{
    let (key, len) = word.split_once(':').unwrap_or((word, "0"));
    let len = u32::try_from(number(len)).unwrap_or(0);
    let Ok(mut batch) = put_of(*text.allocator(), key, byte_of(queue), len) else {
        return Err(Error::Memory);
    };
    let handle = pipes.append(files, queue, &mut batch)?;
    Ok(say(text, "stands", &[handle.id.seq, handle.offset, handle.len])?)
}

/// Tells how many files went.
fn purge<F: FileSystem>(
    files: &mut F,
    pipes: &mut DualPipes,
    queue: LogQueue,
    seq: u64,
    text: &mut String,
) -> Result<(), AllocError>
    requires { ArePipes pipes.old (F.disk files.old) }
    ensures { ArePipes pipes.new (F.disk files.new) }
{
    match pipes.purge_to(files, queue, seq) {
        Ok(count) => say(text, "went", &[count]),
        Err(error) => say(text, "refused", &[error.number() as u64]),
    }
}

/// Reads 44 bytes behind the header of a file: a record of the key `end` with a value of 8 bytes. Tells
/// how many they are, and the queue by the value's last one.
fn read<F: FileSystem>(
    files: &F,
    pipes: &DualPipes,
    queue: LogQueue,
    seq: u64,
    text: &mut String,
) -> Result<(), AllocError>
    requires { ArePipes pipes.now (F.disk files.now) }
{
    let handle = FileBlockHandle {
        id: FileId::new(queue, seq),
        offset: 69,
        len: 44,
    };
    let bytes = match pipes.read_bytes(files, handle) {
        Ok(bytes) => bytes,
        Err(error) => return say(text, "refused", &[error.number() as u64]),
    };
    let word = match bytes.get(39) {
        Some(b'a') => "read append",
        Some(b'r') => "read rewrite",
        _ => "read",
    };
    say(text, word, &[bytes.len() as u64])
}

/// A call that tells nothing. Any other word is none.
fn call<F: FileSystem>(
    files: &mut F,
    pipes: &mut DualPipes,
    queue: LogQueue,
    word: &str,
) -> Result<(), Error>
    requires { ArePipes pipes.old (F.disk files.old) }
    ensures { OnOk result (ArePipes pipes.new (F.disk files.new)) }
{
    match word {
        "rotate" => pipes.rotate(files, queue),
        "sync" => pipes.sync(files, queue),
        "close" => pipes.close(files, queue),
        _ => Ok(()),
    }
}

/// Takes a step of a queue with a number or a key behind its word: `put:KEY:LEN`, `purge:SEQ`,
/// `read:SEQ`. `prepare:COUNT` makes the append queue's reserved files up to a number, and
/// `capacity:COUNT` says how many files it may have.
fn numbered<F: FileSystem>(
    files: &mut F,
    pipes: &mut DualPipes,
    queue: LogQueue,
    word: &str,
    rest: &str,
    text: &mut String,
) -> Result<(), Error>
    requires { ArePipes pipes.old (F.disk files.old) }
    ensures { OnOk result (ArePipes pipes.new (F.disk files.new)) }
{
    match word {
        "put" => put(files, pipes, queue, rest, text),
        "purge" => Ok(purge(files, pipes, queue, number(rest), text)?),
        "read" => Ok(read(files, pipes, queue, number(rest), text)?),
        "prepare" => pipes.prepare_reserved(files, number(rest)),
        _ => pipes.keep_reserved(files, Vec::new(*text.allocator()), number(rest)),
    }
}

/// The queue of a step, and the word of the call on it: `rewrite+..`, or the append queue's.
fn named(word: &str) -> (LogQueue, &str) {
    match word.strip_prefix("rewrite+") {
        Some(rest) => (LogQueue::Rewrite, rest),
        None => (LogQueue::Append, word),
    }
}

/// Takes a step of a queue: those with a number or a key, `rotate`, `sync` or `close`.
fn step<F: FileSystem>(
    files: &mut F,
    pipes: &mut DualPipes,
    word: &str,
    text: &mut String,
) -> Result<(), Error>
    requires { ArePipes pipes.old (F.disk files.old) }
    ensures { OnOk result (ArePipes pipes.new (F.disk files.new)) }
{
    let (queue, word) = named(word);
    if let Some((word, rest)) = word.split_once(':') {
        return numbered(files, pipes, queue, word, rest, text);
    }
    call(files, pipes, queue, word)
}

/// What each step told, up to the first that was refused, and the files of both queues then.
pub fn steps<F: FileSystem>(
    files: &mut F,
    pipes: &mut DualPipes,
    words: &[&str],
    text: &mut String,
) -> Result<(), AllocError>
    requires { ArePipes pipes.old (F.disk files.old) }
{
    for word in words {
        if let Err(error) = step(files, pipes, word, text) {
            say(text, "refused", &[error.number() as u64])?;
            break;
        }
    }
    say_span(text, "appends", pipes, LogQueue::Append)?;
    say_span(text, "rewrites", pipes, LogQueue::Rewrite)
}
