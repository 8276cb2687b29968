//! The files of a queue, from the first to the last.
ghost use Rattle.std.specs.Prelude.{◌≡◌, ◌++◌, IfOk, OnOk, map, string_bytes};
ghost use Rattle.raft_log_contents.specs.Content.{found_of};
ghost use Rattle.raft_log_tool.specs.Lines.{sum_of};
ghost use Rattle.raft_log_tool.specs.Span.{files_text, size_of, span_text};

use raft_log_contents::{LogFile, push_named, queue_name};
use raft_log_files::{Error, FileSystem, Permission};
use raft_log_records::{FileSeq, LogQueue};
use std::alloc::{AllocError, Global};

/// How long the file of a number is.
#[derive(Clone, Copy)]
pub struct FileSize {
    pub seq: FileSeq,
    pub bytes: u64,
}

/// How long these files are, in their order (own). Errors: memory is missing, or a call on a file
/// is refused.
pub fn sizes_of<F: FileSystem>(
    files: &mut F,
    alloc: Global,
    found: &[LogFile],
) -> Result<Vec<FileSize>, Error>
    ensures ok { IfOk result (λ sizes. sizes.items ≡ map (λ file. size_of (F.disk files.old) (found_of file)) found.now) }
    ensures kept { F.disk files.new ≡ F.disk files.old }
{
    let mut sizes = Vec::new(alloc);
    for file in found {
        let fd = files.open(file.path.as_str(), Permission::ReadOnly)?;
        let bytes = files.file_size(fd)?;
        sizes.push(FileSize {
            seq: file.id.seq,
            bytes,
        })?;
    }
    Ok(sizes)
}

// The bytes of all these files; 2^64 - 1 where they are more.
fn all_bytes(sizes: &[FileSize]) -> u64
    ensures { result ≡ sum_of (map (λ size. size.bytes) sizes.now) }
{
    let mut total: u64 = 0;
    for size in sizes {
        total = total.saturating_add(size.bytes);
    }
    total
}

// The text, and behind it what tells of the files of a queue.
fn push_span(text: &mut String, sizes: &[FileSize]) -> Result<(), AllocError>
    ensures { OnOk result (string_bytes text.new ≡ string_bytes text.old ++ files_text sizes.now) }
{
    match (sizes.first(), sizes.last()) {
        (Some(first), Some(last)) => {
            push_named(text, " from ", first.seq)?;
            push_named(text, " to ", last.seq)?;
            push_named(text, " files ", sizes.len() as u64)?;
            push_named(text, " bytes ", all_bytes(sizes))?;
            Ok(())
        }
        _ => text.push_str(" no files"),
    }
}

/// The line of a queue with these files, of which the first stands first (own). The only error is
/// want of memory.
pub fn text_of_span(
    alloc: Global,
    queue: LogQueue,
    sizes: &[FileSize],
) -> Result<String, AllocError>
    ensures { IfOk result (λ text. string_bytes text ≡ span_text queue sizes.now) }
{
    let mut text = String::from_str(alloc, queue_name(queue))?;
    push_span(&mut text, sizes)?;
    text.push_str("\n")?;
    Ok(text)
}
