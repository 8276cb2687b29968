//! Names of log files.

ghost use Rattle.std.specs.Prelude.{◌≡◌, ◌≢◌, ◌<◌, ◌^◌, ◌++◌, ◌↔◌, ℕ, IsTrue, IfOk, IfSome, IsNone, List, ◌∷◌, string_bytes};
ghost use Rattle.raft_log_files.specs.FileName.{suffixed, reserved_name, IsFileSeq};

use crate::number;
use raft_log_disk::number::{are_digits, digits_value};
use raft_log_records::{FileId, FileSeq, LogQueue};
use std::alloc::{AllocError, Global};

/// Which directory a log file lies in: 0 for the main one, 1 for the spill directory.
pub type PathId = usize;

/// The main directory.
pub const DEFAULT_PATH_ID: PathId = 0;
/// The number of a queue's first file.
pub const DEFAULT_FIRST_FILE_SEQ: FileSeq = 1;

/// How many digits a name has.
const LOG_SEQ_WIDTH: usize = 16;
/// One past the greatest number that a name can have: 10^16.
const FILE_SEQ_END: FileSeq = 10_000_000_000_000_000;

const LOG_APPEND_SUFFIX: &str = ".raftlog";

const LOG_REWRITE_SUFFIX: &str = ".rewrite";

const LOG_APPEND_RESERVED_SUFFIX: &str = ".raftlog.reserved";

/// Whether a log file can have this number: it is below 10^16.
pub fn is_file_seq(seq: FileSeq) -> bool
    ensures { IsTrue result ↔ IsFileSeq seq }
{
    seq < FILE_SEQ_END
}

/// The number of a name: exactly sixteen digits, then the suffix.
fn seq_before(name: &str, suffix: &str) -> Option<FileSeq>
    ensures found { IfSome result (λ n. IsFileSeq n × (name.now ≡ suffixed n suffix.now)) }
    ensures none { IsNone result → (n : ℕ) → IsFileSeq n → name.now ≢ suffixed n suffix.now }
{
    let bytes = name.as_bytes();
    if bytes.len() < LOG_SEQ_WIDTH {
        return None;
    }
    let (front, behind) = bytes.split_at(LOG_SEQ_WIDTH);
    if behind != suffix.as_bytes() || !are_digits(front) {
        return None;
    }
    digits_value(front)
}

fn with_suffix(alloc: Global, seq: FileSeq, suffix: &str) -> Result<String, AllocError>
    ensures { IfOk result (λ s. string_bytes s ≡ suffixed seq suffix.now) }
{
    let mut name = String::new(alloc);
    number::push_digits(&mut name, 16, seq)?;
    name.push_str(suffix)?;
    Ok(name)
}

/// Names of files (raft-engine's `FileNameExt`).
pub trait FileNameExt {
    /// The files that have a name.
    ghost has_name: { Self → Type 0 };
    /// The bytes of a file's name.
    ghost name_of: { Self → List ℕ };

    /// The file of a name; none where it is no file's name. It takes no memory.
    fn parse_file_name(file_name: &str) -> Option<Self>
        ensures found { IfSome result (λ id. has_name id × (name_of id ≡ file_name.now)) }
        ensures none { IsNone result → (id : Self) → has_name id → name_of id ≢ file_name.now };

    /// The name of a file, which must have one. The only error is want of memory.
    fn build_file_name(&self, alloc: Global) -> Result<String, AllocError>
        requires { has_name self.now }
        ensures { IfOk result (λ s. string_bytes s ≡ name_of self.now) };

    /// The path of a file in a directory: the directory, `/` and the file's name. The only error is
    /// want of memory.
    fn build_file_path(&self, alloc: Global, dir: &str) -> Result<String, AllocError>
        requires { has_name self.now }
        ensures { IfOk result (λ s. string_bytes s ≡ dir.now ++ 47 ∷ name_of self.now) }
    {
        let name = self.build_file_name(alloc)?;
        let mut path = String::from_str(alloc, dir)?;
        path.push_str("/")?;
        path.push_str(name.as_str())?;
        Ok(path)
    }
}

/// Sixteen decimal digits of the number, and `.raftlog` or `.rewrite`: a file has a name where its
/// number is below 10^16 (`is_file_seq` tells).
impl FileNameExt for FileId {
    ghost use Rattle.raft_log_files.specs.FileName.{log_file_name};

    ghost has_name = { λ id. IsFileSeq id.seq };

    ghost name_of = { λ id. log_file_name id };

    fn parse_file_name(file_name: &str) -> Option<FileId> {
        if let Some(seq) = seq_before(file_name, LOG_APPEND_SUFFIX) {
            return Some(FileId::new(LogQueue::Append, seq));
        }
        let seq = seq_before(file_name, LOG_REWRITE_SUFFIX)?;
        Some(FileId::new(LogQueue::Rewrite, seq))
    }

    fn build_file_name(&self, alloc: Global) -> Result<String, AllocError> {
        match self.queue {
            LogQueue::Append => with_suffix(alloc, self.seq, LOG_APPEND_SUFFIX),
            LogQueue::Rewrite => with_suffix(alloc, self.seq, LOG_REWRITE_SUFFIX),
        }
    }
}

/// The number of a reserved file's name; none where it is no reserved file's name.
pub fn parse_reserved_file_name(file_name: &str) -> Option<FileSeq>
    ensures found { IfSome result (λ n. IsFileSeq n × (reserved_name n ≡ file_name.now)) }
    ensures none { IsNone result → (n : ℕ) → IsFileSeq n → reserved_name n ≢ file_name.now }
{
    seq_before(file_name, LOG_APPEND_RESERVED_SUFFIX)
}

/// The name of a reserved file of the append queue: sixteen digits and `.raftlog.reserved`. The only
/// error is want of memory.
pub fn build_reserved_file_name(alloc: Global, seq: FileSeq) -> Result<String, AllocError>
    requires { IsFileSeq seq }
    ensures { IfOk result (λ s. string_bytes s ≡ reserved_name seq) }
{
    with_suffix(alloc, seq, LOG_APPEND_RESERVED_SUFFIX)
}
