//! A crash, and what is found behind it.

ghost use Rattle.std.specs.Prelude.{◌≡◌, ◌⊎◌, ℕ, List, Option, IfOk, option_map};
ghost use Rattle.raft_log_disk.specs.Image.{image_of};
ghost use Rattle.raft_disk_uses.specs.Left.{Leaves, LeavesOneOf, found_at};

use crate::load;
use raft_log_disk::{CrashChoice, CrashFiles, CrashRefusal, IoFault};
use std::alloc::Global;
use thiserror::Error;

/// Why nothing was found out.
#[derive(Clone, Copy, Debug, PartialEq, Eq, Error)]
pub enum RestartFault {
    /// The files don't crash so.
    #[error("the files don't crash so: {0}")]
    Crash(CrashRefusal),
    /// The file couldn't be read.
    #[error("the file can't be read: {0}")]
    Read(IoFault),
}

/// Crashes, and loads the file of a path: what the crash left of it. So what each crash leaves is
/// found, and of two things one.
pub fn restart<F: CrashFiles>(
    files: &mut F,
    alloc: Global,
    path: &str,
    choice: &CrashChoice,
) -> Result<Option<Vec<u8>>, RestartFault>
    ensures chosen { IfOk result (λ found. option_map (λ v. v.items) found ≡
        found_at (F.disk files.old) (image_of choice.now (F.disk files.old).names (F.disk files.old).file) path.now) }
    ensures left { IfOk result (λ found. (bytes : Option (List ℕ)) → Leaves (F.disk files.old) path.now bytes →
        option_map (λ v. v.items) found ≡ bytes) }
    ensures one_of { IfOk result (λ found. (one other : Option (List ℕ)) → LeavesOneOf (F.disk files.old) path.now one other →
        (option_map (λ v. v.items) found ≡ one) ⊎ (option_map (λ v. v.items) found ≡ other)) }
{
    if let Err(refusal) = files.crash(choice) {
        return Err(RestartFault::Crash(refusal));
    }
    match load(files, alloc, path) {
        Ok(found) => Ok(found),
        Err(fault) => Err(RestartFault::Read(fault)),
    }
}
