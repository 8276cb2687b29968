//! Versions of a log file's format, and the signature that its records carry.

ghost use Rattle.std.specs.Prelude.{◌≡◌};
ghost use Rattle.raft_log_records.specs.Signature.{signature_of};

use crate::file_id::FileId;
use std::default::Default;

/// The version of a log file's format (raft-engine's `Version`). From version 2 on a file's records
/// are signed, so that a file may be used again without taking its old records for new ones.
#[derive(Clone, Copy, Debug, PartialEq, Eq)]
pub enum Version {
    V1,
    V2,
}

impl Default for Version {
    ghost use Rattle.std.specs.Prelude.{◌≡◌};
    ghost use Rattle.raft_log_records.specs.declared.version.Version.TheVariants.{V1};

    ghost is_default = { λ v. v ≡ V1 };

    fn default() -> Version {
        Version::V1
    }
}

/// The file that a record stands in or is meant for (raft-engine's `LogFileContext`).
#[derive(Clone, Copy, PartialEq, Eq)]
pub struct LogFileContext {
    pub id: FileId,
    pub version: Version,
}

impl LogFileContext {
    /// The file with this name, in this version's format.
    pub fn new(id: FileId, version: Version) -> LogFileContext
        ensures id { result.id ≡ id }
        ensures version { result.version ≡ version }
    {
        LogFileContext { id, version }
    }

    /// What the checksums of this file's records are signed with: the file's number modulo 2^32
    /// under version 2, nothing under version 1.
    pub fn get_signature(&self) -> Option<u32>
        ensures { result ≡ signature_of self.now.version self.now.id.seq }
    {
        match self.version {
            Version::V1 => None,
            Version::V2 => Some((self.id.seq % (1 << 32)) as u32),
        }
    }
}
