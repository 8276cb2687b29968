//! Files that can be made to stop and to crash.

ghost use Rattle.std.specs.Prelude.{◌≡◌, ◌-◌, ◌⊎◌, List, Option, Some, None, OnOk, OnErr, Ok, Err, map, option_map};
ghost use Rattle.std.specs.String.{string_bytes};

use crate::FileSystem;
use std::alloc::AllocError;
use thiserror::Error;

/// The bytes that a crash leaves of one file.
#[derive(Drop)]
pub struct FileBytes {
    pub path: String,
    pub bytes: Vec<u8>,
}

/// What a crash leaves.
#[derive(Drop)]
pub enum CrashChoice {
    /// Of each file the bytes of its last sync or crash, as far as the least length since.
    Least,
    /// What reads see.
    Most,
    /// These bytes, for each file once.
    Bytes(Vec<FileBytes>),
}

/// Why files do not crash so.
#[derive(Clone, Copy, Debug, PartialEq, Eq, Error)]
pub enum CrashRefusal {
    /// A crash may not leave these bytes.
    #[error("no crash leaves such files")]
    NotAnImage,
    /// A log file would show a header or a record that no call wrote there.
    #[error("the files would show by chance what nobody wrote")]
    ByChance,
    #[error("out of memory")]
    Memory,
}

/// A file system that can be made to stop and to crash.
pub trait CrashFiles: FileSystem {
    ghost use Rattle.raft_log_disk.specs.declared.crash.CrashRefusal.TheVariants.{NotAnImage, ByChance};
    ghost use Rattle.raft_log_disk.specs.Cause.{Meter};
    ghost use Rattle.raft_log_disk.specs.Image.{IsImageOf, image_of, after_crash};
    ghost use Rattle.raft_log_disk.specs.Chance.{IsGenuineImage};

    /// Refuses from that changing call on, the first one counted as 1; with none refuses no call.
    fn fuse(&mut self, first_refused: Option<u64>)
        ensures disk { Self.FileSystem.disk self.new ≡ Self.FileSystem.disk self.old }
        ensures calls { (Self.FileSystem.meter self.new).calls_left ≡ option_map (λ n. n - 1) first_refused }
        ensures refusals { (Self.FileSystem.meter self.new).refusals ≡ (Self.FileSystem.meter self.old).refusals }
        ensures lacks { (Self.FileSystem.meter self.new).lacks ≡ (Self.FileSystem.meter self.old).lacks }
        ensures reads { (Self.FileSystem.meter self.new).unreadable ≡ (Self.FileSystem.meter self.old).unreadable }
        ensures faulty { (Self.FileSystem.meter self.new).is_faulty ≡ (Self.FileSystem.meter self.old).is_faulty }
        ensures bound { Self.FileSystem.is_bounded self.new → Self.FileSystem.is_bounded self.old };

    /// Refuses the reads of the files of these paths, and of no others.
    fn refuse_reads(&mut self, paths: Vec<String>)
        ensures disk { Self.FileSystem.disk self.new ≡ Self.FileSystem.disk self.old }
        ensures calls { (Self.FileSystem.meter self.new).calls_left ≡ (Self.FileSystem.meter self.old).calls_left }
        ensures refusals { (Self.FileSystem.meter self.new).refusals ≡ (Self.FileSystem.meter self.old).refusals }
        ensures lacks { (Self.FileSystem.meter self.new).lacks ≡ (Self.FileSystem.meter self.old).lacks }
        ensures reads { (Self.FileSystem.meter self.new).unreadable ≡ map string_bytes paths.items }
        ensures faulty { (Self.FileSystem.meter self.new).is_faulty ≡ (Self.FileSystem.meter self.old).is_faulty }
        ensures bound { Self.FileSystem.is_bounded self.new → Self.FileSystem.is_bounded self.old };

    /// Leaves what the choice says, which is the file system from then on, with nothing unsynced.
    /// Files keep their numbers, and the fuse stays as it is. An `Err` changes nothing.
    fn crash(&mut self, choice: &CrashChoice) -> Result<(), CrashRefusal>
        ensures image { OnOk result (IsImageOf choice.now (Self.FileSystem.disk self.old)) }
        ensures genuine { OnOk result (IsGenuineImage (Self.FileSystem.disk self.old) (image_of choice.now (Self.FileSystem.disk self.old).names (Self.FileSystem.disk self.old).file)) }
        ensures crashed { OnOk result (Self.FileSystem.disk self.new ≡ after_crash (Self.FileSystem.disk self.old)
            (image_of choice.now (Self.FileSystem.disk self.old).names (Self.FileSystem.disk self.old).file)) }
        ensures not_an_image { result ≡ Err NotAnImage → IsImageOf choice.now (Self.FileSystem.disk self.old) → ⊥ }
        ensures is_an_image { result ≡ Err ByChance → IsImageOf choice.now (Self.FileSystem.disk self.old) }
        ensures by_chance { result ≡ Err ByChance → IsGenuineImage (Self.FileSystem.disk self.old) (image_of choice.now (Self.FileSystem.disk self.old).names (Self.FileSystem.disk self.old).file)
            → ⊥ }
        ensures err { OnErr result (self.new ≡ self.old) }
        ensures meter { Self.FileSystem.meter self.new ≡ Self.FileSystem.meter self.old }
        ensures bound { Self.FileSystem.is_bounded self.new → Self.FileSystem.is_bounded self.old };

    /// Tells which refusal `crash` would answer, and changes nothing.
    fn may_crash(&self, choice: &CrashChoice) -> Result<(), CrashRefusal>
        ensures image { OnOk result (IsImageOf choice.now (Self.FileSystem.disk self.now)) }
        ensures genuine { OnOk result (IsGenuineImage (Self.FileSystem.disk self.now) (image_of choice.now (Self.FileSystem.disk self.now).names (Self.FileSystem.disk self.now).file)) }
        ensures not_an_image { result ≡ Err NotAnImage → IsImageOf choice.now (Self.FileSystem.disk self.now) → ⊥ }
        ensures is_an_image { result ≡ Err ByChance → IsImageOf choice.now (Self.FileSystem.disk self.now) }
        ensures by_chance { result ≡ Err ByChance → IsGenuineImage (Self.FileSystem.disk self.now) (image_of choice.now (Self.FileSystem.disk self.now).names (Self.FileSystem.disk self.now).file)
            → ⊥ };
}
