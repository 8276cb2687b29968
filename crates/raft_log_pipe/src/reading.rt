//! Reads of blocks by their handles.

ghost use Rattle.std.specs.Prelude.{◌≡◌, ◌↔◌, ◌+◌, IfOk, IfErr, IfSome, IsErr, IsNone, length};
ghost use Rattle.raft_log_disk.specs.Disk.{IsIn};
ghost use Rattle.raft_log_pipe.specs.Blocks.{AreOfBlock, AreOfFile, IsBlockFault, IsOutOfSpan, files_of};
ghost use Rattle.raft_log_pipe.specs.Pipe.{AreConsecutive, IsPipe};

use crate::file::File;
use crate::pipe::SinglePipe;
use raft_log_file::build_file_reader;
use raft_log_files::{CorruptionFault, Error, FileSystem};
use raft_log_records::{FileBlockHandle, FileSeq};

impl SinglePipe {
    /// The file of a number, if the pipe has one.
    pub(crate) fn file_of(&self, seq: FileSeq) -> Option<File>
        requires { AreConsecutive self.now.older.items self.now.active.seq }
        ensures found { IfSome result (λ f. IsIn f (files_of self.now) × (f.seq ≡ seq)) }
        ensures none { IsNone result ↔ IsOutOfSpan self.now seq }
    {
        let (first, _) = self.file_span();
        if seq < first {
            return None;
        }
        let place = (seq - first) as usize;
        let count = self.older.len();
        if place < count {
            Some(self.older[place])
        } else if place == count {
            Some(self.active)
        } else {
            None
        }
    }

    /// The bytes of a block, as a record's or a part of it (raft-engine's `read_bytes`). A block of
    /// a file that the pipe doesn't have is `Corruption`.
    pub fn read_bytes<F: FileSystem>(
        &self,
        files: &F,
        handle: FileBlockHandle,
    ) -> Result<Vec<u8>, Error>
        requires { IsPipe self.now (F.disk files.now) }
        ensures file { IfOk result (λ v. AreOfFile self.now (F.disk files.now) handle v.items) }
        ensures block { IfOk result (λ v. AreOfBlock self.now (F.disk files.now) handle v.items) }
        ensures out { IsOutOfSpan self.now handle.id.seq → IsErr result }
        ensures err { IfErr result (λ e. IsBlockFault self.now (F.disk files.now) (F.meter files.now) handle e) }
    {
        let Some(file) = self.file_of(handle.id.seq) else {
            return Err(Error::Corruption(CorruptionFault::NoSuchFile));
        };
        build_file_reader(file.handle).read(files, self.alloc, handle)
    }
}
