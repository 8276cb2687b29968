//! The reader of one log file.

ghost use Rattle.std.specs.Prelude.{◌≡◌, ◌⊎◌, ◌+◌, ◌++◌, ◌≤◌, length, take, drop, IfOk, IfErr, OnErr};
ghost use Rattle.raft_log_disk.specs.Format.{header_at, header_len};
ghost use Rattle.raft_log_file.specs.Errors.{IsReadFault, Parses};

use raft_log_files::{CorruptionFault, Error, Fd, FileSystem, LogFileFormat};
use raft_log_records::FileBlockHandle;
use std::alloc::Global;

/// Reads one log file (raft-engine's `LogFileReader`). Its file is named by a number, and the file
/// system is passed to each call.
#[derive(Clone, Copy, PartialEq, Eq)]
pub struct LogFileReader {
    pub(crate) fd: Fd,
}

/// A reader of an open file.
pub fn build_file_reader(fd: Fd) -> LogFileReader
    ensures { result.fd ≡ fd }
{
    LogFileReader { fd }
}

impl LogFileReader {
    /// The length of the file in bytes.
    pub fn file_size<F: FileSystem>(&self, files: &F) -> Result<u64, Error>
        ensures ok { IfOk result (λ size. size ≡ length ((F.disk files.now).file self.now.fd.0).bytes) }
        ensures err { IfErr result (λ e. IsReadFault (F.disk files.now) (F.meter files.now) self.now.fd.0 e) }
    {
        Ok(files.file_size(self.fd)?)
    }

    /// Up to `len` bytes from a place on: fewer only at the file's end.
    pub(crate) fn read_up_to<F: FileSystem>(
        &self,
        files: &F,
        alloc: Global,
        offset: u64,
        len: u64,
    ) -> Result<Vec<u8>, Error>
        ensures ok { IfOk result (λ v. v.items ≡ take len (drop offset ((F.disk files.now).file self.now.fd.0).bytes)) }
        ensures err { IfErr result (λ e. IsReadFault (F.disk files.now) (F.meter files.now) self.now.fd.0 e) }
    {
        Ok(files.read_at(alloc, self.fd, offset, len)?)
    }

    /// The bytes that a handle names, fewer where the file ends before. Which file the handle names
    /// doesn't count: the reader has its own.
    pub fn read<F: FileSystem>(
        &self,
        files: &F,
        alloc: Global,
        handle: FileBlockHandle,
    ) -> Result<Vec<u8>, Error>
        ensures ok { IfOk result (λ v. v.items ≡ take handle.len (drop handle.offset ((F.disk files.now).file self.now.fd.0).bytes)) }
        ensures err { IfErr result (λ e. IsReadFault (F.disk files.now) (F.meter files.now) self.now.fd.0 e) }
    {
        self.read_up_to(files, alloc, handle.offset, handle.len)
    }

    /// Reads into a buffer from a place on until the buffer is full or the file ends, and tells how
    /// many bytes. What lies behind them in the buffer stays. After an `Err` the buffer is as it
    /// was.
    pub fn read_to<F: FileSystem>(
        &self,
        files: &F,
        alloc: Global,
        offset: u64,
        buffer: &mut [u8],
    ) -> Result<usize, Error>
        ensures ok { IfOk result (λ n. buffer.new ≡ take (length buffer.old) (drop offset ((F.disk files.now).file self.now.fd.0).bytes) ++ drop n buffer.old) }
        ensures read { IfOk result (λ n. n ≡ length (take (length buffer.old) (drop offset ((F.disk files.now).file self.now.fd.0).bytes))) }
        ensures err { IfErr result (λ e. IsReadFault (F.disk files.now) (F.meter files.now) self.now.fd.0 e) }
        ensures kept { OnErr result (buffer.new ≡ buffer.old) }
    {
        let bytes = self.read_up_to(files, alloc, offset, buffer.len() as u64)?;
        let n = bytes.len();
        buffer[..n].copy_from_slice(&bytes);
        Ok(n)
    }

    /// The format that the file's header says, or `Corruption` with the header's first fault.
    pub fn parse_format<F: FileSystem>(
        &self,
        files: &F,
        alloc: Global,
    ) -> Result<LogFileFormat, Error>
        ensures { Parses (F.disk files.now) (F.meter files.now) self.now.fd.0 result }
    {
        let len = LogFileFormat::max_encoded_len() as u64;
        let front = self.read_up_to(files, alloc, 0, len)?;
        match LogFileFormat::decode(&front) {
            Ok(format) => Ok(format),
            Err(fault) => Err(Error::Corruption(CorruptionFault::Header(fault))),
        }
    }
}
