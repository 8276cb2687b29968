//! The batches of one log file, read in turn.

ghost use Rattle.std.specs.Prelude.{◌≡◌, ◌⊎◌, ◌+◌, ◌-◌, ◌<◌, ◌≤◌, ◌^◌, ℕ, List, length, take};
ghost use Rattle.std.specs.Prelude.{drop, Option, Some, None, Ok, Err, IfOk, IfErr, OnOk, OnErr, IfSome, ◌==◌};
ghost use Rattle.raft_log_records.specs.Reading.{record_at};
ghost use Rattle.raft_log_records.specs.Signature.{signature_of};
ghost use Rattle.raft_log_disk.specs.Format.{header_len};
ghost use Rattle.raft_log_disk.specs.Chance.{gap, padding};
ghost use Rattle.std.specs.List.{list_all};
ghost use Rattle.raft_log_file.specs.Reading.{read_behind};
ghost use Rattle.raft_log_file.specs.Errors.{IsReadFault, IsOpenFault, IsNextFault};
ghost use Rattle.raft_log_file.specs.Reader.{block_len, IsReader, HoldsBytes, Finds, FindsHere, Front, Next, Stops, FailsNext, bytes_in, held_bytes, left};

use crate::reader::LogFileReader;
use raft_log_files::{CorruptionFault, Error, Fd, FileSystem, HeaderFault, LogFileFormat};
use raft_log_records::{
    EntriesBlock, FileBlockHandle, FileId, LogFileContext, LogItemBatch, RecordError, RecordFault,
    read_record, record_len,
};
use std::alloc::Global;

/// The bytes that tell how long a record is.
const RECORD_HEAD_LEN: u64 = 8;

/// A batch that was read from a log file.
#[derive(Drop)]
pub struct ReadBatch {
    pub batch: LogItemBatch,
    /// Where the entries stand in the file, with their checksum. Without entries it has no bytes.
    pub block: FileBlockHandle,
    /// The bytes of the file before the record.
    pub offset: u64,
    /// The record's whole length in bytes.
    pub len: u32,
}

/// A log file whose batches are read.
#[derive(Clone, Copy, PartialEq, Eq)]
pub struct OpenFile {
    pub(crate) id: FileId,
    pub(crate) format: LogFileFormat,
    pub(crate) fd: Fd,
}

/// Reads the batches of a log file in turn (raft-engine's `LogItemBatchFileReader`), by blocks of
/// the file: it never holds more of it than a block or a record, whichever is longer.
#[derive(Drop)]
pub struct LogItemBatchFileReader {
    pub(crate) file: Option<OpenFile>,
    /// The bytes that a read of the file asks for at least.
    pub(crate) read_block_size: u64,
    /// The file's length in bytes.
    pub(crate) size: u64,
    pub(crate) buffer: Vec<u8>,
    /// The bytes of the file before the buffer's.
    pub(crate) buffer_offset: u64,
    /// The bytes of the file up to which it was read.
    pub(crate) valid_offset: u64,
}

fn len_of(block: Option<EntriesBlock>) -> u64
    ensures { result ≡ block_len block }
{
    match block {
        Some(block) => block.len,
        None => 0,
    }
}

/// The batch of the record at the front of some bytes, which begin at `offset` in the file.
fn batch_in(
    alloc: Global,
    bytes: &[u8],
    file: OpenFile,
    offset: u64,
) -> Result<ReadBatch, RecordError>
    requires { offset + length bytes.now < 2 ^ 64 }
    ensures { Finds result (record_at (signature_of file.format.version file.id.seq) bytes.now) offset }
{
    let context = LogFileContext::new(file.id, file.format.version);
    let record = read_record(alloc, bytes, context.get_signature())?;
    let block = FileBlockHandle {
        id: file.id,
        offset: offset + RECORD_HEAD_LEN,
        len: len_of(record.entries_block()),
    };
    let len = record.len;
    Ok(ReadBatch {
        batch: record.batch,
        block,
        offset,
        len,
    })
}

/// How far it is from a place to the next multiple of an alignment.
fn gap_at(alignment: u64, offset: u64) -> u64
    ensures { result ≡ gap alignment offset }
{
    if alignment == 0 || offset % alignment == 0 {
        return 0;
    }
    alignment - offset % alignment
}

fn are_zeros(bytes: &[u8]) -> bool
    ensures { result ≡ list_all (λ b. b == 0) bytes.now }
{
    bytes.iter().all(|byte| *byte == 0)
}

impl LogItemBatchFileReader {
    /// A reader of no file yet. Each read of a file asks for `read_block_size` bytes at least.
    pub fn new(alloc: Global, read_block_size: u64) -> LogItemBatchFileReader
        ensures file { result.file ≡ None }
        ensures offset { result.valid_offset ≡ 0 }
    {
        LogItemBatchFileReader {
            file: None,
            read_block_size,
            size: 0,
            buffer: Vec::new(alloc),
            buffer_offset: 0,
            valid_offset: 0,
        }
    }

    /// Begins to read a file of this name and format, behind its header. A file that is shorter
    /// than the format's header is `Corruption`. After an `Err` the reader is as it was.
    pub fn open<F: FileSystem>(
        &mut self,
        files: &F,
        id: FileId,
        format: LogFileFormat,
        reader: LogFileReader,
    ) -> Result<(), Error>
        ensures ok { OnOk result (left self.new (F.disk files.now) ≡ read_behind id format (header_len format.version) ((F.disk files.now).file reader.fd.0).bytes) }
        ensures reader { OnOk result (IsReader self.new (F.disk files.now)) }
        ensures held { OnOk result (held_bytes self.new (F.disk files.now) ≡ ((F.disk files.now).file reader.fd.0).bytes) }
        ensures offset { OnOk result (self.new.valid_offset ≡ header_len format.version) }
        ensures file { OnOk result (self.new.file ≡ Some (record { id = id; format = format; fd = reader.fd })) }
        ensures err { IfErr result (λ e. IsOpenFault (F.disk files.now) (F.meter files.now) reader.fd.0 format e) }
        ensures kept { OnErr result (self.new ≡ self.old) }
    {
        let size = reader.file_size(files)?;
        let header_len = LogFileFormat::encoded_len(format.version) as u64;
        if size < header_len {
            return Err(Error::Corruption(CorruptionFault::Header(HeaderFault::CutShort)));
        }
        self.file = Some(OpenFile {
            id,
            format,
            fd: reader.fd,
        });
        self.size = size;
        self.buffer.clear();
        self.buffer_offset = header_len;
        self.valid_offset = header_len;
        Ok(())
    }

    /// Lets go of the file.
    pub fn reset(&mut self)
        ensures file { self.new.file ≡ None }
        ensures offset { self.new.valid_offset ≡ 0 }
    {
        self.file = None;
        self.size = 0;
        self.buffer.clear();
        self.buffer_offset = 0;
        self.valid_offset = 0;
    }

    /// The bytes of the file up to which it was read: its whole batches, and padding behind them.
    pub fn valid_offset(&self) -> u64
        ensures { result ≡ self.now.valid_offset }
    {
        self.valid_offset
    }

    /// Has `need` bytes of the file in the buffer, or all up to its end.
    fn fill<F: FileSystem>(
        &mut self,
        files: &F,
        alloc: Global,
        file: OpenFile,
        need: u64,
    ) -> Result<(), Error>
        requires { HoldsBytes (bytes_in (F.disk files.now) file) self.old.buffer.items self.old.buffer_offset self.old.valid_offset self.old.size }
        ensures same { (self.new.file ≡ self.old.file) × (self.new.valid_offset ≡ self.old.valid_offset) × (self.new.size ≡ self.old.size) }
        ensures holds { HoldsBytes (bytes_in (F.disk files.now) file) self.new.buffer.items self.new.buffer_offset self.new.valid_offset self.new.size }
        ensures room { self.new.size < 2 ^ 64 }
        ensures ok { OnOk result (Front need (bytes_in (F.disk files.now) file) self.new.buffer.items self.new.buffer_offset self.new.valid_offset) }
        ensures err { IfErr result (λ e. IsReadFault (F.disk files.now) (F.meter files.now) file.fd.0 e) }
    {
        let end = self.valid_offset + need.min(self.size - self.valid_offset);
        if end <= self.buffer_offset + self.buffer.len() as u64 {
            return Ok(());
        }
        let reader = LogFileReader { fd: file.fd };
        let len = need.max(self.read_block_size);
        self.buffer = reader.read_up_to(files, alloc, self.valid_offset, len)?;
        self.buffer_offset = self.valid_offset;
        Ok(())
    }

    /// The next `need` bytes of the file, fewer at its end, once they are in the buffer.
    fn front(&self, need: u64) -> &[u8]
        requires held { self.now.buffer_offset ≤ self.now.valid_offset }
        ensures { result.now ≡ take need (drop (self.now.valid_offset - self.now.buffer_offset) self.now.buffer.items) }
    {
        let start = (self.valid_offset - self.buffer_offset) as usize;
        if self.buffer.len() <= start {
            return &[];
        }
        let behind = &self.buffer[start..];
        &behind[..behind.len().min(need as usize)]
    }

    /// The record at the place up to which the file was read, or the fault there.
    fn record_here<F: FileSystem>(
        &mut self,
        files: &F,
        alloc: Global,
        file: OpenFile,
    ) -> Result<Result<ReadBatch, RecordFault>, Error>
        requires { HoldsBytes (bytes_in (F.disk files.now) file) self.old.buffer.items self.old.buffer_offset self.old.valid_offset self.old.size }
        ensures same { (self.new.file ≡ self.old.file) × (self.new.valid_offset ≡ self.old.valid_offset) × (self.new.size ≡ self.old.size) }
        ensures holds { HoldsBytes (bytes_in (F.disk files.now) file) self.new.buffer.items self.new.buffer_offset self.new.valid_offset self.new.size }
        ensures room { self.new.size < 2 ^ 64 }
        ensures ok { IfOk result (λ r. FindsHere r (record_at (signature_of file.format.version file.id.seq) (drop self.old.valid_offset (bytes_in (F.disk files.now) file))) self.old.valid_offset) }
        ensures err { IfErr result (λ e. IsReadFault (F.disk files.now) (F.meter files.now) file.fd.0 e) }
    {
        self.fill(files, alloc, file, RECORD_HEAD_LEN)?;
        let len = match record_len(self.front(RECORD_HEAD_LEN)) {
            Ok(len) => u64::from(len),
            Err(fault) => return Ok(Err(fault)),
        };
        self.fill(files, alloc, file, len)?;
        match batch_in(alloc, self.front(len), file, self.valid_offset) {
            Ok(batch) => Ok(Ok(batch)),
            Err(RecordError::Corruption(fault)) => Ok(Err(fault)),
            Err(_) => Err(Error::Memory),
        }
    }

    /// How many bytes of padding stand at the place up to which the file was read.
    fn padding_here<F: FileSystem>(
        &mut self,
        files: &F,
        alloc: Global,
        file: OpenFile,
    ) -> Result<u64, Error>
        requires { HoldsBytes (bytes_in (F.disk files.now) file) self.old.buffer.items self.old.buffer_offset self.old.valid_offset self.old.size }
        ensures same { (self.new.file ≡ self.old.file) × (self.new.valid_offset ≡ self.old.valid_offset) × (self.new.size ≡ self.old.size) }
        ensures holds { HoldsBytes (bytes_in (F.disk files.now) file) self.new.buffer.items self.new.buffer_offset self.new.valid_offset self.new.size }
        ensures ok { IfOk result (λ n. n ≡ padding file.format.alignment self.old.valid_offset (drop self.old.valid_offset (bytes_in (F.disk files.now) file))) }
        ensures err { IfErr result (λ e. IsReadFault (F.disk files.now) (F.meter files.now) file.fd.0 e) }
    {
        let gap = gap_at(file.format.alignment, self.valid_offset);
        if self.size - self.valid_offset < gap {
            return Ok(0);
        }
        self.fill(files, alloc, file, gap)?;
        if are_zeros(self.front(gap)) {
            Ok(gap)
        } else {
            Ok(0)
        }
    }

    /// The next batch of the file that is read.
    fn next_in<F: FileSystem>(
        &mut self,
        files: &F,
        alloc: Global,
        file: OpenFile,
    ) -> Result<Option<ReadBatch>, Error>
        requires { HoldsBytes (bytes_in (F.disk files.now) file) self.old.buffer.items self.old.buffer_offset self.old.valid_offset self.old.size }
        ensures same { self.new.file ≡ self.old.file }
        ensures holds { HoldsBytes (bytes_in (F.disk files.now) file) self.new.buffer.items self.new.buffer_offset self.new.valid_offset self.new.size }
        ensures next { Next result (bytes_in (F.disk files.now) file)
            (read_behind file.id file.format self.old.valid_offset (bytes_in (F.disk files.now) file))
            (read_behind file.id file.format self.new.valid_offset (bytes_in (F.disk files.now) file)) }
        ensures stops { Stops result self.new.valid_offset (read_behind file.id file.format self.old.valid_offset (bytes_in (F.disk files.now) file)) }
        ensures err { IfErr result (λ e. IsNextFault (F.disk files.now) (F.meter files.now) file.fd.0 e) }
    {
        while self.valid_offset < self.size {
            match self.record_here(files, alloc, file)? {
                Ok(batch) => {
                    self.valid_offset += u64::from(batch.len);
                    return Ok(Some(batch));
                }
                Err(fault) => {
                    let padding = self.padding_here(files, alloc, file)?;
                    if padding == 0 {
                        return Err(Error::Corruption(CorruptionFault::Record(fault)));
                    }
                    self.valid_offset += padding;
                }
            }
        }
        Ok(None)
    }

    /// The next batch of the file, `None` at the file's end, or `Corruption` where bytes are no
    /// record: then each further call answers the same. A reader of no file answers `None`. After
    /// `Io` and `Memory` the call may be made again.
    pub fn next<F: FileSystem>(
        &mut self,
        files: &F,
        alloc: Global,
    ) -> Result<Option<ReadBatch>, Error>
        requires { IsReader self.old (F.disk files.now) }
        ensures reader { IsReader self.new (F.disk files.now) }
        ensures file { self.new.file ≡ self.old.file }
        ensures next { Next result (held_bytes self.old (F.disk files.now)) (left self.old (F.disk files.now)) (left self.new (F.disk files.now)) }
        ensures stops { Stops result self.new.valid_offset (left self.old (F.disk files.now)) }
        ensures err { IfErr result (λ e. FailsNext self.old (F.disk files.now) (F.meter files.now) e) }
    {
        match self.file {
            Some(file) => self.next_in(files, alloc, file),
            None => Ok(None),
        }
    }
}
