//! The items of log files, in turn.

ghost use Rattle.std.specs.Prelude.{◌≡◌, ◌⊎◌, ◌∷◌, [], List, Some, None, IfOk, IfErr, OnOk, OnErr, map};
ghost use Rattle.raft_log_disk.specs.Disk.{Disk, IsFile, IsIn, fd_of};
ghost use Rattle.raft_log_file.specs.Errors.{IsReadFault};
ghost use Rattle.raft_log_items.specs.Found.{AreLogFiles, Found, IsDirectoryFault, IsFileFault, IsLogPath, found_of};
ghost use Rattle.raft_log_items.specs.Items.{Fails, IsReading, IsUnopened, NextItem, NextOfFile, StandsAt, current, file_items, files_left, items_at, nothing};

use crate::found::{LogFile, files_in, id_of_path};
use raft_log_file::{LogItemBatchFileReader, build_file_reader};
use raft_log_files::{ArgumentFault, Error, Fd, FileSystem, Permission};
use raft_log_records::{FileId, LogItem};
use std::alloc::Global;
use std::collections::VecDeque;

/// The bytes that a read of a file asks for at least.
const READ_BLOCK_SIZE: u64 = 16384;

/// Reads the items of log files in turn (raft-engine's `LogItemReader`): file by file, batch by
/// batch. It holds a block of a file and a batch, never a file.
#[derive(Drop)]
pub struct LogItemReader {
    /// The files that aren't read yet.
    pub(crate) files: VecDeque<LogFile>,
    /// The file that is read.
    pub(crate) batches: LogItemBatchFileReader,
    /// The items left of the batch that was read last.
    pub(crate) items: VecDeque<LogItem>,
}

/// Opens a log file for reading.
fn open_file<F: FileSystem>(files: &mut F, path: &str) -> Result<Fd, Error>
    ensures ok { IfOk result (λ fd. fd_of (F.disk files.new).names path.now ≡ Some fd.0) }
    ensures disk { F.disk files.new ≡ F.disk files.old }
    ensures quiet { OnOk result ((F.meter files.new).refusals ≡ (F.meter files.old).refusals) }
    ensures err { IfErr result (λ e. IsUnopened (F.disk files.new) path.now (F.meter files.old) (F.meter files.new) e) }
{
    match files.open(path, Permission::ReadOnly) {
        Ok(fd) => Ok(fd),
        Err(fault) => Err(Error::from(fault)),
    }
}

impl LogItemReader {
    /// A reader that has these files before it.
    fn over(alloc: Global, files: Vec<LogFile>) -> LogItemReader
        ensures left { (d : Disk) → files_left result d ≡ nothing ∷ map (file_items d) (map found_of files.items) }
        ensures reading { (d : Disk) → IsReading result d }
    {
        let files = VecDeque::from_vec(files);
        let batches = LogItemBatchFileReader::new(alloc, READ_BLOCK_SIZE);
        let items = VecDeque::new(alloc);
        LogItemReader {
            files,
            batches,
            items,
        }
    }

    /// A reader of one log file. A path of no file, and one whose last part is no log file's name,
    /// are `InvalidArgument`. The file is opened by the first `next`.
    pub fn new_file_reader<F: FileSystem>(
        files: &F,
        alloc: Global,
        path: &str,
    ) -> Result<LogItemReader, Error>
        ensures file { OnOk result (IsFile (F.disk files.now) path.now) }
        ensures ok { IfOk result (λ r. (id : FileId) × IsLogPath path.now id
            × (files_left r (F.disk files.now) ≡ nothing ∷ file_items (F.disk files.now) (id, path.now) ∷ [])) }
        ensures reading { IfOk result (λ r. IsReading r (F.disk files.now)) }
        ensures err { IfErr result (λ e. IsFileFault (F.disk files.now) path.now e) }
    {
        if !files.is_file(path) {
            return Err(Error::InvalidArgument(ArgumentFault::NotAFile));
        }
        let Some(id) = id_of_path(path) else {
            return Err(Error::InvalidArgument(ArgumentFault::NotALogFile));
        };
        let path = String::from_str(alloc, path)?;
        let mut found = Vec::new(alloc);
        found.push(LogFile { id, path })?;
        Ok(LogItemReader::over(alloc, found))
    }

    /// A reader of all log files of a directory: those of the rewrite queue, then those of the
    /// append queue, by rising numbers. Other names are passed over. A path of no directory is
    /// `InvalidArgument`.
    pub fn new_directory_reader<F: FileSystem>(
        files: &F,
        alloc: Global,
        directory: &str,
    ) -> Result<LogItemReader, Error>
        ensures directory { OnOk result (IsIn directory.now (F.disk files.now).directories) }
        ensures ok { IfOk result (λ r. (found : List Found) × AreLogFiles (F.disk files.now) directory.now found
            × (files_left r (F.disk files.now) ≡ nothing ∷ map (file_items (F.disk files.now)) found)) }
        ensures reading { IfOk result (λ r. IsReading r (F.disk files.now)) }
        ensures err { IfErr result (λ e. IsDirectoryFault (F.disk files.now) directory.now e) }
    {
        if !files.is_dir(directory) {
            return Err(Error::InvalidArgument(ArgumentFault::NotADirectory));
        }
        let found = files_in(files, alloc, directory)?;
        Ok(LogItemReader::over(alloc, found))
    }

    /// The next item of the file that is read, `None` once all are read.
    fn next_in_file<F: FileSystem>(
        &mut self,
        files: &F,
        alloc: Global,
    ) -> Result<Option<LogItem>, Error>
        requires { IsReading self.old (F.disk files.now) }
        ensures reading { IsReading self.new (F.disk files.now) }
        ensures files { self.new.files ≡ self.old.files }
        ensures next { NextOfFile result (F.disk files.now) (F.meter files.now) (current self.old (F.disk files.now)) (current self.new (F.disk files.now)) }
    {
        'batches: while self.items.is_empty() {
            match self.batches.next(files, alloc) {
                Ok(Some(read)) => self.items = VecDeque::from_vec(read.batch.items),
                Ok(None) => return Ok(None),
                Err(error) => return Err(error),
            }
        }
        Ok(self.items.pop_front())
    }

    /// Lets go of the file that is read.
    fn leave(&mut self)
        ensures file { self.new.batches.file ≡ None }
        ensures items { self.new.items.items ≡ [] }
        ensures files { self.new.files ≡ self.old.files }
    {
        self.batches.reset();
        self.items.clear();
    }

    /// Begins to read an open file. After an `Err` the reader is as it was.
    fn begin<F: FileSystem>(
        &mut self,
        files: &F,
        alloc: Global,
        id: FileId,
        fd: Fd,
    ) -> Result<(), Error>
        requires { self.old.items.items ≡ [] }
        ensures reading { OnOk result (IsReading self.new (F.disk files.now)) }
        ensures ok { OnOk result (current self.new (F.disk files.now) ≡ items_at (F.disk files.now) id (Some fd.0)) }
        ensures files { self.new.files ≡ self.old.files }
        ensures err { IfErr result (λ e. StandsAt (items_at (F.disk files.now) id (Some fd.0)) e ⊎ IsReadFault (F.disk files.now) (F.meter files.now) fd.0 e) }
        ensures kept { OnErr result (self.new ≡ self.old) }
    {
        let reader = build_file_reader(fd);
        let format = reader.parse_format(files, alloc)?;
        self.batches.open(files, id, format, reader)?;
        Ok(())
    }

    /// Opens a file and begins to read it. After an `Err` the reader is as it was.
    fn open<F: FileSystem>(
        &mut self,
        files: &mut F,
        alloc: Global,
        file: LogFile,
    ) -> Result<(), Error>
        requires { self.old.items.items ≡ [] }
        ensures reading { OnOk result (IsReading self.new (F.disk files.new)) }
        ensures ok { OnOk result (current self.new (F.disk files.new) ≡ file_items (F.disk files.new) (found_of file)) }
        ensures files { self.new.files ≡ self.old.files }
        ensures disk { F.disk files.new ≡ F.disk files.old }
        ensures quiet { OnOk result ((F.meter files.new).refusals ≡ (F.meter files.old).refusals) }
        ensures err { IfErr result (λ e. Fails (F.disk files.new) (F.meter files.old) (F.meter files.new) (file_items (F.disk files.new) (found_of file)) e) }
        ensures kept { OnErr result (self.new ≡ self.old) }
    {
        let fd = open_file(files, file.path.as_str())?;
        self.begin(files, alloc, file.id, fd)?;
        Ok(())
    }

    /// The next item of the files, `None` once all are read. An `Err` is what stands there: the
    /// file's first fault, behind its last whole batch, or that the file is gone; else memory is
    /// missing, or a call on the file was refused. The rest of that file is left, and the next call
    /// goes on with the file behind it. Between calls the file that is read must stay as it is.
    pub fn next<F: FileSystem>(
        &mut self,
        files: &mut F,
        alloc: Global,
    ) -> Result<Option<LogItem>, Error>
        requires { IsReading self.old (F.disk files.old) }
        ensures reading { IsReading self.new (F.disk files.new) }
        ensures next { NextItem result (F.disk files.new) (F.meter files.old) (F.meter files.new) (files_left self.old (F.disk files.new)) (files_left self.new (F.disk files.new)) }
        ensures disk { F.disk files.new ≡ F.disk files.old }
    {
        'files: loop {
            match self.next_in_file(files, alloc) {
                Ok(Some(item)) => return Ok(Some(item)),
                Ok(None) => {
                    self.leave();
                    let Some(file) = self.files.pop_front() else {
                        return Ok(None);
                    };
                    self.open(files, alloc, file)?;
                }
                Err(error) => {
                    self.leave();
                    return Err(error);
                }
            }
        }
    }
}
