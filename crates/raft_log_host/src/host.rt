//! The files of a directory, by their numbers. Each method of `Host` that notes something makes one call
//! of the system, by the function above it, and notes that call with its answer: that it makes the call is
//! trusted. Changes are made of these.
ghost use Rattle.std.specs.Prelude.{◌≡◌, ◌<◌, [], ◌∷◌, false, true, length, IfOk, OnErr, is_ok};
ghost use Rattle.raft_log_host.specs.Calls.{HostCall, IsNoted, IsTold, flag, noted};

use crate::folder::folder_of;
use crate::record::Record;
use std::alloc::Global;
use std::fs::OpenOptions;
use std::os::unix::fs::FileExt;
use std::{fs, io};

const CREATE: u64 = 0;

const TAKE: u64 = 1;

const DELETE: u64 = 2;

const RENAME: u64 = 3;

const MAKE_DIR: u64 = 4;

const WRITE: u64 = 5;

const READ: u64 = 6;

const TRUNCATE: u64 = 7;

const FILL: u64 = 8;

const SYNC: u64 = 9;

const SYNC_FOLDER: u64 = 10;

const SETTLE: u64 = 11;

/// So many zeros are written at once.
const ZEROS: usize = 4096;

#[derive(Drop)]
struct HostFile {
    number: u64,
    path: String,
    file: fs::File,
}

/// Files of the operating system, open for reading and writing.
#[derive(Drop)]
pub struct Host {
    rt: HostRuntime,
    files: Vec<HostFile>,
    /// Lets no other process have the directory, as long as it is open.
    lock: fs::File,
    pub(crate) record: Record,
}

// 1 where the system did what it was asked.
fn flag(answer: &io::Result<()>) -> u64
    ensures { result ≡ flag (is_ok answer.now) }
{
    match answer {
        Ok(()) => 1,
        Err(_) => 0,
    }
}

fn no_such_file() -> io::Error {
    io::ErrorKind::NotFound.into()
}

// ---- the calls of the system

fn find(files: &[HostFile], number: u64) -> io::Result<&fs::File> {
    for known in files {
        if known.number == number {
            return Ok(&known.file);
        }
    }
    Err(no_such_file())
}

fn place_of(files: &[HostFile], path: &str) -> io::Result<usize>
    ensures { IfOk result (λ place. place < length files.now) }
{
    for (place, known) in files.iter().enumerate() {
        if known.path.as_str() == path {
            return Ok(place);
        }
    }
    Err(no_such_file())
}

fn open_new(
    rt: &HostRuntime,
    files: &mut Vec<HostFile>,
    path: &str,
    number: u64,
) -> io::Result<()> {
    let file = fs::File::create_new(rt, path)?;
    let path = String::from_str(rt.alloc(), path)?;
    files.push(HostFile { number, path, file })?;
    Ok(())
}

fn open_old(
    rt: &HostRuntime,
    files: &mut Vec<HostFile>,
    path: &str,
    number: u64,
) -> io::Result<()> {
    let file = OpenOptions::new().read(true).write(true).open(rt, path)?;
    let path = String::from_str(rt.alloc(), path)?;
    files.push(HostFile { number, path, file })?;
    Ok(())
}

fn remove(rt: &HostRuntime, files: &mut Vec<HostFile>, path: &str) -> io::Result<()> {
    let place = place_of(files, path)?;
    fs::remove_file(rt, path)?;
    let _ = files.remove(place);
    Ok(())
}

fn move_to(rt: &HostRuntime, files: &mut Vec<HostFile>, from: &str, to: &str) -> io::Result<()> {
    let place = place_of(files, from)?;
    let path = String::from_str(rt.alloc(), to)?;
    fs::rename(rt, from, to)?;
    files[place].path = path;
    Ok(())
}

fn sync_folder(rt: &HostRuntime, path: &str) -> io::Result<()> {
    fs::File::open(rt, folder_of(path))?.sync_all()
}

// What an earlier process wrote and didn't sync is synced before it is read.
fn settle(files: &[HostFile], number: u64) -> io::Result<()> {
    find(files, number)?.sync_all()
}

fn write_all(files: &[HostFile], number: u64, at: u64, bytes: &[u8]) -> io::Result<()> {
    find(files, number)?.write_all_at(bytes, at)
}

fn read_exactly(
    alloc: Global,
    files: &[HostFile],
    number: u64,
    at: u64,
    len: usize,
) -> io::Result<Vec<u8>> {
    let mut bytes = vec![in alloc; 0u8; len]?;
    find(files, number)?.read_exact_at(&mut bytes, at)?;
    Ok(bytes)
}

fn set_len(files: &[HostFile], number: u64, len: u64) -> io::Result<()> {
    find(files, number)?.set_len(len)
}

// Zeros from the end on, up to a length, in pieces.
fn fill_up(files: &[HostFile], number: u64, len: u64) -> io::Result<()> {
    let file = find(files, number)?;
    let zeros = [0u8; ZEROS];
    let mut at = file.metadata()?.len();
    while at < len {
        let piece = (len - at).min(ZEROS as u64);
        file.write_all_at(&zeros[..piece as usize], at)?;
        at += piece;
    }
    Ok(())
}

fn sync_data(files: &[HostFile], number: u64) -> io::Result<()> {
    find(files, number)?.sync_data()
}

// ---- each noted

impl Host {
    /// No file yet.
    pub(crate) fn new(rt: HostRuntime, lock: fs::File) -> Host
        ensures { result.record.events ≡ [] }
    {
        Host {
            rt,
            files: Vec::new(rt.alloc()),
            lock,
            record: Record::new(),
        }
    }

    /// How long a file is.
    pub(crate) fn len(&self, number: u64) -> io::Result<u64> {
        Ok(find(&self.files, number)?.metadata()?.len())
    }

    /// The bytes of a file, to find where its records end.
    pub(crate) fn peek(&self, number: u64, len: usize) -> io::Result<Vec<u8>> {
        read_exactly(self.rt.alloc(), &self.files, number, 0, len)
    }

    fn open_new(&mut self, path: &str, number: u64) -> io::Result<()>
        ensures { IsNoted (HostCall.Create path.now number) result self.old.record.events self.new.record.events }
    {
        let answer = open_new(&self.rt, &mut self.files, path, number);
        let told = flag(&answer);
        self.record
            .note(&[CREATE, number, 0, 0, told], path.as_bytes(), &[]);
        answer
    }

    fn open_old(&mut self, path: &str, number: u64) -> io::Result<()>
        ensures { IsNoted (HostCall.Take path.now number) result self.old.record.events self.new.record.events }
    {
        let answer = open_old(&self.rt, &mut self.files, path, number);
        let told = flag(&answer);
        self.record
            .note(&[TAKE, number, 0, 0, told], path.as_bytes(), &[]);
        answer
    }

    fn remove(&mut self, path: &str) -> io::Result<()>
        ensures { IsNoted (HostCall.Delete path.now) result self.old.record.events self.new.record.events }
    {
        let answer = remove(&self.rt, &mut self.files, path);
        let told = flag(&answer);
        self.record
            .note(&[DELETE, 0, 0, 0, told], path.as_bytes(), &[]);
        answer
    }

    fn move_to(&mut self, from: &str, to: &str) -> io::Result<()>
        ensures { IsNoted (HostCall.Rename from.now to.now) result self.old.record.events self.new.record.events }
    {
        let answer = move_to(&self.rt, &mut self.files, from, to);
        let told = flag(&answer);
        self.record
            .note(&[RENAME, 0, 0, 0, told], from.as_bytes(), to.as_bytes());
        answer
    }

    fn make_folder(&mut self, path: &str) -> io::Result<()>
        ensures { IsNoted (HostCall.MakeDir path.now) result self.old.record.events self.new.record.events }
    {
        let answer = fs::create_dir_all(&self.rt, path);
        let told = flag(&answer);
        self.record
            .note(&[MAKE_DIR, 0, 0, 0, told], path.as_bytes(), &[]);
        answer
    }

    fn sync_folder(&mut self, path: &str) -> io::Result<()>
        ensures { IsNoted (HostCall.SyncFolder path.now) result self.old.record.events self.new.record.events }
    {
        let answer = sync_folder(&self.rt, path);
        let told = flag(&answer);
        self.record
            .note(&[SYNC_FOLDER, 0, 0, 0, told], path.as_bytes(), &[]);
        answer
    }

    fn settle(&mut self, number: u64) -> io::Result<()>
        ensures { IsNoted (HostCall.Settle number) result self.old.record.events self.new.record.events }
    {
        let answer = settle(&self.files, number);
        let told = flag(&answer);
        self.record.note(&[SETTLE, number, 0, 0, told], &[], &[]);
        answer
    }

    /// Bytes are written to a file from a place on.
    pub(crate) fn write_at(&mut self, number: u64, at: u64, bytes: &[u8]) -> io::Result<()>
        ensures { IsNoted (HostCall.Write number at bytes.now) result self.old.record.events self.new.record.events }
    {
        let answer = write_all(&self.files, number, at, bytes);
        let told = flag(&answer);
        self.record.note(&[WRITE, number, at, 0, told], bytes, &[]);
        answer
    }

    /// The bytes that the disk has.
    pub(crate) fn read_at(&mut self, number: u64, at: u64, len: usize) -> io::Result<Vec<u8>>
        ensures ok { IfOk result (λ v. self.new.record.events ≡ noted (HostCall.Read number at v.items) true ∷ self.old.record.events) }
        ensures err { OnErr result (self.new.record.events ≡ noted (HostCall.Read number at []) false ∷ self.old.record.events) }
    {
        let answer = read_exactly(self.rt.alloc(), &self.files, number, at, len);
        match &answer {
            Ok(bytes) => self
                .record
                .note(&[READ, number, at, 0, 1], bytes.as_slice(), &[]),
            Err(_) => self.record.note(&[READ, number, at, 0, 0], &[], &[]),
        }
        answer
    }

    /// A file gets a length.
    pub(crate) fn truncate(&mut self, number: u64, len: u64) -> io::Result<()>
        ensures { IsNoted (HostCall.Truncate number len) result self.old.record.events self.new.record.events }
    {
        let answer = set_len(&self.files, number, len);
        let told = flag(&answer);
        self.record
            .note(&[TRUNCATE, number, 0, len, told], &[], &[]);
        answer
    }

    /// Zeros from the file's end on, up to that many bytes behind a place.
    pub(crate) fn fill(&mut self, number: u64, at: u64, len: u64) -> io::Result<()>
        ensures { IsNoted (HostCall.Fill number at len) result self.old.record.events self.new.record.events }
    {
        let answer = fill_up(&self.files, number, at.saturating_add(len));
        let told = flag(&answer);
        self.record.note(&[FILL, number, at, len, told], &[], &[]);
        answer
    }

    /// The bytes of a file are on the disk once this is told.
    pub(crate) fn sync(&mut self, number: u64) -> io::Result<()>
        ensures { IsNoted (HostCall.Sync number) result self.old.record.events self.new.record.events }
    {
        let answer = sync_data(&self.files, number);
        let told = flag(&answer);
        self.record.note(&[SYNC, number, 0, 0, told], &[], &[]);
        answer
    }
}

// ---- changes of several calls

impl Host {
    /// A new file, whose name is on the disk once this is told.
    pub(crate) fn create(&mut self, path: &str, number: u64) -> io::Result<()>
        ensures { IsTold (HostCall.Create path.now number) result self.old.record.events self.new.record.events }
    {
        self.open_new(path, number)?;
        self.sync_folder(path)?;
        Ok(())
    }

    /// A file that is there, as the disk has it.
    pub(crate) fn take(&mut self, path: &str, number: u64) -> io::Result<()>
        ensures { IsTold (HostCall.Take path.now number) result self.old.record.events self.new.record.events }
    {
        self.open_old(path, number)?;
        self.settle(number)?;
        Ok(())
    }

    /// A file goes, and its name is gone from the disk once this is told.
    pub(crate) fn delete(&mut self, path: &str) -> io::Result<()>
        ensures { IsTold (HostCall.Delete path.now) result self.old.record.events self.new.record.events }
    {
        self.remove(path)?;
        self.sync_folder(path)?;
        Ok(())
    }

    /// A file gets another name, which is on the disk once this is told.
    pub(crate) fn rename(&mut self, from: &str, to: &str) -> io::Result<()>
        ensures { IsTold (HostCall.Rename from.now to.now) result self.old.record.events self.new.record.events }
    {
        self.move_to(from, to)?;
        self.sync_folder(to)?;
        self.sync_folder(from)?;
        Ok(())
    }

    /// A directory is there, and its name is on the disk once this is told.
    pub(crate) fn make_dir(&mut self, path: &str) -> io::Result<()>
        ensures { IsTold (HostCall.MakeDir path.now) result self.old.record.events self.new.record.events }
    {
        self.make_folder(path)?;
        self.sync_folder(path)?;
        Ok(())
    }
}
