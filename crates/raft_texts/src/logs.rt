//! Why the calls of a log are refused.

use crate::texts::print_texts;
use raft_content_log::PlainFault;
use raft_disk_uses::RestartFault;
use raft_log_disk::{CrashRefusal, HeaderFault, IoFault};
use raft_log_engine::EngineFault;
use raft_log_files::Error;
use raft_log_memtables::FetchError;
use raft_log_records::{RecordError, RecordFault, WriteError};
use std::io;

fn print_records(rt: &impl Print) -> io::Result<()> {
    print_texts(
        rt,
        "RecordError",
        &[
            RecordError::Memory,
            RecordError::TooLong,
            RecordError::Corruption(RecordFault::BadTag),
        ],
    )?;
    print_texts(rt, "WriteError", &[WriteError::Memory, WriteError::TooLong])?;
    print_texts(
        rt,
        "RecordFault",
        &[
            RecordFault::CutShort,
            RecordFault::ItemsCutShort,
            RecordFault::BadLength,
            RecordFault::BadOffset,
            RecordFault::ItemsChecksum,
            RecordFault::BadTag,
            RecordFault::NotConsecutive,
            RecordFault::EmptyKey,
            RecordFault::TrailingBytes,
            RecordFault::EntriesLength,
            RecordFault::EntriesChecksum,
        ],
    )
}

fn print_disk(rt: &impl Print) -> io::Result<()> {
    print_texts(
        rt,
        "IoFault",
        &[
            IoFault::NotFound,
            IoFault::NoSpace,
            IoFault::Refused,
            IoFault::Memory,
        ],
    )?;
    print_texts(
        rt,
        "HeaderFault",
        &[
            HeaderFault::CutShort,
            HeaderFault::NoHeader,
            HeaderFault::BadVersion,
        ],
    )?;
    print_texts(
        rt,
        "CrashRefusal of files",
        &[
            CrashRefusal::NotAnImage,
            CrashRefusal::ByChance,
            CrashRefusal::Memory,
        ],
    )?;
    print_texts(
        rt,
        "RestartFault",
        &[
            RestartFault::Crash(CrashRefusal::NotAnImage),
            RestartFault::Read(IoFault::Refused),
        ],
    )
}

fn print_tables(rt: &impl Print) -> io::Result<()> {
    print_texts(
        rt,
        "FetchError",
        &[
            FetchError::Memory,
            FetchError::EntryCompacted,
            FetchError::EntryNotFound,
        ],
    )?;
    print_texts(
        rt,
        "PlainFault",
        &[
            PlainFault::Memory,
            PlainFault::NotTaken,
            PlainFault::NotThere,
            PlainFault::Lost,
        ],
    )
}

fn print_engine(rt: &impl Print) -> io::Result<()> {
    print_texts(
        rt,
        "EngineFault",
        &[
            EngineFault::Log(Error::TryAgain),
            EngineFault::NotTaken,
            EngineFault::Marked,
            EngineFault::NotAMessage,
            EngineFault::Stopped,
        ],
    )
}

pub fn print(rt: &impl Print) -> io::Result<()> {
    print_records(rt)?;
    print_disk(rt)?;
    print_tables(rt)?;
    print_engine(rt)
}
