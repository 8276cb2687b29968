//! Why the calls of a log's files are refused.

use crate::texts::print_texts;
use raft_log_files::{ArgumentFault, CorruptionFault, DiskRefusal, Error, HeaderFault, OtherFault};
use raft_log_records::RecordFault;
use std::io;

fn print_corruptions(rt: &impl Print) -> io::Result<()> {
    print_texts(
        rt,
        "CorruptionFault",
        &[
            CorruptionFault::Header(HeaderFault::NoHeader),
            CorruptionFault::Record(RecordFault::CutShort),
            CorruptionFault::NoSuchFile,
        ],
    )
}

fn print_arguments(rt: &impl Print) -> io::Result<()> {
    print_texts(
        rt,
        "ArgumentFault",
        &[
            ArgumentFault::NotToml,
            ArgumentFault::BadSetting,
            ArgumentFault::TooLargeForToml,
            ArgumentFault::NotAFile,
            ArgumentFault::NotALogFile,
            ArgumentFault::NotADirectory,
        ],
    )?;
    print_texts(
        rt,
        "DiskRefusal",
        &[DiskRefusal::Refused, DiskRefusal::NoSpace],
    )
}

fn print_others(rt: &impl Print) -> io::Result<()> {
    print_texts(
        rt,
        "OtherFault",
        &[
            OtherFault::PurgeBelowTarget,
            OtherFault::RecycleUnderVersion1,
            OtherFault::PrefillWithoutRecycle,
            OtherFault::NoTargetSize,
            OtherFault::NotADirectory,
            OtherFault::FileGone,
            OtherFault::NoFileNumber,
            OtherFault::NumberOutOfSpan,
        ],
    )
}

fn print_errors(rt: &impl Print) -> io::Result<()> {
    print_texts(
        rt,
        "Error",
        &[
            Error::Io(DiskRefusal::NoSpace),
            Error::Corruption(CorruptionFault::NoSuchFile),
            Error::InvalidArgument(ArgumentFault::NotToml),
            Error::TryAgain,
            Error::Memory,
            Error::Other(OtherFault::FileGone),
            Error::EntryCompacted,
            Error::EntryNotFound,
        ],
    )
}

pub fn print(rt: &impl Print) -> io::Result<()> {
    print_corruptions(rt)?;
    print_arguments(rt)?;
    print_others(rt)?;
    print_errors(rt)
}
