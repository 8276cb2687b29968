//! The text of how the reading of a file ended.
ghost use Rattle.std.specs.Prelude.{◌≡◌, ◌++◌, OnOk, string_bytes};
ghost use Rattle.raft_log_contents.specs.Endings.{cut_text, ending_text, fault_name, file_text, queue_text};

use crate::content::{Ending, LogContent};
use crate::numbers::push_named;
use raft_log_files::{CorruptionFault, HeaderFault};
use raft_log_records::{FileId, LogQueue, RecordFault};
use std::alloc::AllocError;

// The name of a header's fault.
fn header_name(fault: HeaderFault) -> &'static str
    ensures { result.now ≡ fault_name (CorruptionFault.Header fault) }
{
    match fault {
        HeaderFault::CutShort => "header CutShort",
        HeaderFault::NoHeader => "header NoHeader",
        HeaderFault::BadVersion => "header BadVersion",
    }
}

// The name of a record's fault.
fn record_name(fault: RecordFault) -> &'static str
    ensures { result.now ≡ fault_name (CorruptionFault.Record fault) }
{
    match fault {
        RecordFault::CutShort => "record CutShort",
        RecordFault::ItemsCutShort => "record ItemsCutShort",
        RecordFault::BadLength => "record BadLength",
        RecordFault::BadOffset => "record BadOffset",
        RecordFault::ItemsChecksum => "record ItemsChecksum",
        RecordFault::BadTag => "record BadTag",
        RecordFault::NotConsecutive => "record NotConsecutive",
        RecordFault::EmptyKey => "record EmptyKey",
        RecordFault::TrailingBytes => "record TrailingBytes",
        RecordFault::EntriesLength => "record EntriesLength",
        RecordFault::EntriesChecksum => "record EntriesChecksum",
    }
}

// The name of a fault.
fn fault_name(fault: CorruptionFault) -> &'static str
    ensures { result.now ≡ fault_name fault }
{
    match fault {
        CorruptionFault::Header(fault) => header_name(fault),
        CorruptionFault::Record(fault) => record_name(fault),
        CorruptionFault::NoSuchFile => "file NoSuchFile",
    }
}

/// The name of a queue.
pub fn queue_name(queue: LogQueue) -> &'static str
    ensures { result.now ≡ queue_text queue }
{
    match queue {
        LogQueue::Rewrite => "rewrite",
        LogQueue::Append => "append",
    }
}

/// The text, and behind it a file's queue and number.
pub fn push_file(text: &mut String, id: FileId) -> Result<(), AllocError>
    ensures { OnOk result (string_bytes text.new ≡ string_bytes text.old ++ file_text id) }
{
    text.push_str(queue_name(id.queue))?;
    push_named(text, " ", id.seq)
}

/// The text, and behind it a line that tells where and why the reading of a file ended; none where
/// it was read to its end.
pub fn push_ending(
    text: &mut String,
    id: FileId,
    ending: Ending,
    to: u64,
    size: u64,
) -> Result<(), AllocError>
    ensures { OnOk result (string_bytes text.new ≡ string_bytes text.old ++ ending_text id ending to size) }
{
    match ending {
        Ending::Whole => Ok(()),
        Ending::Room => {
            push_file(text, id)?;
            push_named(text, " room from ", to)?;
            push_named(text, " to ", size)?;
            text.push_str("\n")
        }
        Ending::Fault(fault) => {
            push_file(text, id)?;
            push_named(text, " fault at ", to)?;
            push_named(text, " of ", size)?;
            text.push_str(" ")?;
            text.push_str(fault_name(fault))?;
            text.push_str("\n")
        }
    }
}

/// The text, and behind it a line that tells where a file is cut; none where it isn't.
pub fn push_cut(text: &mut String, id: FileId, content: &LogContent) -> Result<(), AllocError>
    ensures { OnOk result (string_bytes text.new ≡ string_bytes text.old ++ cut_text id content.now.ending content.now.to content.now.size) }
{
    match content.ending {
        Ending::Whole => Ok(()),
        ending => {
            text.push_str("cut ")?;
            push_ending(text, id, ending, content.to, content.size)
        }
    }
}
