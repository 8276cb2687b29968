//! Batches that are appended, and texts of what calls told.

ghost use Rattle.std.specs.Prelude.{◌<◌, ◌^◌, length, IfOk};
ghost use Rattle.raft_log_records.specs.Spelling.{AreItems};
ghost use Rattle.raft_log_pipe.specs.Pipe.{IsPopulated};

use raft_log_records::{LogBatch, RecordError};
use std::alloc::{AllocError, Global};

/// A key is one of up to 100 bytes.
fn key(alloc: Global, word: &str) -> Result<Vec<u8>, RecordError>
    ensures some { IfOk result (λ v. 0 < length v.items) }
    ensures bound { IfOk result (λ v. length v.items < 2 ^ 32) }
{
    let key = Vec::from_slice(alloc, word.as_bytes())?;
    if key.is_empty() || key.len() > 100 {
        return Err(RecordError::TooLong);
    }
    Ok(key)
}

fn value(alloc: Global, byte: u8, len: u32) -> Result<Vec<u8>, AllocError>
    ensures { IfOk result (λ v. length v.items < 2 ^ 32) }
{
    vec![in alloc; byte; len as usize]
}

/// A batch that puts so many of these bytes under a key of group 7. Its record has 33 bytes more, and
/// those of the key.
pub fn put_of(alloc: Global, word: &str, byte: u8, len: u32) -> Result<LogBatch, RecordError>
    ensures populated { IfOk result IsPopulated }
    ensures items { IfOk result (λ b. AreItems b.items) }
{
    let mut batch = LogBatch::new(alloc);
    batch.put(7, key(alloc, word)?, value(alloc, byte, len)?)?;
    batch.finish_populate()?;
    Ok(batch)
}

/// Puts a word and numbers behind a text.
pub fn say(text: &mut String, word: &str, numbers: &[u64]) -> Result<(), AllocError> {
    if !text.as_str().is_empty() {
        text.push_str(", ")?;
    }
    text.push_str(word)?;
    let alloc = *text.allocator();
    for number in numbers {
        let digits = format!(in alloc; " {number}")?;
        text.push_str(digits.as_str())?;
    }
    Ok(())
}
