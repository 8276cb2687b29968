//! Reading a record: its header, its items and its block of entries, with both checksums.

ghost use Rattle.std.specs.Prelude.{◌≡◌, ◌≤◌, ◌+◌, ◌⊎◌, ◌++◌, ℕ, List, Option, Ok, length, IfOk, IsErrAnd, MatchResult};
ghost use Rattle.std.specs.List.{list_any};
ghost use Rattle.raft_log_records.specs.Item.{Item, item_of, items_of, with_bytes};
ghost use Rattle.raft_log_records.specs.Batch.{IsRecordAt, IsRecordChanged};
ghost use Rattle.raft_log_records.specs.Spelling.{sealed, signed, IsSignature, holds_entries, AreItems, spell_record, record_len};
ghost use Rattle.raft_log_records.specs.Block.{StandsIn};
ghost use Rattle.raft_log_records.specs.Reading.{AreBytes, Gives, Tells, Finds, FailsByChecksum, head_at, len_at, header_at, unsealed, block_at, agrees, record_at, entries_block_at};

use crate::block::EntriesBlock;
use crate::checksum::crc32;
use crate::error::{RecordError, RecordFault};
use crate::item::{LogItem, LogItemContent};
use crate::reading::{body_of, u32_front};
use std::alloc::Global;

/// A record has at most so many bytes.
pub const MAX_RECORD_LEN: u32 = 33_554_432;

/// The length of a record, and where in it the items begin.
const HEADER_LEN: usize = 8;

/// The items of one record, in their order (raft-engine's `LogItemBatch`).
#[derive(Debug, Drop)]
pub struct LogItemBatch {
    pub items: Vec<LogItem>,
}

/// What stands in a record.
#[derive(Debug, Drop)]
pub struct Record<'a> {
    pub batch: LogItemBatch,
    /// The bytes of all entries, one after the other.
    pub entries: &'a [u8],
    /// The record's whole length in bytes.
    pub len: u32,
}

/// What the first eight bytes of a record say: its whole length, and where its items begin.
#[tactic(auto, unfolding(crate::specs::Reading::head_at))]
fn head_of(bytes: &[u8]) -> Result<(u32, u32), RecordFault>
    ensures room { IfOk result (λ x. (16 ≤ x.0) × (x.0 ≤ 33554432) × (x.1 + 8 ≤ x.0)) }
    ensures block { IfOk result (λ x. (x.1 ≡ 8) ⊎ (12 ≤ x.1)) }
    ensures read { result ≡ head_at bytes.now }
{
    let Some((len, rest)) = u32_front(bytes) else {
        return Err(RecordFault::CutShort);
    };
    if len == 0 {
        return Err(RecordFault::BadLength);
    }
    let Some((offset, _)) = u32_front(rest) else {
        return Err(RecordFault::CutShort);
    };
    if len < 16 || MAX_RECORD_LEN < len {
        return Err(RecordFault::BadLength);
    }
    if len - 8 < offset || !(offset == 8 || 12 <= offset) {
        return Err(RecordFault::BadOffset);
    }
    Ok((len, offset))
}

/// How many bytes the record takes that stands at the front of some bytes, of which only the first
/// eight count. Refused are `CutShort`, while more bytes are needed to tell, and, as by
/// `read_record`, a length or an offset of its items that no record has: zeros after four bytes.
pub fn record_len(bytes: &[u8]) -> Result<u32, RecordFault>
    ensures long { IfOk result (λ len. (16 ≤ len) × (len ≤ 33554432)) }
    ensures exact { result ≡ len_at bytes.now }
{
    let (len, _) = head_of(bytes)?;
    Ok(len)
}

#[tactic(auto, unfolding(crate::specs::Reading::header_at))]
fn header_of(bytes: &[u8]) -> Result<(u32, u32), RecordError>
    ensures within { IfOk result (λ x. x.0 ≤ length bytes.now) }
    ensures room { IfOk result (λ x. x.1 + 8 ≤ x.0) }
    ensures header { IfOk result (λ x. 8 ≤ x.1) }
    ensures block { IfOk result (λ x. (x.1 ≡ 8) ⊎ (12 ≤ x.1)) }
    ensures read { Gives (λ x. x) result (header_at bytes.now) }
{
    let (len, offset) = head_of(bytes)?;
    if bytes.len() < len as usize {
        return Err(RecordError::Corruption(RecordFault::CutShort));
    }
    Ok((len, offset))
}

/// A checksum, signed for a file.
pub fn sign(signature: Option<u32>, checksum: u32) -> u32
    ensures { result ≡ signed signature checksum }
{
    match signature {
        None => checksum,
        Some(signature) => checksum ^ signature,
    }
}

/// The bytes before a checksum of them, which is signed for a file.
#[tactic(auto, unfolding(crate::specs::Reading::unsealed))]
fn unseal(wrong: RecordFault, signature: Option<u32>, bytes: &[u8]) -> Result<&[u8], RecordFault>
    requires { 4 ≤ length bytes.now }
    ensures { Tells (λ x. x.now) result (unsealed wrong signature bytes.now) }
{
    let (body, sum) = bytes.split_at(bytes.len() - 4);
    let sum = u32::from_be_bytes([sum[0], sum[1], sum[2], sum[3]]);
    if sum != sign(signature, crc32(body)) {
        return Err(wrong);
    }
    Ok(body)
}

#[tactic(auto, unfolding(crate::specs::Reading::block_at))]
fn block_of(offset: u32, bytes: &[u8]) -> Result<&[u8], RecordFault>
    requires room { offset ≤ length bytes.now }
    requires block { (offset ≡ 8) ⊎ (12 ≤ offset) }
    ensures { Tells (λ x. x.now) result (block_at offset bytes.now) }
{
    let offset = offset as usize;
    if offset == HEADER_LEN {
        return Ok(&[]);
    }
    unseal(
        RecordFault::EntriesChecksum,
        None,
        &bytes[HEADER_LEN..offset],
    )
}

fn is_entries(item: &LogItem) -> bool
    ensures { result ≡ holds_entries (item_of item.now) }
{
    matches!(item.content, LogItemContent::EntryIndexes(_))
}

fn any_entries(items: &[LogItem]) -> bool
    ensures { result ≡ list_any (λ item. holds_entries (item_of item)) items.now }
{
    items.iter().any(|item| is_entries(item))
}

/// There is a block of entries exactly where an item holds entries.
#[tactic(auto, unfolding(crate::specs::Reading::agrees), using(crate::proofs::Lists::any_of_map))]
fn is_agreed(offset: u32, items: &[LogItem]) -> bool
    ensures { result ≡ agrees offset (items_of items.now) }
{
    if offset == 8 {
        !any_entries(items)
    } else {
        any_entries(items)
    }
}

#[tactic(auto, unfolding(crate::specs::Reading::record_at))]
fn record_of(alloc: Global, bytes: &[u8], signature: Option<u32>) -> Result<Record<'_>, RecordError>
    ensures { Gives (λ r. (items_of r.batch.items.items, r.entries.now, r.len)) result (record_at signature bytes.now) }
{
    let (len, offset) = header_of(bytes)?;
    let sealed = &bytes[offset as usize..len as usize];
    let body = unseal(RecordFault::ItemsChecksum, signature, sealed)?;
    let items = body_of(alloc, offset.saturating_sub(12), body)?;
    if !is_agreed(offset, &items) {
        return Err(RecordError::Corruption(RecordFault::EntriesLength));
    }
    let entries = block_of(offset, bytes)?;
    let batch = LogItemBatch { items };
    Ok(Record {
        batch,
        entries,
        len,
    })
}

impl Record<'_> {
    /// Where the block of entries stands in the record, or none where no item holds entries.
    pub fn entries_block(&self) -> Option<EntriesBlock>
        // In the bytes that the record was read from, its entries stand there.
        ensures { (signature : Option ℕ) (bytes : List ℕ) → AreBytes bytes
            → record_at signature bytes ≡ Ok (items_of self.now.batch.items.items, self.now.entries.now, self.now.len)
            → StandsIn bytes (items_of self.now.batch.items.items) self.now.entries.now result }
    {
        if any_entries(&self.batch.items) {
            Some(EntriesBlock::holding(self.entries.len() as u64))
        } else {
            None
        }
    }
}

/// Reads the record at the front of some bytes, in a file with this signature. Bytes may follow it.
/// Refused are only want of memory and, as `Corruption`, bytes that do not begin with a record, by
/// the first fault that is met.
pub fn read_record(
    alloc: Global,
    bytes: &[u8],
    signature: Option<u32>,
) -> Result<Record<'_>, RecordError>
    // What is read is spelled so, each byte of it, with both checksums.
    ensures found { IfOk result (λ r. IsRecordAt signature bytes.now (with_bytes r.entries.now (items_of r.batch.items.items)) r.len) }
    // What is spelled so is read, whatever follows it, unless memory runs out.
    ensures only { (items : List (Item (List ℕ))) (rest : List ℕ) → IsSignature signature → AreItems items
        → bytes.now ≡ spell_record signature items ++ rest → Finds result items (record_len items) }
    // A record of which one byte behind its header was changed is never read.
    ensures changed { (items : List (Item (List ℕ))) → IsSignature signature → AreItems items
        → IsRecordChanged signature items bytes.now → IsErrAnd result FailsByChecksum }
    // Which fault it is.
    ensures exact { Gives (λ r. (items_of r.batch.items.items, r.entries.now, r.len)) result (record_at signature bytes.now) }
{
    record_of(alloc, bytes, signature)
}

/// The entries' bytes of a block of entries with its checksum, as a handle names it (raft-engine's
/// `decode_entries_block`). Refused is only a block that is none.
pub fn read_entries_block(block: &[u8]) -> Result<&[u8], RecordFault>
    ensures found { IfOk result (λ entries. block.now ≡ sealed None entries.now) }
    ensures only { (entries : List ℕ) → block.now ≡ sealed None entries → MatchResult result (λ x. x.now ≡ entries) (λ _. ⊥) }
    ensures exact { Tells (λ x. x.now) result (entries_block_at block.now) }
{
    block_entries(block)
}

#[tactic(auto, unfolding(crate::specs::Reading::entries_block_at))]
fn block_entries(block: &[u8]) -> Result<&[u8], RecordFault>
    ensures { Tells (λ x. x.now) result (entries_block_at block.now) }
{
    if block.len() < 4 {
        return Err(RecordFault::CutShort);
    }
    unseal(RecordFault::EntriesChecksum, None, block)
}
