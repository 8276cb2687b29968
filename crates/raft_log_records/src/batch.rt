//! Batches of changes, which become one record each.

ghost use Rattle.std.specs.Prelude.{◌≡◌, ◌<◌, ◌≤◌, ◌+◌, ◌-◌, ◌*◌, ◌^◌, ◌++◌, ◌∷◌, ◌↔◌, []};
ghost use Rattle.std.specs.Prelude.{ℕ, Option, length, map, IsTrue, OnOk, OnErr, IfOk};
ghost use Rattle.std.specs.Prelude.{IfErr, IfSome, IfNone, false, true};
ghost use Rattle.raft_log_records.specs.Item.{Item, command_change, with_bytes, items_of};
ghost use Rattle.raft_log_records.specs.Item.{item_of, item_map, entry_bytes};
ghost use Rattle.raft_log_records.specs.Places.{placed};
ghost use Rattle.raft_log_records.specs.Block.{StandsIn};
ghost use Rattle.raft_log_records.specs.Spelling.{holds_entries, holds_mark, AreItems, IsItem, FitsBytes};
ghost use Rattle.raft_log_records.specs.Spelling.{spell_item, spell_record};
ghost use Rattle.raft_log_records.specs.Spelling.{block_of, block_part, record_len};
ghost use Rattle.std.specs.List.{list_all, list_any};
ghost use Rattle.raft_log_records.specs.Item.Change.{put, delete, mark};
ghost use Rattle.raft_log_records.specs.Batch.{nothing_logged, logged, encoded_of, populated};
ghost use Rattle.raft_log_records.specs.Batch.{signed_again, Logs, LogsEntries, LogsWritten};
ghost use Rattle.raft_log_records.specs.Batch.{LogsRun, FollowOn, index_of_first, run_of};
ghost use Rattle.raft_log_records.specs.Batch.{payloads, joined};
ghost use Rattle.raft_log_records.specs.Batch.Writing.{open_still, written};
ghost use Rattle.raft_log_records.specs.Signature.{signature_of};

use crate::block::EntriesBlock;
use crate::command::Command;
use crate::entries::{append_all, index_entries, total_len, write_all};
use crate::error::RecordError;
use crate::item::{AtomicGroupStatus, LogItem, LogItemContent};
use crate::message::{Message, MessageExt};
use crate::record::{LogItemBatch, MAX_RECORD_LEN, sign};
use crate::version::LogFileContext;
use crate::writing::{sign_again, write_record};
use std::alloc::Global;
use std::marker::Model;
use std::mem;

/// Changes of groups that are written and count together (raft-engine's `LogBatch`).
#[derive(Drop)]
pub struct LogBatch {
    items: Vec<LogItem>,
    /// The bytes of all entries, one after the other.
    entries: Vec<u8>,
    holds_entries: bool,
    /// How many bytes the items take in a record, without their count.
    items_len: u32,
    buf_state: BufState,
    encoded: Vec<u8>,
}

/// Whether the record is written (raft-engine's `BufState`): with which checksum of its items, and
/// signed for which file.
#[derive(Clone, Copy)]
enum BufState {
    Open,
    Encoded {
        checksum: u32,
        signature: Option<u32>,
    },
}

impl Model for LogBatch {
    ghost use Rattle.std.specs.Prelude.{◌≡◌};
    ghost use Rattle.raft_log_records.specs.Batch.{Batch, IsSound};

    ghost Value = { Batch };

    ghost use Rattle.raft_log_records.specs.BatchView.{batch_of, IsWritten};

    ghost view = { batch_of };

    ghost invariant = { IsWritten };
}

impl LogBatch {
    /// A batch without items.
    pub fn new(alloc: Global) -> LogBatch
        ensures { result ≡ nothing_logged }
    {
        LogBatch {
            items: Vec::new(alloc),
            entries: Vec::new(alloc),
            holds_entries: false,
            items_len: 0,
            buf_state: BufState::Open,
            encoded: Vec::new(alloc),
        }
    }

    /// Whether it has no items.
    pub fn is_empty(&self) -> bool
        ensures { IsTrue result ↔ (self.now.items ≡ []) }
    {
        self.items.is_empty()
    }

    /// The bytes that the batch is written as, signed for the file that it was last prepared for
    /// (raft-engine's `encoded_bytes`). An open batch and an empty one have none.
    pub fn encoded_bytes(&self) -> &[u8]
        ensures { result.now ≡ encoded_of self.now }
    {
        &self.encoded
    }

    /// The length of the record that the batch has, or would have with an item.
    fn record_len(&self) -> u32
        ensures len { result ≡ record_len self.now.items }
        ensures short { result ≤ 33554432 }
    {
        if self.holds_entries {
            20 + self.items_len + self.entries.len() as u32
        } else {
            16 + self.items_len
        }
    }

    /// The items, with the places of their entries in the block of the record: those that `drain`
    /// takes out (own).
    pub fn items(&self) -> &[LogItem]
        ensures { items_of result.now ≡ placed 0 self.now.items }
    {
        &self.items
    }

    /// How many bytes the batch takes as a record (raft-engine's `approximate_size`; here it is
    /// exact). An empty one takes none.
    pub fn approximate_size(&self) -> usize
        ensures empty { self.now.items ≡ [] → result ≡ 0 }
        ensures len { (self.now.items ≡ [] → ⊥) → result ≡ record_len self.now.items }
    {
        if self.is_empty() {
            0
        } else {
            self.record_len() as usize
        }
    }

    /// Where the block of entries stands in the record that the batch is written as, or none where no
    /// item holds entries. Another signature leaves it there.
    pub fn entries_block(&self) -> Option<EntriesBlock>
        ensures { (signature : Option ℕ) → StandsIn (spell_record signature self.now.items) self.now.items (block_of self.now.items) result }
    {
        if self.holds_entries {
            Some(EntriesBlock::holding(self.entries.len() as u64))
        } else {
            None
        }
    }

    /// Whether an item is the mark of an atomic group.
    pub fn holds_mark(&self) -> bool
        ensures { result ≡ list_any holds_mark self.now.items }
    {
        any_marks(&self.items)
    }

    /// Adds an item that holds no entries and takes `item_len` bytes.
    fn push(&mut self, item: LogItem, item_len: u32) -> Result<(), RecordError>
        requires plain { holds_entries (item_of item) ≡ false }
        requires is_item { IsItem (item_map (λ e. e.entry_len) (item_of item)) }
        requires fits { FitsBytes (item_of item).change }
        requires len { item_len ≡ length (spell_item (item_map (λ e. e.entry_len) (item_of item))) }
        ensures { Logs self.old (item_map (entry_bytes []) (item_of item)) self.new result }
    {
        if MAX_RECORD_LEN - self.record_len() < item_len {
            return Err(RecordError::TooLong);
        }
        self.items.push(item)?;
        self.items_len += item_len;
        self.buf_state = BufState::Open;
        self.encoded.clear();
        Ok(())
    }
}

fn is_mark(item: &LogItem) -> bool
    ensures { result ≡ holds_mark (item_of item.now) }
{
    matches!(item.content, LogItemContent::AtomicGroup { .. })
}

fn any_marks(items: &[LogItem]) -> bool
    ensures { result ≡ list_any (λ item. holds_mark (item_of item)) items.now }
{
    items.iter().any(|item| is_mark(item))
}

/// The length of an item with these two strings, or none where it passes any record's.
fn item_len(fixed: u32, first: usize, second: usize) -> Option<u32>
    requires { fixed < 64 }
    ensures fits { IfSome result (λ n. n ≡ fixed + first + second) }
    ensures long { IfNone result (33554432 < first + second) }
{
    let most = MAX_RECORD_LEN as usize;
    if first > most || second > most {
        return None;
    }
    Some(fixed + first as u32 + second as u32)
}

impl LogBatch {
    /// Sets a key of a group. The key may not be empty.
    pub fn put(
        &mut self,
        raft_group_id: u64,
        key: Vec<u8>,
        value: Vec<u8>,
    ) -> Result<(), RecordError>
        requires { 0 < length key.items }
        ensures { Logs self.old (record { group = raft_group_id; change = put key.items value.items }) self.new result }
    {
        let Some(len) = item_len(17, key.len(), value.len()) else {
            return Err(RecordError::TooLong);
        };
        let content = LogItemContent::Put { key, value };
        let item = LogItem {
            raft_group_id,
            content,
        };
        self.push(item, len)
    }

    /// Removes a key of a group. The key may not be empty.
    pub fn delete(&mut self, raft_group_id: u64, key: Vec<u8>) -> Result<(), RecordError>
        requires { 0 < length key.items }
        ensures { Logs self.old (record { group = raft_group_id; change = delete key.items }) self.new result }
    {
        let Some(len) = item_len(13, key.len(), 0) else {
            return Err(RecordError::TooLong);
        };
        let content = LogItemContent::Delete { key };
        let item = LogItem {
            raft_group_id,
            content,
        };
        self.push(item, len)
    }

    /// Adds a command on a whole group.
    pub fn add_command(&mut self, raft_group_id: u64, command: Command) -> Result<(), RecordError>
        ensures { Logs self.old (record { group = raft_group_id; change = command_change command }) self.new result }
    {
        let len = match command {
            Command::Clean => 9,
            Command::Compact { .. } => 17,
        };
        let content = LogItemContent::Command(command);
        let item = LogItem {
            raft_group_id,
            content,
        };
        self.push(item, len)
    }

    /// Says that the batch's record belongs to an atomic group.
    pub(crate) fn add_mark(
        &mut self,
        raft_group_id: u64,
        id: u64,
        status: AtomicGroupStatus,
    ) -> Result<(), RecordError>
        ensures { Logs self.old (record { group = raft_group_id; change = mark id status }) self.new result }
    {
        let content = LogItemContent::AtomicGroup { id, status };
        let item = LogItem {
            raft_group_id,
            content,
        };
        self.push(item, 18)
    }

    /// Writes the batch as a record, not signed yet, and answers how many bytes it has (raft-engine's
    /// `finish_populate`). A batch without items is written as none.
    pub fn finish_populate(&mut self) -> Result<usize, RecordError>
        ensures ok { OnOk result (self.new ≡ populated self.old.items) }
        ensures len { IfOk result (λ n. n ≡ length (encoded_of self.new)) }
        ensures items { AreItems self.new.items }
        ensures err { IfErr result (λ e. (e ≡ RecordError.Memory) × (self.new ≡ self.old)) }
    {
        if self.is_empty() {
            self.encoded.clear();
            self.buf_state = BufState::Open;
            return Ok(0);
        }
        match self.buf_state {
            BufState::Open => self.populate()?,
            BufState::Encoded { .. } => self.sign_for(None),
        }
        Ok(self.encoded.len())
    }

    /// Writes an open batch as a record, into the memory of the one before.
    fn populate(&mut self) -> Result<(), RecordError>
        requires open { self.old.writing ≡ open_still }
        ensures ok { OnOk result (self.new ≡ record { items = self.old.items; writing = written None }) }
        ensures err { IfErr result (λ e. (e ≡ RecordError.Memory) × (self.new ≡ self.old)) }
    {
        let len = self.record_len();
        let out = mem::replace(&mut self.encoded, Vec::new(*self.items.allocator()));
        let (encoded, checksum) = write_record(
            out,
            &self.items,
            self.holds_entries,
            &self.entries,
            len,
        )?;
        self.encoded = encoded;
        self.buf_state = BufState::Encoded {
            checksum,
            signature: None,
        };
        Ok(())
    }

    /// Signs the record, if the batch is written as one.
    fn sign_for(&mut self, signature: Option<u32>)
        ensures { self.new ≡ record { items = self.old.items; writing = signed_again signature self.old.writing } }
    {
        if let BufState::Encoded { checksum, .. } = self.buf_state {
            sign_again(&mut self.encoded, sign(signature, checksum));
            self.buf_state = BufState::Encoded {
                checksum,
                signature,
            };
        }
    }

    /// Signs the record for the file that it is to stand in (raft-engine's `prepare_write`). A
    /// record may be signed again, for another file.
    pub fn prepare_write(&mut self, context: &LogFileContext)
        ensures { let signature = signature_of context.now.version context.now.id.seq in
            self.new ≡ record { items = self.old.items; writing = signed_again signature self.old.writing } }
    {
        let signature = context.get_signature();
        self.sign_for(signature);
    }

    /// Takes the items out, with the places of their entries in the record's block, and leaves an
    /// empty batch (raft-engine's `drain`).
    pub fn drain(&mut self) -> LogItemBatch
        ensures items { with_bytes (block_of self.old.items) (items_of result.items.items) ≡ self.old.items }
        // The places are those that reading the record gives.
        ensures places { items_of result.items.items ≡ placed 0 self.old.items }
        ensures empty { self.new ≡ nothing_logged }
    {
        let alloc = *self.items.allocator();
        let items = mem::replace(&mut self.items, Vec::new(alloc));
        self.entries.clear();
        self.holds_entries = false;
        self.items_len = 0;
        self.buf_state = BufState::Open;
        self.encoded.clear();
        LogItemBatch { items }
    }
}

/// The length of an item with these entries and of their bytes, or none where it passes any
/// record's.
fn run_len(entries: &[Vec<u8>]) -> Option<u32>
    ensures fits { IfSome result (λ n. (n ≡ 13 + 12 * length entries.now + length (joined (payloads entries.now))) × (n ≤ 33554432)) }
    ensures long { IfNone result (33554432 < 13 + 12 * length entries.now + length (joined (payloads entries.now))) }
{
    let total = total_len(entries)?;
    let room = (MAX_RECORD_LEN - total) as usize;
    if room < 13 || (room - 13) / 12 < entries.len() {
        return None;
    }
    Some(13 + 12 * entries.len() as u32 + total)
}

impl LogBatch {
    /// Adds entries of a group by their bytes, with indexes from `first` on (raft-engine's
    /// `add_raw_entries`, whose entries all have consecutive indexes). None change nothing.
    pub fn add_raw_entries(
        &mut self,
        raft_group_id: u64,
        first: u64,
        entries: &[Vec<u8>],
    ) -> Result<(), RecordError>
        requires { first + length entries.now < 2 ^ 64 }
        ensures { LogsEntries self.old raft_group_id first (payloads entries.now) self.new result }
    {
        if entries.is_empty() {
            return Ok(());
        }
        let Some(len) = run_len(entries) else {
            return Err(RecordError::TooLong);
        };
        if MAX_RECORD_LEN - self.record_len() < len + self.block_checksum_len() {
            return Err(RecordError::TooLong);
        }
        self.push_run(raft_group_id, first, entries, len)
    }

    /// The first entries bring the checksum of their block.
    fn block_checksum_len(&self) -> u32
        ensures len { result ≡ length (block_part true []) - length (block_part (list_any holds_entries self.now.items) []) }
        ensures short { result ≤ 4 }
    {
        if self.holds_entries { 0 } else { 4 }
    }

    /// Adds entries for which there is room, and whose bytes are `most` at most.
    fn push_run(
        &mut self,
        raft_group_id: u64,
        first: u64,
        entries: &[Vec<u8>],
        most: u32,
    ) -> Result<(), RecordError>
        requires some { 0 < length entries.now }
        requires indexes { first + length entries.now < 2 ^ 64 }
        requires room { record_len (self.old.items ++ run_of raft_group_id first (payloads entries.now) ∷ []) ≤ 33554432 }
        ensures { Logs self.old (run_of raft_group_id first (payloads entries.now)) self.new result }
    {
        let at = self.entries.len();
        let alloc = *self.items.allocator();
        let indexes = index_entries(alloc, first, at as u32, entries)?;
        append_all(&mut self.entries, entries, most)?;
        let content = LogItemContent::EntryIndexes(indexes);
        let item = LogItem {
            raft_group_id,
            content,
        };
        let Ok(()) = self.items.push(item) else {
            self.entries.truncate(at);
            return Err(RecordError::Memory);
        };
        self.items_len += 13 + 12 * entries.len() as u32;
        self.holds_entries = true;
        self.buf_state = BufState::Open;
        self.encoded.clear();
        Ok(())
    }
}

impl LogBatch {
    /// Adds entries of a group (raft-engine's `add_entries`), whose indexes follow one another. None
    /// change nothing. After an `Err` the batch is as it was: `TooLong` where its record would be, or
    /// where an entry is past a limit of its type.
    pub fn add_entries<M: MessageExt>(
        &mut self,
        raft_group_id: u64,
        entries: &[M::Entry],
    ) -> Result<(), RecordError>
        requires in_turn { FollowOn M.index_of (index_of_first M.index_of entries.now) entries.now }
        requires indexes { index_of_first M.index_of entries.now + length entries.now < 2 ^ 64 }
        ensures { LogsRun self.old raft_group_id (index_of_first M.index_of entries.now) (map M.Entry.bytes entries.now) (list_all M.Entry.fits entries.now) self.new result }
    {
        match entries {
            [] => Ok(()),
            [first, ..] => self.add_messages(raft_group_id, M::index(first), entries),
        }
    }

    /// Adds entries with indexes from `first` on.
    fn add_messages<T: Message>(
        &mut self,
        raft_group_id: u64,
        first: u64,
        entries: &[T],
    ) -> Result<(), RecordError>
        requires some { 0 < length entries.now }
        requires indexes { first + length entries.now < 2 ^ 64 }
        ensures { LogsWritten self.old (run_of raft_group_id first (map T.bytes entries.now)) (list_all T.fits entries.now) self.new result }
    {
        let room = MAX_RECORD_LEN - self.record_len();
        let checksum_len = self.block_checksum_len();
        let at = self.entries.len();
        let alloc = *self.items.allocator();
        let indexes = match write_all(alloc, first, entries, &mut self.entries) {
            Ok(indexes) => indexes,
            Err(e) => {
                self.entries.truncate(at);
                return Err(e);
            }
        };
        let run_len = 13 + 12 * entries.len() as u32;
        if room < run_len + (self.entries.len() - at) as u32 + checksum_len {
            self.entries.truncate(at);
            return Err(RecordError::TooLong);
        }
        let content = LogItemContent::EntryIndexes(indexes);
        let item = LogItem {
            raft_group_id,
            content,
        };
        let Ok(()) = self.items.push(item) else {
            self.entries.truncate(at);
            return Err(RecordError::Memory);
        };
        self.items_len += run_len;
        self.holds_entries = true;
        self.buf_state = BufState::Open;
        self.encoded.clear();
        Ok(())
    }

    /// Sets a key of a group to a message's bytes (raft-engine's `put_message`). The key may not be
    /// empty. After an `Err` the batch is as it was: `TooLong` where its record would be, or where the
    /// message is past a limit of its type.
    pub fn put_message<S: Message>(
        &mut self,
        raft_group_id: u64,
        key: Vec<u8>,
        message: &S,
    ) -> Result<(), RecordError>
        requires { 0 < length key.items }
        ensures { LogsWritten self.old (record { group = raft_group_id; change = put key.items (S.bytes message.now) }) (S.fits message.now) self.new result }
    {
        let mut value = Vec::new(*self.items.allocator());
        message.write(&mut value)?;
        self.put(raft_group_id, key, value)
    }
}
