//! What a write needs.
ghost use Rattle.std.specs.Prelude.{◌≡◌, ◌+◌, ◌^◌, ◌<◌, [], false, IfErr, IfOk, IfSome, OnOk, Some};
ghost use Rattle.std.specs.List.{list_any};
ghost use Rattle.raft_log_blocks.specs.Held.{IsPlace};
ghost use Rattle.raft_log_covers.specs.Kept.{traces_after};
ghost use Rattle.raft_log_engine.specs.Taken.{IsRefusedBatch};
ghost use Rattle.raft_log_engine.specs.declared.fault.EngineFault.TheVariants.{Log};
ghost use Rattle.raft_log_files.specs.declared.error.Error.TheVariants.{Memory};
ghost use Rattle.raft_log_memtables.specs.Content.{after_batch};
ghost use Rattle.raft_log_memtables.specs.MemTable.{batch_items};
ghost use Rattle.raft_log_memtables.specs.MemTables.{content_in};
ghost use Rattle.raft_log_memtables.specs.Taken.{TakesEach};
ghost use Rattle.raft_log_pipe.specs.Pipe.{IsPopulated};
ghost use Rattle.raft_log_records.specs.Item.{items_of};
ghost use Rattle.raft_log_records.specs.Places.{placed};
ghost use Rattle.raft_log_records.specs.Spelling.{AreItems, holds_mark, record_len};
ghost use Rattle.raft_log_records.specs.declared.block.EntriesBlock.{EntriesBlock};
ghost use Rattle.raft_log_records.specs.declared.file_id.FileBlockHandle.{FileBlockHandle};
ghost use Rattle.raft_log_traces.specs.Alike.{AreAlike};
ghost use Rattle.raft_log_traces.specs.GroupTraces.{traces_in};

use crate::blocks::of_record;
use crate::fault::EngineFault;
use raft_log_memtables::MemTables;
use raft_log_records::{EntriesBlock, FileBlockHandle, LogBatch, LogItemBatch};
use raft_log_traced::TracedTables;

/// Writes a batch as a record, and answers its length in bytes. Refused are a batch that belongs to
/// an atomic group, and one that the tables don't take.
pub(crate) fn prepare(tables: &MemTables, batch: &mut LogBatch) -> Result<usize, EngineFault>
    requires { batch.old.items ≡ [] → ⊥ }
    ensures same { batch.new.items ≡ batch.old.items }
    ensures taken { OnOk result (TakesEach (placed 0 batch.old.items) (content_in tables.now)) }
    ensures plain { OnOk result (list_any holds_mark batch.old.items ≡ false) }
    ensures populated { OnOk result (IsPopulated batch.new) }
    ensures items { OnOk result (AreItems batch.new.items) }
    ensures len { IfOk result (λ len. len ≡ record_len batch.old.items) }
    ensures err { IfErr result (IsRefusedBatch tables.now batch.old.items) }
{
    if batch.holds_mark() {
        return Err(EngineFault::Marked);
    }
    if !tables.takes(batch.items()) {
        return Err(EngineFault::NotTaken);
    }
    match batch.finish_populate() {
        Ok(len) => Ok(len),
        Err(error) => Err(of_record(error)),
    }
}

/// Does what the items of a written batch say, whose entries stand in a block of its record, and
/// notes in which file. After an `Err` tables and traces are given up.
pub(crate) fn apply(
    traced: &mut TracedTables,
    items: LogItemBatch,
    block: Option<EntriesBlock>,
    written: FileBlockHandle,
) -> Result<(), EngineFault>
    requires { IfSome block (λ b. written.offset + b.offset < 2 ^ 64) }
    ensures ok { OnOk result ((place : FileBlockHandle) × ((b : EntriesBlock) → block ≡ Some b → IsPlace written b place)
        × (content_in traced.new.tables ≡ after_batch (batch_items place items) (content_in traced.old.tables)) × (place.id ≡ written.id)) }
    ensures traces { OnOk result (AreAlike (traces_after written.id.seq (items_of items.items.items) (traces_in traced.old.traces)) (traces_in traced.new.traces)) }
    ensures marked { traced.new.has_marked ≡ traced.old.has_marked }
    ensures parted { traced.new.is_parted ≡ traced.old.is_parted }
    ensures err { IfErr result (λ e. e ≡ Log Memory) }
{
    let place = match block {
        Some(block) => block.in_file(written.id, written.offset),
        None => written,
    };
    traced.apply(items, place)?;
    Ok(())
}
