//! Entries that were written anew and lie in another block now.

ghost use Rattle.std.specs.Prelude.{◌≡◌, ℕ, List};
ghost use Rattle.raft_log_memtables.specs.MemTable.{table_content};
ghost use Rattle.raft_log_memtables.specs.MemTables.{content_in, reach_in};
ghost use Rattle.raft_log_memtables.specs.Moved.{group_moved, content_moved, EntriesMayMove};
ghost use Rattle.raft_log_memtables.specs.Tables.{table_at, reach_at};

use crate::entries::move_entries;
use crate::memtable::MemTable;
use crate::memtables::{MemTables, TableMap};
use raft_log_records::{EntryIndex, FileBlockHandle};

impl MemTable {
    /// The entries of these indexes that are there lie in a block now.
    fn set_places(&mut self, handle: FileBlockHandle, entries: &[EntryIndex])
        ensures content { table_content self.new ≡ group_moved handle entries.now (table_content self.old) }
        ensures reach { self.new.reached ≡ self.old.reached }
    {
        move_entries(&mut self.entries, handle, entries);
    }
}

/// The entries of a group that are there lie in a block now.
fn move_group(
    tables: &mut TableMap,
    raft_group_id: u64,
    handle: FileBlockHandle,
    entries: &[EntryIndex],
)
    ensures content { table_at tables.new ≡ content_moved raft_group_id handle entries.now (table_at tables.old) }
    ensures reach { reach_at tables.new ≡ reach_at tables.old }
{
    if let Some(table) = tables.get_mut(&raft_group_id) {
        table.set_places(handle, entries);
    }
}

impl MemTables {
    /// Entries of a group were written anew, as by a cleaning: those of these indexes that are there
    /// lie in the block of this handle now, as an item of its batch says (own). Nothing else changes.
    #[tactic(auto, unfolding(crate::specs::MemTables::content_in, crate::specs::MemTables::reach_in))]
    pub fn set_places(
        &mut self,
        raft_group_id: u64,
        handle: FileBlockHandle,
        entries: &[EntryIndex],
    )
        ensures content { content_in self.new ≡ content_moved raft_group_id handle entries.now (content_in self.old) }
        ensures reach { reach_in self.new ≡ reach_in self.old }
    {
        move_group(&mut self.tables, raft_group_id, handle, entries);
    }
}

/// Entries that lie elsewhere leave the content as it was (own), where each is what it was: of the
/// same bytes.
pub fn entries_may_move()
    ensures { EntriesMayMove (List ℕ) }
{}
