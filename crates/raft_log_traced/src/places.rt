//! Where entries lie that were written anew.

ghost use Rattle.std.specs.Prelude.{◌≡◌};
ghost use Rattle.raft_log_traced.specs.Places.{items_moved, moved_by};
ghost use Rattle.raft_log_memtables.specs.MemTables.{content_in, reach_in};

use raft_log_memtables::MemTables;
use raft_log_records::{FileBlockHandle, LogItem, LogItemContent};

/// The entries of an item, if it has any, lie in a block now.
fn set_places_of(tables: &mut MemTables, item: &LogItem, place: FileBlockHandle)
    ensures content { content_in tables.new ≡ moved_by place item.now.raft_group_id item.now.content (content_in tables.old) }
    ensures reach { reach_in tables.new ≡ reach_in tables.old }
{
    match &item.content {
        LogItemContent::EntryIndexes(entries) => {
            tables.set_places(item.raft_group_id, place, entries)
        }
        LogItemContent::Command(_)
        | LogItemContent::Put { .. }
        | LogItemContent::Delete { .. }
        | LogItemContent::AtomicGroup { .. } => {}
    }
}

/// The entries of a written batch's items lie in a block now.
pub(crate) fn set_places(tables: &mut MemTables, items: &[LogItem], place: FileBlockHandle)
    ensures content { content_in tables.new ≡ items_moved place items.now (content_in tables.old) }
    ensures reach { reach_in tables.new ≡ reach_in tables.old }
{
    for item in items {
        set_places_of(tables, item, place);
    }
}
