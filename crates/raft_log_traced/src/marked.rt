//! Batches that belong to atomic groups.

ghost use Rattle.std.specs.Prelude.{◌≡◌, ◌||◌};
ghost use Rattle.std.specs.List.{list_any};
ghost use Rattle.raft_log_records.specs.Item.{item_of};
ghost use Rattle.raft_log_records.specs.Spelling.{holds_mark};

use raft_log_records::{LogItem, LogItemContent};

/// Whether an item is the mark of an atomic group.
fn is_mark(item: &LogItem) -> bool
    ensures { result ≡ holds_mark (item_of item.now) }
{
    matches!(item.content, LogItemContent::AtomicGroup { .. })
}

fn any_marks(items: &[LogItem]) -> bool
    ensures { result ≡ list_any (λ item. holds_mark (item_of item)) items.now }
{
    items.iter().any(|item| is_mark(item))
}

/// Whether a batch was marked before, or the one with these items is.
pub(crate) fn with_marks(before: bool, items: &[LogItem]) -> bool
    ensures { result ≡ (before || list_any (λ item. holds_mark (item_of item)) items.now) }
{
    before || any_marks(items)
}
