//! Laws of the definitions.

ghost use Rattle.raft_log_records.specs.declared.item.EntryIndex.{EntryIndex};
ghost use Rattle.std.specs.Prelude.{ℕ, List};
ghost use Rattle.raft_log_memtables.specs.Laws.{CountsWhole, CountsNothing};
ghost use Rattle.raft_log_memtables.specs.ContentLaws.{MapsContent, MapsReplay, MakesNoHole};

/// The records of an atomic group count together or not at all (own): with the last one all of them
/// as one batch, without it none.
pub fn atomic_groups_count_together()
    ensures whole { CountsWhole EntryIndex }
    ensures nothing { CountsNothing EntryIndex }
{}

/// Entries seen in another way make the content seen so (own): where they lie may be taken for their
/// bytes before items are applied or after.
pub fn content_follows_its_entries()
    ensures items { MapsContent EntryIndex (List ℕ) }
    ensures records { MapsReplay EntryIndex (List ℕ) }
{}

/// Where each batch was taken, and the entries of its items follow one another, no group's entries
/// have a hole (own).
pub fn batches_that_are_taken_make_no_hole()
    ensures { MakesNoHole EntryIndex }
{}
