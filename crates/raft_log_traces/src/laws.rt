//! What traces are for: laws on plain values.

ghost use Rattle.std.specs.Prelude.{ℕ, List};
ghost use Rattle.raft_log_records.specs.declared.item.EntryIndex.{EntryIndex};
ghost use Rattle.raft_log_traces.specs.TraceLaws.{AlikeTracesKeep, KeptFilesTell, EntriesSayNothing};

/// The invariant of two queues of log files holds of traces that say the same, and the least file
/// that they keep is one before which files may go.
pub fn traces_that_say_the_same_keep_queues()
    ensures alike { AlikeTracesKeep (List ℕ) }
    ensures files { KeptFilesTell (List ℕ) }
{}

/// A batch makes the same of traces by the places of its entries as by their bytes.
pub fn traces_rest_on_no_entry()
    ensures places { EntriesSayNothing (List ℕ) EntryIndex }
    ensures bytes { EntriesSayNothing EntryIndex (List ℕ) }
{}
