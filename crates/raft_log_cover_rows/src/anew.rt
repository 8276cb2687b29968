//! Worked runs of a rewrite queue that is written anew: behind its old records, and while those go.

ghost use Rattle.std.specs.Prelude.{◌≡◌, true, false, [], ◌∷◌, ◌++◌, drop, Some, None};
ghost use Rattle.raft_log_covers.specs.Marks.{of_group};
ghost use Rattle.raft_log_records.specs.Item.Change.{entries, clean, compact, put, delete, mark};
ghost use Rattle.raft_log_records.specs.declared.item.AtomicGroupStatus.TheVariants.{Begin, End};
ghost use Rattle.raft_log_cover_rows.specs.Rows.{run, one, two, adds, opened, indexes, name};
ghost use Rattle.raft_log_cover_rows.specs.Rows.{first_anew, last_anew};

/// Entries 1 to 6 were rewritten, and 5 to 10 of the append queue came over them. Those that stand in
/// the rewrite queue are written anew, 1 to 4.
pub fn list_in_both_queues()
    ensures content { indexes 12 (opened (adds 1 6 0 ∷ []) (adds 5 6 1 ∷ [])) ≡ 1 ∷ 2 ∷ 3 ∷ 4 ∷ 5 ∷ 6 ∷ 7 ∷ 8 ∷ 9 ∷ 10 ∷ [] }
    ensures behind_old { indexes 12 (opened (adds 1 6 0 ∷ of_group 1 (clean ∷ compact 1 ∷ entries (run 1 4 0) ∷ []) ∷ []) (adds 5 6 1 ∷ []))
        ≡ 1 ∷ 2 ∷ 3 ∷ 4 ∷ 5 ∷ 6 ∷ 7 ∷ 8 ∷ 9 ∷ 10 ∷ [] }
    ensures alone { indexes 12 (opened (of_group 1 (clean ∷ compact 1 ∷ entries (run 1 4 0) ∷ []) ∷ []) (adds 5 6 1 ∷ []))
        ≡ 1 ∷ 2 ∷ 3 ∷ 4 ∷ 5 ∷ 6 ∷ 7 ∷ 8 ∷ 9 ∷ 10 ∷ [] }
    ensures only_marks { indexes 12 (opened (of_group 1 (clean ∷ compact 1 ∷ []) ∷ []) (adds 5 6 1 ∷ [])) ≡ 5 ∷ 6 ∷ 7 ∷ 8 ∷ 9 ∷ 10 ∷ [] }
{}

/// A key of the rewrite queue was deleted in the append queue. Copied from the old record it comes
/// back once the append files are gone.
pub fn key_deleted_in_the_append_queue()
    ensures content { (opened (one (put name []) ∷ []) (one (delete name) ∷ [])).value name ≡ None }
    ensures behind_old { (opened (one (put name []) ∷ of_group 1 (clean ∷ compact 0 ∷ []) ∷ []) []).value name ≡ None }
    ensures alone { (opened (of_group 1 (clean ∷ compact 0 ∷ []) ∷ []) []).value name ≡ None }
    ensures there { (opened (of_group 1 (clean ∷ compact 0 ∷ []) ∷ []) []).there ≡ true }
    ensures copied { (opened (of_group 1 (clean ∷ compact 0 ∷ put name [] ∷ []) ∷ []) []).value name ≡ Some [] }
{}

/// A group was cleaned in the append queue and came again: nothing of it stands in the rewrite queue
/// any more, and it is there.
pub fn cleaned_group_written_anew()
    ensures behind_old { indexes 12 (opened (adds 1 10 0 ∷ of_group 1 (clean ∷ compact 5 ∷ []) ∷ []) (one clean ∷ adds 5 2 1 ∷ [])) ≡ 5 ∷ 6 ∷ [] }
    ensures alone { indexes 12 (opened (of_group 1 (clean ∷ compact 5 ∷ []) ∷ []) (one clean ∷ adds 5 2 1 ∷ [])) ≡ 5 ∷ 6 ∷ [] }
    ensures without_clean { indexes 12 (opened (adds 1 10 0 ∷ of_group 1 (clean ∷ compact 5 ∷ []) ∷ []) (adds 5 2 1 ∷ [])) ≡ 5 ∷ 6 ∷ [] }
{}

/// A list was cut short and then emptied in the append queue. Behind the Clean nothing comes back,
/// whether or not the append files are there still.
pub fn emptied_list_written_anew()
    ensures behind_old { indexes 12 (opened (adds 1 10 0 ∷ of_group 1 (clean ∷ compact 11 ∷ []) ∷ []) (adds 5 2 1 ∷ one (compact 7) ∷ [])) ≡ [] }
    ensures appends_gone { indexes 12 (opened (adds 1 10 0 ∷ of_group 1 (clean ∷ compact 11 ∷ []) ∷ []) []) ≡ [] }
    ensures alone { (opened (of_group 1 (clean ∷ compact 11 ∷ []) ∷ []) []).there ≡ true }
{}

/// A group is written anew as an atomic group. Before its end is there the old record counts, so
/// that may not go yet.
pub fn atomic_group_cut_by_a_crash()
    ensures begun { indexes 6 (opened (adds 1 4 0 ∷ first_anew ∷ []) []) ≡ 1 ∷ 2 ∷ 3 ∷ 4 ∷ [] }
    ensures ended { indexes 6 (opened (adds 1 4 0 ∷ first_anew ∷ last_anew ∷ []) []) ≡ 1 ∷ 2 ∷ 3 ∷ 4 ∷ [] }
    ensures alone { indexes 6 (opened (first_anew ∷ last_anew ∷ []) []) ≡ 1 ∷ 2 ∷ 3 ∷ 4 ∷ [] }
    ensures gone_too_early { indexes 6 (opened (first_anew ∷ []) []) ≡ [] }
{}

/// An old atomic group of which the first record went counts nothing, and leaves the new record as
/// it is.
pub fn old_atomic_group_without_its_begin()
    ensures both { indexes 6 (opened (first_anew ∷ last_anew ∷ of_group 1 (clean ∷ compact 1 ∷ entries (run 1 4 1) ∷ []) ∷ []) [])
        ≡ 1 ∷ 2 ∷ 3 ∷ 4 ∷ [] }
    ensures first_gone { indexes 6 (opened (last_anew ∷ of_group 1 (clean ∷ compact 1 ∷ entries (run 1 4 1) ∷ []) ∷ []) [])
        ≡ 1 ∷ 2 ∷ 3 ∷ 4 ∷ [] }
{}

/// A record stands between the two of an atomic group that cleans a raft group. Once the first
/// one went, a group is there that wasn't. No records are written so.
pub fn record_within_an_atomic_group()
    ensures all { (opened (two (mark 7 Begin) clean ∷ one (put name []) ∷ one (mark 7 End) ∷ []) []).there ≡ false }
    ensures first_gone { (opened (drop 1 (two (mark 7 Begin) clean ∷ one (put name []) ∷ one (mark 7 End) ∷ [])) []).there ≡ true }
{}
