//! Worked runs: rules of cleaning that give another content, and those that give the same.

ghost use Rattle.std.specs.Prelude.{◌≡◌, true, false, [], ◌∷◌, Some, None};
ghost use Rattle.raft_log_records.specs.Item.Change.{entries, clean, compact, put, delete, mark};
ghost use Rattle.raft_log_records.specs.declared.item.AtomicGroupStatus.TheVariants.{Begin, End};
ghost use Rattle.raft_log_cover_rows.specs.Rows.{run, one, two, adds, opened, indexes, name};
ghost use Rattle.raft_log_cover_rows.specs.Rows.{clearing, keys_of};
ghost use Rattle.raft_log_cover_rows.specs.Rows.{rewritten_trace, traced, due};

/// Entries 1 to 10 were rewritten, then 5 to 6 cut the list short and a compaction emptied it. The
/// compaction's own mark lets 7 to 10 come back once the append files are gone. A mark past the
/// greatest index that was ever rewritten doesn't.
pub fn emptied_list()
    ensures content { indexes 12 (opened (adds 1 10 0 ∷ []) (adds 5 2 1 ∷ one (compact 7) ∷ [])) ≡ [] }
    ensures own_mark { indexes 12 (opened (adds 1 10 0 ∷ one (compact 7) ∷ []) []) ≡ 7 ∷ 8 ∷ 9 ∷ 10 ∷ [] }
    ensures past_all { indexes 12 (opened (adds 1 10 0 ∷ one (compact 11) ∷ []) []) ≡ [] }
{}

/// A group that has marks alone is there. Rewriting only its entries and keys loses it; a mark
/// keeps it.
pub fn group_of_marks()
    ensures content { (opened (one (put name []) ∷ []) (one (delete name) ∷ [])).there ≡ true }
    ensures lost { (opened [] []).there ≡ false }
    ensures kept { (opened (one (compact 0) ∷ []) []).there ≡ true }
    ensures without_key { (opened (one (compact 0) ∷ []) []).value name ≡ None }
{}

/// Entries 1 to 10, 11 to 20 and then 3 to 4 were written and rewritten as 1 to 4. The first
/// append file is gone, the others still stand. A rule that clears a list at a hole reads 3 to 4
/// alone.
pub fn hole_behind_rewritten_entries()
    ensures content { indexes 22 (opened [] (adds 1 10 0 ∷ adds 11 10 0 ∷ adds 3 2 1 ∷ [])) ≡ 1 ∷ 2 ∷ 3 ∷ 4 ∷ [] }
    ensures by_cells { indexes 22 (opened (adds 1 2 0 ∷ adds 3 2 1 ∷ []) (adds 11 10 0 ∷ adds 3 2 1 ∷ [])) ≡ 1 ∷ 2 ∷ 3 ∷ 4 ∷ [] }
    ensures cleared { keys_of (clearing (clearing (run 1 4 0) (run 11 10 0)) (run 3 2 1)) ≡ 3 ∷ 4 ∷ [] }
{}

/// A list was emptied and began anew behind a hole. The mark of its compaction lets entries come
/// back below it. A mark at its first index doesn't.
pub fn list_that_began_anew()
    ensures content { indexes 13 (opened (adds 1 8 0 ∷ []) (adds 1 3 1 ∷ one (compact 4) ∷ adds 10 3 2 ∷ [])) ≡ 10 ∷ 11 ∷ 12 ∷ [] }
    ensures own_mark { indexes 13 (opened (adds 1 8 0 ∷ one (compact 4) ∷ []) (adds 10 3 2 ∷ []))
        ≡ 4 ∷ 5 ∷ 6 ∷ 7 ∷ 8 ∷ 10 ∷ 11 ∷ 12 ∷ [] }
    ensures at_first { indexes 13 (opened (adds 1 8 0 ∷ one (compact 10) ∷ []) (adds 10 3 2 ∷ [])) ≡ 10 ∷ 11 ∷ 12 ∷ [] }
{}

/// Entries that cut a list short stand in the first append file, the compaction that emptied it in
/// the second. The first file alone may not go without a mark, though it has no compaction and
/// none of the group's entries.
pub fn cut_in_an_older_file_than_its_compaction()
    ensures content { indexes 10 (opened (adds 1 8 0 ∷ []) (adds 1 3 1 ∷ one (compact 4) ∷ [])) ≡ [] }
    ensures unmarked { indexes 10 (opened (adds 1 8 0 ∷ []) (one (compact 4) ∷ [])) ≡ 4 ∷ 5 ∷ 6 ∷ 7 ∷ 8 ∷ [] }
    ensures marked { indexes 10 (opened (adds 1 8 0 ∷ one (compact 9) ∷ []) (one (compact 4) ∷ [])) ≡ [] }
{}

/// A group was cleaned and came again. Without a mark what was rewritten before comes back. A mark
/// behind the entries that were rewritten since takes them away, one before them doesn't.
pub fn cleaned_group_that_came_again()
    ensures content { indexes 12 (opened (adds 1 10 0 ∷ one (put name []) ∷ []) (one clean ∷ adds 5 2 1 ∷ [])) ≡ 5 ∷ 6 ∷ [] }
    ensures unmarked { indexes 12 (opened (adds 1 10 0 ∷ one (put name []) ∷ []) (adds 5 2 1 ∷ [])) ≡ 1 ∷ 2 ∷ 3 ∷ 4 ∷ 5 ∷ 6 ∷ [] }
    ensures key_is_back { (opened (adds 1 10 0 ∷ one (put name []) ∷ []) (adds 5 2 1 ∷ [])).value name ≡ Some [] }
    ensures mark_behind { indexes 12 (opened (adds 1 10 0 ∷ adds 5 2 1 ∷ one clean ∷ []) []) ≡ [] }
    ensures mark_before { indexes 12 (opened (adds 1 10 0 ∷ one clean ∷ adds 5 2 1 ∷ []) []) ≡ 5 ∷ 6 ∷ [] }
{}

/// Entries of the rewrite queue that are rewritten in two records: after the first one the rest is
/// gone, unless the records are an atomic group.
pub fn entries_rewritten_in_two_records()
    ensures content { indexes 6 (opened (adds 1 4 0 ∷ []) []) ≡ 1 ∷ 2 ∷ 3 ∷ 4 ∷ [] }
    ensures first_alone { indexes 6 (opened (adds 1 4 0 ∷ adds 1 2 0 ∷ []) []) ≡ 1 ∷ 2 ∷ [] }
    ensures begun { indexes 6 (opened (adds 1 4 0 ∷ two (mark 7 Begin) (entries (run 1 2 0)) ∷ []) []) ≡ 1 ∷ 2 ∷ 3 ∷ 4 ∷ [] }
    ensures ended { indexes 6 (opened (adds 1 4 0 ∷ two (mark 7 Begin) (entries (run 1 2 0)) ∷ two (mark 7 End) (entries (run 3 2 0)) ∷ []) [])
        ≡ 1 ∷ 2 ∷ 3 ∷ 4 ∷ [] }
    ensures old_gone { indexes 6 (opened (two (mark 7 Begin) (entries (run 1 2 0)) ∷ two (mark 7 End) (entries (run 3 2 0)) ∷ []) [])
        ≡ 1 ∷ 2 ∷ 3 ∷ 4 ∷ [] }
{}

/// A batch of the append queue with a mark counts for nothing when it is read again, also where it
/// has both ends.
pub fn marked_batch_of_a_caller()
    ensures both_ends { (opened [] (two (mark 7 Begin) (mark 7 End) ∷ [])).there ≡ false }
    ensures entries { indexes 3 (opened [] (two (mark 7 Begin) (entries (run 1 1 0)) ∷ [])) ≡ [] }
{}

/// The marks that memtables tell for the lists above: past all entries, at the first index, in
/// place of what was cleaned.
pub fn marks_of_the_rows()
    ensures emptied { due (traced ((1, entries (run 5 2 1)) ∷ (2, compact 7) ∷ []) (rewritten_trace 1 11)) ≡ (Some 1, compact 11 ∷ []) }
    ensures anew { due (traced ((1, entries (run 1 3 1)) ∷ (1, compact 4) ∷ (2, entries (run 10 3 2)) ∷ []) (rewritten_trace 1 9))
        ≡ (Some 1, compact 10 ∷ []) }
    ensures cut_before { due (traced ((1, entries (run 1 3 1)) ∷ (2, compact 4) ∷ []) (rewritten_trace 1 9)) ≡ (Some 1, compact 9 ∷ []) }
    ensures cleaned { due (traced ((1, clean) ∷ (2, entries (run 5 2 1)) ∷ []) (rewritten_trace 1 11)) ≡ (Some 1, clean ∷ compact 5 ∷ []) }
    ensures deleted { due (traced ((1, put name []) ∷ (2, delete name) ∷ []) (rewritten_trace 0 0)) ≡ (Some 1, compact 0 ∷ delete name ∷ []) }
    ensures put_again { due (traced ((1, delete name) ∷ (2, put name []) ∷ []) (rewritten_trace 0 0)) ≡ (Some 1, compact 0 ∷ []) }
{}
