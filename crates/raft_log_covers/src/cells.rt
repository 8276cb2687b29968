//! Cells of a content.

ghost use Rattle.std.specs.Prelude.{ℕ, List};
ghost use Rattle.raft_log_records.specs.Item.{Change, Item};
ghost use Rattle.raft_log_covers.specs.Cells.{Cell, SetsOrLeaves, SetOrLeave, CellsAreAll};
ghost use Rattle.raft_log_covers.specs.Cells.{RecordsCompose};

/// What a change, or a list of batches, makes of a cell that it sets doesn't rest on what was
/// there. Other cells stay. A content is its cells.
pub fn a_cell_has_what_was_set_last()
    ensures change { (change : Change (List ℕ)) (c : Cell) → SetsOrLeaves change c }
    ensures batches { (batches : List (List (Item (List ℕ)))) (group : ℕ) (c : Cell) → SetOrLeave batches group c }
    ensures all { CellsAreAll (List ℕ) }
{}

/// Records without marks, replayed behind others, do to the content of those what their batches
/// do.
pub fn records_compose()
    ensures { RecordsCompose (List ℕ) }
{}
