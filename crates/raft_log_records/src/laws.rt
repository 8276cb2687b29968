//! Laws of records, each the contract of a call that does nothing.

ghost use Rattle.raft_log_records.specs.Laws.{LengthsStay, LengthsNeedEight, RecordsHaveTheirLength, AnswersStay, RecordsNeedTheirLength, ZerosAreNoRecord};

/// A record's length is told by its first eight bytes, whatever follows, and a record that is read
/// has it.
pub fn lengths_are_told()
    ensures stay { LengthsStay }
    ensures eight { LengthsNeedEight }
    ensures read { RecordsHaveTheirLength }
{}

/// What stands at the front of some bytes is read or refused so, whatever follows. More bytes are
/// asked for only while the length isn't told, or there are fewer than it says.
pub fn records_are_told_by_their_bytes()
    ensures stay { AnswersStay }
    ensures cut_short { RecordsNeedTheirLength }
{}

/// Zeros are no record, as from four of them on shows.
pub fn zeros_are_no_record()
    ensures { ZerosAreNoRecord }
{}
