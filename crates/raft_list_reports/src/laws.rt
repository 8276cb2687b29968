//! The laws by which reports are true: each the contract of a function without a body.
ghost use Rattle.raft_list_reports.specs.Laws.{BasesAreTold, NewEntriesAreAsked, NotesAreTold, ReportsAheadAreTrue, ReportsAreTrue, StopsAreKept, StopsBegin};

/// What a node tells that leads says of its note the vote and the last log id; at the first note under a vote it says, too, what the
/// leader took over. Over every history that replays.
pub fn leaders_tell_their_lists()
    ensures notes { NotesAreTold }
    ensures bases { BasesAreTold }
{}

/// Behind a leader's last list its next note has nothing, or one entry, for which its event asks: a call's command or change; at an
/// opening, what the call writes that stopped at the node last.
pub fn new_entries_are_asked()
    ensures { NewEntriesAreAsked }
{}

/// What is kept of calls that stopped begins with a new world, whatever it is, and goes on with each event of a history.
pub fn stops_are_kept()
    ensures begin { StopsBegin }
    ensures goes_on { StopsAreKept }
{}

/// A report that has what is known of an event says what the event did, by what is noted before it; also where a set-up was heard
/// ahead.
pub fn reports_are_true()
    ensures told { ReportsAreTrue }
    ensures ahead { ReportsAheadAreTrue }
{}
