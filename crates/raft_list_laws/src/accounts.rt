//! The accounts of a group's list stay true from event to event: laws, each a contract of a function without a body.

ghost use Rattle.raft_list_laws.specs.Changes.{AcceptancesKeep, FrontsBeforeMessages, FrontsBeforeNotes, NotesKeep, SetUpsKeep, SilentKeep};
ghost use Rattle.raft_list_laws.specs.Bases.{BasesWereNoted, SetUpsComeFirst};
ghost use Rattle.raft_list_laws.specs.NewEntries.{NewEntriesAreFew};
ghost use Rattle.raft_list_laws.specs.Changes.{NobodyLedBefore, NotedListsAgree, NotesGoOn, OwnEntriesComeLast, PartsOfHistories};

/// Accounts that are true of a world are true of the next one: behind a set-up before which nobody led, a leader's note, and
/// each message. Only the list of the one vote that is noted or accepted can make the group's list longer.
pub fn list_accounts_stay_true()
    ensures setups { SetUpsKeep }
    ensures notes { NotesKeep }
    ensures acceptances { AcceptancesKeep }
    ensures silent { SilentKeep }
{}

/// What is settled of each leader's lists is a front of one list: of the group's, in each world to which a history leads, and of
/// that same list before each note and message behind which that holds. So the worlds inside an event have it from the event's end.
pub fn settled_parts_are_fronts()
    ensures histories { PartsOfHistories }
    ensures notes { FrontsBeforeNotes }
    ensures messages { FrontsBeforeMessages }
{}

/// A leader's own entries stand at the end of each list that it was noted with, over every history that replays.
pub fn own_entries_come_last()
    ensures { OwnEntriesComeLast }
{}

/// Before its set-up a group has no leader's note, over every history that replays.
pub fn nobody_leads_before_a_set_up()
    ensures { NobodyLedBefore }
{}

/// The note of an event goes on from the list that accounts keep under its vote, over every history that replays: they need be true
/// only of the notes before it.
pub fn notes_go_on()
    ensures { NotesGoOn }
{}

/// Lists that leaders were noted with are the same up to each log id that both have (log matching), over every history that replays.
pub fn noted_lists_agree()
    ensures { NotedListsAgree }
{}

/// What a new leader took over, its list up to its first own entry, is a front of a list that another leader was noted with before,
/// or it has one entry at most, that of a set-up; over every history that replays.
pub fn bases_were_noted()
    ensures { BasesWereNoted }
{}

/// The note that an event leaves has one new entry at most, in every run. Behind what it took over, a leader that wasn't noted
/// before has a blank entry. One that was has the command or change of the last event that noted its log id: of this event, or of
/// one that stopped before this opening.
pub fn new_entries_are_few()
    ensures { NewEntriesAreFew }
{}

/// Each list that a leader was noted with begins with the entry of the group's set-up, over every history that replays.
pub fn set_ups_come_first()
    ensures { SetUpsComeFirst }
{}
