//! Laws of the group step, and of histories that replay.

ghost use Rattle.std.specs.Prelude.{ℕ};
ghost use Rattle.raft_group_step.specs.GroupState.{GroupState};
ghost use Rattle.raft_group_step.specs.GroupEvent.{GroupEvent};
ghost use Rattle.raft_group_step.specs.GroupStep.{group_step};
ghost use Rattle.raft_laws.specs.StoringOrder.{StoresInOrder};
ghost use Rattle.raft_laws.specs.GroupsStay.{GroupsStay};
ghost use Rattle.raft_laws.specs.Refusals.{RefusalsAreTold};
ghost use Rattle.raft_laws.specs.VotesRise.{SentVotesStay, VotesNeverDecrease};
ghost use Rattle.raft_laws.specs.CommitsOwn.{CommitsOwn, LeadersCommitTheirOwn};

/// What a step has stored is what its storing commands make of the group, one after the other. None of them puts a
/// lesser vote in place of a greater, and none cuts the log at or below the committed place.
pub fn step_stores_its_commands()
    ensures { (own : ℕ) (s : GroupState) (e : GroupEvent) → StoresInOrder s.committed s.stored (group_step own s e) }
{}

/// A group that a node has stays, whatever is stored.
pub fn groups_stay()
    ensures { GroupsStay }
{}

/// A step tells the reason for which its event is refused, and none where it isn't.
pub fn refusals_are_told()
    ensures { RefusalsAreTold }
{}

/// A node's vote never decreases, over every history that replays, with a stop after any number of an event's storing
/// commands, crashes and restarts: what it has stored later has a vote that isn't below the one before, nor below any vote
/// that it sent or answered as its own.
pub fn votes_never_decrease()
    ensures stored { VotesNeverDecrease }
    ensures sent { SentVotesStay }
{}

/// A leader commits only log ids of its own leader id, over every history that replays, with stops, crashes and restarts:
/// where a node leads after an event and knows more to be committed than as the event began, an entry of its log with the
/// leader id of its own vote stands at the committed place. A node that was down knows as it begins what its snapshot has.
/// So it is, too, at the word by which a leader commits, whatever led there.
pub fn leaders_commit_their_own()
    ensures histories { LeadersCommitTheirOwn }
    ensures commit { CommitsOwn }
{}
