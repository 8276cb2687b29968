//! Where the entries of a group's list come from: laws of every run, each a contract of a function without a body.
//!
//! A run is a list of events, each with the number of storing commands after which it stops, if it does. Each history
//! that replays is that of a run.

ghost use Rattle.raft_laws.specs.Origins.{AskedIsRecorded, EntriesWereAskedFor, IsRecordedAt, OnePlaceForAnEvent, ToldTokensStand};
ghost use Rattle.std.specs.Prelude.{◌≡◌, ℕ, Some};
ghost use Rattle.raft_group_step.specs.Values.{Entry};
ghost use Rattle.raft_group_step.specs.declared.group_call.GroupCall.TheVariants.{Propose};
ghost use Rattle.raft_laws.specs.GroupWorld.{new_world};
ghost use Rattle.raft_laws.specs.GroupRun.{history_of};
ghost use Rattle.raft_laws.specs.OneVoter.{one, stopped_proposal};
ghost use Rattle.raft_laws.specs.Example.{add};
ghost use Rattle.raft_laws.specs.OriginRun.{command_at, AskedInRun, listed_at};

/// Each entry of the list that isn't blank was asked for by an event of the run: it is what a call writes that came to
/// a node that was up, wasn't refused, and didn't stop before its first storing command. So a command that was refused,
/// or that wasn't stored, is never on the list. The run's history has that event, neither refused nor skipped; and no
/// two places of the list come from one event.
pub fn entries_were_asked_for()
    ensures origin { EntriesWereAskedFor }
    ensures recorded { AskedIsRecorded }
    ensures one_place { OnePlaceForAnEvent }
{}

/// Each token that an event tells was brought by an event of the run at or before it, and the told place has the entry
/// that this event wrote, on the list and at the node that tells it, which knows the place to be committed.
pub fn told_tokens_stand()
    ensures { ToldTokensStand }
{}

/// A proposal that stops once its entry is stored is on the list, and its event is the entry's origin. Where it stops
/// before that, it is no origin, and the next command has its place. What is asked of a node that is down isn't taken.
pub fn origin_of_a_stopped_proposal()
    ensures stored { AskedInRun 1 2 (add 5) 1 (command_at 2 (add 5)) }
    ensures listed { listed_at 1 2 ≡ Some (command_at 2 (add 5)) }
    ensures next { AskedInRun 1 5 (add 7) 3 (command_at 3 (add 7)) }
    ensures not_stored { (e : Entry) → AskedInRun 0 2 (add 5) 1 e → ⊥ }
    ensures instead { AskedInRun 0 5 (add 7) 3 (command_at 2 (add 7)) }
    ensures skipped { IsRecordedAt (history_of (stopped_proposal 1) (new_world one)) 3 (Propose (add 7) 2) → ⊥ }
    ensures listed_instead { listed_at 0 2 ≡ Some (command_at 2 (add 7)) }
{}
