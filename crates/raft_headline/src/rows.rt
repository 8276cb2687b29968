//! What the headline's words take in and what they leave out, on small cluster histories: each a
//! contract of a function without a body.

ghost use Rattle.std.specs.Prelude.{◌≡◌, ℕ, true, false, List, [], ◌∷◌, ◌++◌, Some, None};
ghost use Rattle.raft_values.specs.declared.log_id.LogId.{LogId};
ghost use Rattle.raft_values.specs.LogId.{log_id_of};
ghost use Rattle.raft_values.specs.Vote.{vote_of};
ghost use Rattle.raft_state.specs.declared.entry.EntryPayload.TheVariants.{Normal};
ghost use Rattle.raft_group_step.specs.declared.group_call.GroupCall.TheVariants.{Elect, Propose};
ghost use Rattle.raft_group_step.specs.GroupEvent.{Call, GroupEvent};
ghost use Rattle.raft_group_step.specs.GroupState.{GroupState};
ghost use Rattle.raft_group_step.specs.StepResult.{CommandTooLong};
ghost use Rattle.raft_laws.specs.Example.{add};
ghost use Rattle.raft_laws.specs.GroupWorld.{Up};
ghost use Rattle.raft_laws.specs.LawRuns.{after, settled_aside};
ghost use Rattle.raft_laws.specs.OneVoter.{one};
ghost use Rattle.raft_laws.specs.OriginRun.{command_at};
ghost use Rattle.raft_laws.specs.Settled.{group_list};
ghost use Rattle.raft_laws.specs.declared.world_event.WorldEvent.TheVariants as event;
ghost use Rattle.raft_headline.specs.ClusterEvent.{AddGroup, Ask, Crash, Deliver, Done, Fused};
ghost use Rattle.raft_headline.specs.ClusterEvent.{Opened, PassedOver, Refused, Reopen, Stopped};
ghost use Rattle.raft_headline.specs.ClusterEvent.{TurnedAway, silent};
ghost use Rattle.raft_headline.specs.Answers.{TellsOrWaits};
ghost use Rattle.raft_headline.specs.Happened.{ComesTo, Happened};
ghost use Rattle.raft_headline.specs.Leaders.{HoldUpTo, IsHeldByLeaders};
ghost use Rattle.raft_headline.specs.Machines.{Replicas};
ghost use Rattle.raft_headline.specs.OwnEvents.{own_events, own_number};
ghost use Rattle.raft_headline.specs.Rows.{LeadsTo, asks_seven, at_one, collecting, first_entry};
ghost use Rattle.raft_headline.specs.Rows.{has_told, history, in_world, its_list, leading};
ghost use Rattle.raft_headline.specs.Rows.{noted_again, proposes, set_up, set_up_entry};
ghost use Rattle.raft_headline.specs.Rows.{beats, state_there, tells, told_at};
ghost use Rattle.raft_headline.specs.Rows.{told_event, unknown_of, waits, with_waiting};
ghost use Rattle.raft_headline.specs.Seen.{Crashed, Halted, Own, Passed};
ghost use Rattle.raft_headline.specs.Serves.{is_ended};
ghost use Rattle.raft_headline.specs.Stops.{StopsStay, is_of_group, node_at, opens};
ghost use Rattle.raft_headline.specs.Takes.{IsTaken};
ghost use Rattle.raft_headline.specs.Told.{IsNotedBy, IsOriginOf, IsToldRightly, said_by, said_in};
ghost use Rattle.raft_headline.specs.Tokens.{IsAccountedFor, IsEndedBy};
ghost use Rattle.raft_headline.specs.Tokens.{loses_silently, named_unknown};

/// A group's own events are its calls and messages, openings and crashes, and a halt where an event
/// of others stopped its node. Those that were turned away, and those of others, are none. A stop
/// takes the next number.
pub fn events_of_a_group()
    ensures seven { own_events 7 history (1 ∷ [])
        ≡ (event.Add 1, None) ∷ (event.Ask 1 (Propose (add 8) 4) 0, None)
        ∷ (event.Ask 1 set_up 0, None) ∷ (event.Ask 1 (Propose (add 5) 1) 0, None)
        ∷ (event.Halt 1, Some 0) ∷ (event.Ask 1 (Propose (add 7) 3) 0, None)
        ∷ (event.Restart 1, None) ∷ (event.Ask 1 (Propose (add 7) 5) 0, Some 1)
        ∷ (event.Crash 1, None) ∷ [] }
    ensures nine { own_events 9 history (2 ∷ [])
        ≡ (event.Add 1, None) ∷ (event.Ask 1 set_up 0, Some 2) ∷ (event.Restart 1, None)
        ∷ (event.Halt 1, Some 0) ∷ (event.Crash 1, None) ∷ [] }
    ensures none { own_events 8 (at_one (AddGroup 1 7) (Done silent) ∷ []) [] ≡ [] }
    ensures two_stops { own_events 7 (at_one (proposes 5 1) Fused ∷ at_one (proposes 6 2) Fused
        ∷ [])
        (3 ∷ 4 ∷ [])
        ≡ (event.Ask 1 (Propose (add 5) 1) 0, Some 3)
        ∷ (event.Ask 1 (Propose (add 6) 2) 0, Some 4) ∷ [] }
{}

/// An event's number in the group counts the events before it that the group sees.
pub fn numbers_in_a_group()
    ensures first { own_number 7 history 0 ≡ 0 }
    ensures behind_another { own_number 7 history 4 ≡ 3 }
    ensures last { own_number 7 history 9 ≡ 8 }
    ensures of_nine { own_number 9 history 5 ≡ 1 }
    ensures past_the_end { own_number 7 history 20 ≡ 9 }
{}

/// What an outcome says of a group: its own part, of the group's own events alone.
pub fn said_of_a_group()
    ensures own { said_by 7 (proposes 5 1) (Done (tells (told_at 1 1 [])))
        ≡ tells (told_at 1 1 []) }
    ensures anothers { said_by 9 (proposes 5 1) (Done (tells (told_at 1 1 []))) ≡ silent }
    ensures delivered { said_by 7 (Deliver 7 0 0) (Done (tells (told_at 1 1 [])))
        ≡ tells (told_at 1 1 []) }
    ensures opened { said_by 9 (Reopen 1) (Opened ((7, silent) ∷ (9, tells (told_at 1 1 [])) ∷ []))
        ≡ tells (told_at 1 1 []) }
    ensures not_there { said_in 8 (Opened ((7, tells (told_at 1 1 [])) ∷ [])) ≡ silent }
    ensures stopped { said_in 7 (Stopped (unknown_of 7 1 ∷ [])) ≡ silent }
    ensures ended { is_ended (Done silent) ≡ true }
    ensures opened_ended { is_ended (Opened []) ≡ true }
    ensures fused { is_ended Fused ≡ false }
    ensures refused { is_ended (Refused CommandTooLong) ≡ false }
{}

/// An event notes the next log id of its node where it asks for a command of the group and is
/// taken, also where it stops: not one that is refused, passed over or turned away, a set-up, or an
/// event of others.
pub fn noted_log_ids()
    ensures told { IsNotedBy one 7 noted_again (0 ∷ []) 4 (log_id_of 1 1 2) }
    ensures stopped { IsNotedBy one 7 noted_again (0 ∷ []) 8 (log_id_of 1 1 3) }
    ensures again { IsNotedBy one 7 noted_again (0 ∷ []) 10 (log_id_of 1 1 3) }
    ensures refused { (id : LogId ℕ) → IsNotedBy one 7 noted_again (0 ∷ []) 1 id → ⊥ }
    ensures set_up { (id : LogId ℕ) → IsNotedBy one 7 noted_again (0 ∷ []) 2 id → ⊥ }
    ensures anothers { (id : LogId ℕ) → IsNotedBy one 7 noted_again (0 ∷ []) 5 id → ⊥ }
    ensures passed_over { (id : LogId ℕ) → IsNotedBy one 7 noted_again (0 ∷ []) 6 id → ⊥ }
    ensures opening { (id : LogId ℕ) → IsNotedBy one 7 noted_again (0 ∷ []) 7 id → ⊥ }
    ensures turned_away { (id : LogId ℕ) → IsNotedBy one 7 history (0 ∷ []) 10 id → ⊥ }
    ensures next_place { IsNotedBy one 7 noted_again (0 ∷ []) 4 (log_id_of 1 1 3) → ⊥ }
{}

/// The origin of an entry asked for it in the group, was taken, also where it stopped, and is the
/// last that noted its log id: not one that was refused, passed over or turned away, of another
/// group, or with other bytes, nor an earlier one. A set-up notes nothing.
pub fn origins_of_entries()
    ensures told { IsOriginOf one 7 history (0 ∷ []) 4 (command_at 2 (add 5)) }
    ensures stopped { IsOriginOf one 7 history (1 ∷ []) 8 (command_at 3 (add 7)) }
    ensures last { IsOriginOf one 7 noted_again (0 ∷ []) 10 (command_at 3 (add 7)) }
    ensures earlier { IsOriginOf one 7 noted_again (0 ∷ []) 8 (command_at 3 (add 7)) → ⊥ }
    ensures refused { IsOriginOf one 7 history (0 ∷ []) 1 (first_entry (Normal (add 8))) → ⊥ }
    ensures set_up { IsOriginOf one 7 history (0 ∷ []) 2 set_up_entry }
    ensures anothers { IsOriginOf one 9 history (0 ∷ []) 2 set_up_entry → ⊥ }
    ensures passed_over { IsOriginOf one 7 (at_one (asks_seven set_up) PassedOver ∷ []) [] 0
        set_up_entry → ⊥ }
    ensures turned_away { IsOriginOf one 7 (at_one (asks_seven set_up) TurnedAway ∷ []) [] 0
        set_up_entry → ⊥ }
    ensures other_bytes { IsOriginOf one 7 history (0 ∷ []) 4 (command_at 2 (add 6)) → ⊥ }
    ensures past_the_end { IsOriginOf one 7 history (0 ∷ []) 11 (command_at 2 (add 5)) → ⊥ }
{}

/// A token is told at the place of its own entry, with the machine's answer there.
pub fn told_answers()
    ensures right { IsToldRightly collecting one 7 history (0 ∷ []) its_list
        (told_at 1 2 (2 ∷ add 5)) }
    ensures place_before { IsToldRightly collecting one 7 history (0 ∷ []) its_list (told_at 1 1 [])
        → ⊥ }
    ensures place_behind { IsToldRightly collecting one 7 history (0 ∷ []) its_list (told_at 1 3 [])
        → ⊥ }
    ensures other_token { IsToldRightly collecting one 7 history (0 ∷ []) its_list
        (told_at 2 2 (2 ∷ add 5)) → ⊥ }
    ensures other_answer { IsToldRightly collecting one 7 history (0 ∷ []) its_list
        (told_at 1 2 (3 ∷ add 5)) → ⊥ }
    ensures not_asked { IsToldRightly collecting one 7 [] (0 ∷ []) its_list
        (told_at 1 2 (2 ∷ add 5)) → ⊥ }
{}

/// The small histories replay for group 7, the stopped command stored or not.
pub fn histories_that_replay()
    ensures unstored { (end : Replicas) × LeadsTo history (0 ∷ []) end
        × (group_list end.world ≡ its_list) }
    ensures stored { (end : Replicas) × LeadsTo history (1 ∷ []) end
        × (group_list end.world ≡ its_list) }
    ensures again { (end : Replicas) × LeadsTo noted_again (0 ∷ []) end
        × (group_list end.world ≡ its_list ++ command_at 3 (add 7) ∷ []) }
{}

/// So the headline says of them what happened: their told tokens stand, their tokens are accounted
/// for, the leader has taken the command, and stops stay.
pub fn headline_of_small_histories()
    ensures told { (numbers : List ℕ) (end : Replicas) → LeadsTo history numbers end
        → IsToldRightly collecting one 7 history numbers (group_list end.world)
        (told_at 1 2 (2 ∷ add 5)) }
    ensures told_again { (numbers : List ℕ) (end : Replicas) → LeadsTo noted_again numbers end
        → IsToldRightly collecting one 7 noted_again numbers (group_list end.world)
        (told_at 6 3 (3 ∷ add 5 ++ add 7)) }
    ensures token { (numbers : List ℕ) (end : Replicas) → LeadsTo history numbers end
        → IsAccountedFor one 7 history (own_events 7 history numbers) end 1 4 1 }
    ensures unknown_token { (numbers : List ℕ) (end : Replicas) → LeadsTo history numbers end
        → IsAccountedFor one 7 history (own_events 7 history numbers) end 1 8 5 }
    ensures taken { (old : Replicas) × (new : Replicas) × (s : GroupState)
        × (old.world.nodes 1 ≡ Up s) × IsTaken 1 s (add 5) told_event new
        × ((end : Replicas) × Happened collecting one 7 history end told_event old new) }
    ensures stops { StopsStay 7 history }
{}

/// A token of another event, or of one that was refused, isn't accounted for.
pub fn tokens_accounted_for()
    ensures refused { (end : Replicas)
        → IsAccountedFor one 7 history (own_events 7 history (0 ∷ [])) end 1 1 4 → ⊥ }
    ensures other_token { (end : Replicas)
        → IsAccountedFor one 7 history (own_events 7 history (0 ∷ [])) end 1 4 9 → ⊥ }
    ensures other_node { (end : Replicas)
        → IsAccountedFor one 7 history (own_events 7 history (0 ∷ [])) end 2 4 1 → ⊥ }
{}

/// A token ends where it is told at its place, named as unknown of the group, or lost by a fuse or
/// a crash.
pub fn ends_of_tokens()
    ensures told { IsEndedBy 7 (at_one (proposes 5 1) (Done (tells (told_at 1 2 [])))) (waits 1 2) }
    ensures unknown { IsEndedBy 7 (at_one (asks_seven Elect)
        (Done (record silent { unknown = 1 ∷ [] })))
        (waits 1 2) }
    ensures stopped { IsEndedBy 7 (at_one (proposes 5 1)
        (Stopped (unknown_of 9 4 ∷ unknown_of 7 1 ∷ [])))
        (waits 1 2) }
    ensures fused { IsEndedBy 7 (at_one (proposes 5 1) Fused) (waits 1 2) }
    ensures halted { IsEndedBy 7 (at_one (Ask 1 9 (Propose (add 6) 2) 0) Fused) (waits 1 2) }
    ensures crashed { IsEndedBy 7 (at_one (Crash 1) (Done silent)) (waits 1 2) }
    ensures other_place { IsEndedBy 7 (at_one (proposes 5 1) (Done (tells (told_at 1 3 []))))
        (waits 1 2) → ⊥ }
    ensures anothers { IsEndedBy 7 (at_one (proposes 5 1) (Stopped (unknown_of 9 1 ∷ [])))
        (waits 1 2) → ⊥ }
    ensures silent_end { IsEndedBy 7 (at_one (proposes 5 1) (Done silent)) (waits 1 2) → ⊥ }
    ensures refused { IsEndedBy 7 (at_one (proposes 5 1) (Refused CommandTooLong)) (waits 1 2) → ⊥ }
{}

/// What outcomes name as unknown, and which events lose tokens without a word.
pub fn unnamed_tokens()
    ensures own { named_unknown 7 (Stopped (unknown_of 7 1 ∷ unknown_of 9 2 ∷ unknown_of 7 3 ∷ []))
        ≡ 1 ∷ 3 ∷ [] }
    ensures opened { named_unknown 7 (Opened ((7, record silent { unknown = 4 ∷ [] }) ∷ []))
        ≡ 4 ∷ [] }
    ensures fused { loses_silently (Halted 1) Fused ≡ true }
    ensures crashed { loses_silently (Crashed 1) (Done silent) ≡ true }
    ensures stopped { loses_silently (Own (event.Add 1)) (Stopped []) ≡ false }
    ensures not_seen { loses_silently Passed Fused ≡ false }
{}

/// A node that an event stopped answers nothing until it is opened: not by another group's event
/// either. The opening of another node doesn't help, nor one that stopped or of which nothing came.
pub fn stops_that_stay()
    ensures answers { StopsStay 7 (at_one (proposes 5 1) (Stopped [])
        ∷ at_one (proposes 6 2) (Done silent) ∷ [])
        → ⊥ }
    ensures fused { StopsStay 7 (at_one (proposes 5 1) Fused ∷ at_one (Deliver 7 0 0) (Done silent)
        ∷ []) → ⊥ }
    ensures anothers { StopsStay 7
        (at_one (Ask 1 9 Elect 0) (Stopped []) ∷ at_one (proposes 6 2) (Done silent) ∷ [])
        → ⊥ }
    ensures other_opened { StopsStay 7
        (at_one (proposes 5 1) Fused ∷ at_one (Reopen 2) (Opened [])
        ∷ at_one (proposes 6 2) (Done silent) ∷ [])
        → ⊥ }
    ensures not_opened { StopsStay 7
        (at_one (proposes 5 1) Fused ∷ at_one (Reopen 1) Fused
        ∷ at_one (proposes 6 2) (Done silent) ∷ [])
        → ⊥ }
    ensures opening_passed { StopsStay 7
        (at_one (proposes 5 1) Fused ∷ at_one (Reopen 1) PassedOver
        ∷ at_one (proposes 6 2) (Done silent) ∷ [])
        → ⊥ }
    ensures opened { opens 1 (at_one (Reopen 1) (Opened [])) ≡ true }
    ensures delivered { node_at (at_one (Deliver 7 0 0) (Done silent)) ≡ 1 }
    ensures other_group { is_of_group 7 (Ask 1 9 Elect 0) ≡ false }
{}

/// A leader has taken a command where it leads on with it at its next place: not with another one,
/// without it, or where the event stopped.
pub fn commands_taken()
    ensures taken { IsTaken 1 (state_there leading) (add 5) told_event (in_world has_told) }
    ensures other_command { IsTaken 1 (state_there leading) (add 6) told_event (in_world has_told)
        → ⊥ }
    ensures lost { IsTaken 1 (state_there leading) (add 5) told_event (in_world leading) → ⊥ }
    ensures earlier { IsTaken 1 (state_there has_told) (add 5) told_event (in_world has_told) → ⊥ }
    ensures stopped { IsTaken 1 (state_there leading) (add 5) (at_one (proposes 5 1) (Stopped []))
        (in_world has_told)
        → ⊥ }
    ensures other_node { IsTaken 2 (state_there leading) (add 5) told_event (in_world has_told)
        → ⊥ }
{}

/// Leaders under a vote, or a greater one, hold the list up to a place; one under a lesser vote may
/// lack it.
pub fn leaders_that_hold_lists()
    ensures held { HoldUpTo has_told (vote_of 1 1 true) 2 }
    ensures past_the_end { HoldUpTo has_told (vote_of 1 1 true) 3 → ⊥ }
    ensures greater { HoldUpTo (after settled_aside) (vote_of 2 2 true) 2 }
    ensures lesser { HoldUpTo (after settled_aside) (vote_of 1 1 true) 2 → ⊥ }
{}

/// Who told an answer led behind its event, and the leaders hold the list up to the told place.
pub fn answers_held_by_leaders()
    ensures told { IsHeldByLeaders told_event (in_world has_told) (in_world has_told)
        (told_at 1 2 []) }
    ensures past_the_end { IsHeldByLeaders told_event (in_world has_told) (in_world has_told)
        (told_at 1 3 []) → ⊥ }
    ensures other_node { IsHeldByLeaders (record told_event { node = 2 }) (in_world has_told)
        (in_world has_told)
        (told_at 1 2 [])
        → ⊥ }
{}

/// Who leads on tells each token that waited, or that the event brought, at its place, or it waits on;
/// none stays unknown.
pub fn tokens_told_or_waiting()
    ensures told { TellsOrWaits (with_waiting (waits 1 2 ∷ [])) (with_waiting []) beats (tells (told_at 1 2 [])) }
    ensures waiting { TellsOrWaits (with_waiting (waits 1 2 ∷ [])) (with_waiting (waits 1 2 ∷ [])) beats silent }
    ensures forgotten { TellsOrWaits (with_waiting (waits 1 2 ∷ [])) (with_waiting []) beats silent → ⊥ }
    ensures other_place { TellsOrWaits (with_waiting (waits 1 2 ∷ [])) (with_waiting []) beats (tells (told_at 1 3 [])) → ⊥ }
    ensures other_token { TellsOrWaits (with_waiting (waits 1 2 ∷ [])) (with_waiting []) beats (tells (told_at 2 2 [])) → ⊥ }
    ensures own_token { TellsOrWaits (with_waiting []) (with_waiting []) (Call (Propose (add 5) 1) 0) silent → ⊥ }
    ensures unknown { TellsOrWaits (with_waiting []) (with_waiting []) beats (record silent { unknown = 1 ∷ [] }) → ⊥ }
{}

/// A call comes to the node that it asks, where that is up and the event reached it: no opening
/// does, nor what is another group's.
pub fn events_that_come()
    ensures call { ComesTo 7 told_event (in_world leading) 1 (state_there leading)
        (Call (Propose (add 5) 1) 0) }
    ensures other_group { (n : ℕ) (s : GroupState) (e : GroupEvent)
        → ComesTo 9 told_event (in_world leading) n s e → ⊥ }
    ensures other_node { (s : GroupState) (e : GroupEvent)
        → ComesTo 7 told_event (in_world leading) 2 s e → ⊥ }
    ensures other_call { (s : GroupState)
        → ComesTo 7 told_event (in_world leading) 1 s (Call (Propose (add 6) 1) 0) → ⊥ }
    ensures turned_away { (n : ℕ) (s : GroupState) (e : GroupEvent)
        → ComesTo 7 (at_one (proposes 5 1) TurnedAway) (in_world leading) n s e → ⊥ }
    ensures opening { (n : ℕ) (s : GroupState) (e : GroupEvent)
        → ComesTo 7 (at_one (Reopen 1) (Opened [])) (in_world leading) n s e → ⊥ }
    ensures crash { (n : ℕ) (s : GroupState) (e : GroupEvent)
        → ComesTo 7 (at_one (Crash 1) (Done silent)) (in_world leading) n s e → ⊥ }
{}
