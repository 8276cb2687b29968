//! What the words take in and what they leave out, on small answers: each a contract of a function
//! without a body.
ghost use Rattle.std.specs.Prelude.{◌≡◌, true, [], ◌∷◌, Some, None, Ok, Err};
ghost use Rattle.raft_values.specs.LogId.{log_id_of};
ghost use Rattle.raft_values.specs.Vote.{vote_of};
ghost use Rattle.raft_group_step.specs.StepResult.{MembershipRefused, NotLeader, UnknownGroup};
ghost use Rattle.raft_headline.specs.ClusterEvent.{ClusterOutcome as PlainOutcome};
ghost use Rattle.raft_headline.specs.ClusterEvent.{Done, Opened, PassedOver, Refused, Stopped};
ghost use Rattle.raft_headline.specs.ClusterEvent.{TurnedAway, silent};
ghost use Rattle.raft_headline.specs.Rows.{told_at, unknown_of};
ghost use Rattle.raft_cluster_conditions.specs.declared.reasons.ClusterRefusal.TheVariants.{ByChance, NodeDown, NotAnImage};
ghost use Rattle.raft_cluster_events.specs.declared.outcome.EventOutcome.TheVariants as outcome;
ghost use Rattle.raft_cluster_events.specs.declared.outcome.NodeError.TheVariants as error;
ghost use Rattle.raft_cluster_events.specs.declared.outcome.NodeRefusal.TheVariants as refusal;
ghost use Rattle.raft_cluster_laws.specs.Rows.{made, sends};
ghost use Rattle.raft_group_step.specs.GroupState.{Follower, Leader, no_group, state_of};
ghost use Rattle.raft_laws.specs.GroupWorld.{Down, Up};
ghost use Rattle.raft_list_facts.specs.Rows.{node_two, up_to};
ghost use Rattle.raft_list_facts.specs.declared.leading.Base.TheVariants.{UpTo};
ghost use Rattle.raft_machines.specs.Adding.{adding};
ghost use Rattle.raft_node_laws.specs.Law.{Lends, leading_in};
ghost use Rattle.raft_node_laws.specs.Answered.{stop_behind};
ghost use Rattle.raft_node_laws.specs.Reporting.{IsRecordedAs, IsReport};
ghost use Rattle.raft_machines.specs.declared.telling.UnknownTokens.{UnknownTokens};
ghost use Rattle.raft_node_laws.specs.Rows.{IsLed, IsWaiting, a_frame, cleaned, crashed, done_unsaid, done_with};
ghost use Rattle.raft_node_laws.specs.Rows.{elected, has_seven, knows_none, plainly_crashed};
ghost use Rattle.raft_node_laws.specs.Rows.{plainly_cleaned, plainly_elected, plainly_spared};
ghost use Rattle.raft_node_laws.specs.Rows.{sent_by_number, spells, stopped_with};
ghost use Rattle.raft_node_laws.specs.Saying.{SaysCall, SaysOpening, names_of, outcome_of_refusal};

/// A stop names the tokens that waited. Behind an event that was done, it names the event's own ones
/// first: those that were to be told, and those that were to be unknown.
pub fn names_of_stops()
    ensures waited { (x y : UnknownTokens) → IsWaiting 7 5 x → IsWaiting 9 6 y
        → names_of (stopped_with (x ∷ y ∷ [])) ≡ unknown_of 7 5 ∷ unknown_of 9 6 ∷ [] }
    ensures unsaid { (x : UnknownTokens) → IsWaiting 7 5 x
        → names_of (stop_behind (done_unsaid 7 3 4) (stopped_with (x ∷ []))) ≡ unknown_of 7 3 ∷ unknown_of 7 4 ∷ unknown_of 7 5 ∷ [] }
{}

/// A call says what its frames spell, in their order, and what it tells, of its own group. A frame
/// tells what its message accepts, here nothing. A call says nothing where it did nothing, or where its
/// stream says no frame.
pub fn answers_of_calls()
    ensures says { SaysCall spells 1 7 (Ok (done_with (a_frame ∷ []) [] [] ∷ [])) (Done sends) }
    ensures another_group { SaysCall spells 1 9 (Ok (done_with (a_frame ∷ []) [] [] ∷ [])) (Done sends) → ⊥ }
    ensures another_acceptance { SaysCall spells 1 7 (Ok (done_with (record a_frame { accepts = up_to 3 } ∷ []) [] [] ∷ [])) (Done sends) → ⊥ }
    ensures another_sender { SaysCall spells 3 7 (Ok (done_with (a_frame ∷ []) [] [] ∷ [])) (Done sends) → ⊥ }
    ensures no_frame { SaysCall spells 1 7 (Ok (done_with [] [] [] ∷ [])) (Done sends) → ⊥ }
    ensures unsaid { SaysCall spells 1 7 (Ok (done_with (a_frame ∷ []) [] [] ∷ [])) (Done silent) → ⊥ }
    ensures untold { SaysCall spells 1 7 (Ok (done_with [] (told_at 3 2 [] ∷ []) [] ∷ [])) (Done silent) → ⊥ }
    ensures nothing { SaysCall spells 1 7 (Ok []) (Done silent) → ⊥ }
    ensures stream { (o : PlainOutcome) → SaysCall spells 1 7 (Err (error.Refused refusal.Frame)) o → ⊥ }
{}

/// An opening has one part for each group.
pub fn answers_of_openings()
    ensures says { SaysOpening spells 1 (Ok (done_with (a_frame ∷ []) [] [] ∷ [])) (Opened ((7, sends) ∷ [])) }
    ensures twice { SaysOpening spells 1 (Ok (done_with [] [] [] ∷ done_with [] [] [] ∷ [])) (Opened ((7, silent) ∷ (7, silent) ∷ [])) → ⊥ }
    ensures another_part { SaysOpening spells 1 (Ok (done_with [] [] [] ∷ [])) (Opened ((9, silent) ∷ [])) → ⊥ }
{}

/// A record's frames have the group's next numbers. A node that has stopped passes over, and one that
/// was down at first crashed before all. A crash that its node refused is turned away, and no crash.
pub fn records_of_clusters()
    ensures sent { IsRecordedAs [] (elected (outcome.Done (sent_by_number 7 0 ∷ []))) (plainly_elected (Done sends)) }
    ensures next { IsRecordedAs (plainly_elected (Done sends) ∷ []) (elected (outcome.Done (sent_by_number 7 1 ∷ []))) (plainly_elected (Done sends)) }
    ensures misnumbered { IsRecordedAs [] (elected (outcome.Done (sent_by_number 7 1 ∷ []))) (plainly_elected (Done sends)) → ⊥ }
    ensures another_group { IsRecordedAs [] (elected (outcome.Done (sent_by_number 9 0 ∷ []))) (plainly_elected (Done sends)) → ⊥ }
    ensures passed { IsRecordedAs [] (elected (outcome.Refused refusal.Failed)) (plainly_elected PassedOver) }
    ensures stopped { (x : UnknownTokens) → IsWaiting 7 5 x
        → IsRecordedAs [] (elected (outcome.Stopped (stopped_with (x ∷ [])))) (plainly_elected (Stopped (unknown_of 7 5 ∷ []))) }
    ensures unnamed { (x : UnknownTokens) → IsWaiting 7 5 x
        → IsRecordedAs [] (elected (outcome.Stopped (stopped_with (x ∷ [])))) (plainly_elected (Stopped [])) → ⊥ }
    ensures away { IsRecordedAs [] (elected (outcome.TurnedAway NodeDown)) (plainly_elected TurnedAway) }
    ensures spared { IsRecordedAs [] (crashed (outcome.TurnedAway ByChance)) plainly_spared }
    ensures spared_not_crashed { IsRecordedAs [] (crashed (outcome.TurnedAway ByChance)) plainly_crashed → ⊥ }
    ensures no_image { IsRecordedAs [] (crashed (outcome.TurnedAway NotAnImage)) plainly_spared }
    ensures crashed_not_spared { IsRecordedAs [] (crashed (outcome.Done [])) plainly_spared → ⊥ }
    ensures first { IsReport (1 ∷ []) [] (plainly_crashed ∷ []) }
    ensures not_down { IsReport [] [] (plainly_crashed ∷ []) → ⊥ }
    ensures forgotten { IsReport [] (elected (outcome.TurnedAway NodeDown) ∷ []) [] → ⊥ }
{}

/// A cleaning names the groups that hold old files back, which rise, and says nothing of any group.
/// No other event is told so. A stop names the tokens that waited.
pub fn records_of_cleanings()
    ensures cleaned { IsRecordedAs [] (cleaned (outcome.Cleaned (7 ∷ 9 ∷ []))) (plainly_cleaned (Done silent)) }
    ensures falling { IsRecordedAs [] (cleaned (outcome.Cleaned (9 ∷ 7 ∷ []))) (plainly_cleaned (Done silent)) → ⊥ }
    ensures twice { IsRecordedAs [] (cleaned (outcome.Cleaned (7 ∷ 7 ∷ []))) (plainly_cleaned (Done silent)) → ⊥ }
    ensures says { IsRecordedAs [] (cleaned (outcome.Cleaned [])) (plainly_cleaned (Done sends)) → ⊥ }
    ensures unnamed { IsRecordedAs [] (cleaned (outcome.Done [])) (plainly_cleaned (Done silent)) → ⊥ }
    ensures another { IsRecordedAs [] (elected (outcome.Cleaned [])) (plainly_elected (Done silent)) → ⊥ }
    ensures stopped { (x : UnknownTokens) → IsWaiting 7 5 x
        → IsRecordedAs [] (cleaned (outcome.Stopped (stopped_with (x ∷ [])))) (plainly_cleaned (Stopped (unknown_of 7 5 ∷ []))) }
    ensures passed { IsRecordedAs [] (cleaned (outcome.Refused refusal.Failed)) (plainly_cleaned PassedOver) }
{}

/// A node that gets a group has it, with nothing in it, and every other group is as before. One that
/// says so and has it not isn't led there, nor is one that may be in no state.
pub fn nodes_that_are_led()
    ensures gets { IsLed 7 has_seven (Done silent) }
    ensures idle { IsLed 7 knows_none (Done silent) → ⊥ }
    ensures another { IsLed 9 has_seven (Done silent) → ⊥ }
    ensures passed { IsLed 7 knows_none PassedOver → ⊥ }
    ensures nowhere { IsLed 7 (λ h. []) (Done silent) → ⊥ }
{}

/// In a state of a group a node lends the machine that has run the list that it has applied, and tells
/// its last place. It lends none where the group isn't there, or while it is down.
pub fn machines_that_are_lent()
    ensures absent { Lends adding (Up (state_of no_group)) None None }
    ensures withheld { Lends adding (Up (state_of made)) None None → ⊥ }
    ensures new { Lends adding (Up (state_of made)) (Some adding.first) None }
    ensures ahead { Lends adding (Up (state_of made)) (Some adding.first) (Some 0) → ⊥ }
    ensures another { Lends adding (Up (state_of made)) (Some []) None → ⊥ }
    ensures down { Lends adding (Down made) (Some adding.first) None → ⊥ }
{}

/// A node that leads a group tells so, with its vote, its last log id and what it took over. One that
/// follows, or is down, leads nothing.
pub fn leads_that_are_told()
    ensures leads { leading_in (Up (node_two (Leader (record { began = 1; peers = [] })) None (log_id_of 1 1 0 ∷ log_id_of 4 2 1 ∷ [])))
        ≡ Some (record { vote = vote_of 4 2 true; last = Some (log_id_of 4 2 1); base = UpTo (log_id_of 1 1 0) }) }
    ensures follows { leading_in (Up (node_two Follower None (log_id_of 4 2 0 ∷ []))) ≡ None }
    ensures down { leading_in (Down made) ≡ None }
{}

/// The reasons of a group's step are those of the node. A node that has stopped passes events over,
/// and nothing says a stream that says no frame.
pub fn refusals_of_nodes()
    ensures leader { outcome_of_refusal (refusal.NotLeader (Some 2)) ≡ Some (Refused (NotLeader (Some 2))) }
    ensures unknown { outcome_of_refusal refusal.UnknownGroup ≡ Some (Refused UnknownGroup) }
    ensures membership { outcome_of_refusal (refusal.Membership None) ≡ Some (Refused MembershipRefused) }
    ensures failed { outcome_of_refusal refusal.Failed ≡ Some PassedOver }
    ensures frame { outcome_of_refusal refusal.Frame ≡ None }
    ensures batch { outcome_of_refusal refusal.TooMuchForBatch ≡ None }
{}
