//! What the words take in and what they leave out, on small histories and nodes: each a contract of
//! a function without a body.
ghost use Rattle.std.specs.Prelude.{◌≡◌, [], ◌∷◌, Some, None};
ghost use Rattle.raft_group_step.specs.GroupState.{no_group, state_of};
ghost use Rattle.raft_group_step.specs.StepResult.{NotVoter};
ghost use Rattle.raft_laws.specs.BallotLists.{with_value};
ghost use Rattle.raft_laws.specs.GroupRun.{At, Nowhere};
ghost use Rattle.raft_laws.specs.GroupWorld.{Down, Up};
ghost use Rattle.raft_laws.specs.declared.world_event.WorldEvent.TheVariants as event;
ghost use Rattle.raft_machines.specs.Adding.{adding};
ghost use Rattle.raft_headline.specs.ClusterEvent.{AddGroup, Crash, Done, Fused, Opened};
ghost use Rattle.raft_headline.specs.ClusterEvent.{PassedOver, Refused, Reopen, Stopped, silent};
ghost use Rattle.raft_headline.specs.Rows.{at_one, unknown_of};
ghost use Rattle.raft_cluster_laws.specs.Acts.{EventLeads};
ghost use Rattle.raft_cluster_laws.specs.Along.{scene_behind, sent_by, setup_by};
ghost use Rattle.raft_cluster_laws.specs.Kept.{IsKeptFor, new_candidates};
ghost use Rattle.raft_cluster_laws.specs.Rows.{IsAdded, IsCrashed, IsHalted, a_message, asked_behind};
ghost use Rattle.raft_cluster_laws.specs.Rows.{asks, made, nothing, of_one, of_two, sends, set_up};
ghost use Rattle.raft_cluster_laws.specs.Rows.{stopped_in_nine, waiting};

/// The first set-up that was neither refused nor passed over counts, also one that stopped, and
/// none of another group. Another one happens nowhere then.
pub fn set_ups_of_histories()
    ensures none { setup_by 7 [] ≡ None }
    ensures taken { setup_by 7 (set_up 7 of_one (Done silent) ∷ []) ≡ Some of_one }
    ensures stopped { setup_by 7 (set_up 7 of_one (Stopped []) ∷ []) ≡ Some of_one }
    ensures refused { setup_by 7 (set_up 7 of_one (Refused NotVoter) ∷ []) ≡ None }
    ensures another_group { setup_by 7 (set_up 9 of_one (Done silent) ∷ []) ≡ None }
    ensures first { setup_by 7 (set_up 7 of_two Fused ∷ set_up 7 of_one (Done silent) ∷ []) ≡ Some of_two }
    ensures again { asked_behind 7 of_one ≡ At 2 (asks of_one) }
    ensures nowhere { asked_behind 7 of_two ≡ Nowhere }
    ensures anywhere { asked_behind 9 of_two ≡ At 2 (asks of_two) }
{}

/// A group's messages are those of its own events and of its part of an opening, by number.
pub fn messages_of_histories()
    ensures own { sent_by 7 (set_up 7 of_one (Done sends) ∷ []) ≡ a_message ∷ [] }
    ensures another_group { sent_by 7 (set_up 9 of_one (Done sends) ∷ []) ≡ [] }
    ensures opened { sent_by 7 (at_one (Reopen 1) (Opened ((9, silent) ∷ (7, sends) ∷ [])) ∷ []) ≡ a_message ∷ [] }
    ensures other_part { sent_by 7 (at_one (Reopen 1) (Opened ((9, sends) ∷ [])) ∷ []) ≡ [] }
    ensures unsent { scene_behind 7 (set_up 9 of_one (Done sends) ∷ []) (event.Deliver 0 5) ≡ Nowhere }
{}

/// A node that another group's event stops is down with what it has stored, and its tokens of the
/// group are named, unless the machine stopped.
pub fn nodes_that_halt()
    ensures named { IsHalted (stopped_in_nine (unknown_of 9 8 ∷ unknown_of 7 3 ∷ [])) (Up waiting) (Down no_group) }
    ensures fused { IsHalted (at_one (AddGroup 1 9) Fused) (Up waiting) (Down no_group) }
    ensures unnamed { IsHalted (stopped_in_nine []) (Up waiting) (Down no_group) → ⊥ }
    ensures another_groups { IsHalted (stopped_in_nine (unknown_of 9 3 ∷ [])) (Up waiting) (Down no_group) → ⊥ }
    ensures goes_on { IsHalted (at_one (AddGroup 1 9) (Done silent)) (Up waiting) (Down no_group) → ⊥ }
    ensures stays_up { IsHalted (at_one (AddGroup 1 9) Fused) (Up waiting) (Up waiting) → ⊥ }
    ensures stores { IsHalted (at_one (AddGroup 1 9) Fused) (Up waiting) (Down made) → ⊥ }
{}

/// A crash leaves what is stored, and says nothing; a node that is down stays down.
pub fn crashes_of_nodes()
    ensures silent_one { IsCrashed (Done silent) (Up waiting) (Down no_group) }
    ensures down { IsCrashed PassedOver (Down made) (Down made) }
    ensures telling { IsCrashed (Done sends) (Up waiting) (Down no_group) → ⊥ }
    ensures naming { IsCrashed (Stopped []) (Up waiting) (Down no_group) → ⊥ }
    ensures stays_up { IsCrashed (Done silent) (Up waiting) (Up waiting) → ⊥ }
    ensures loses { IsCrashed (Done silent) (Up (state_of made)) (Down no_group) → ⊥ }
{}

/// An event of the group leaves what its step leaves, and its outcome says so. One that stopped may
/// have stored each front of its commands, and nothing else.
pub fn events_of_nodes()
    ensures done { IsAdded (Done silent) nothing (Up (state_of made)) }
    ensures before { IsAdded (Stopped []) nothing (Down no_group) }
    ensures behind { IsAdded (Stopped []) nothing (Down made) }
    ensures not_made { IsAdded (Done silent) nothing nothing → ⊥ }
    ensures stays_up { IsAdded (Stopped []) nothing (Up (state_of made)) → ⊥ }
    ensures sending { IsAdded (Done sends) nothing (Up (state_of made)) → ⊥ }
    ensures passed { IsAdded PassedOver nothing (Up (state_of made)) → ⊥ }
    ensures silent_stop { IsAdded (Stopped (unknown_of 7 3 ∷ [])) nothing (Down made) → ⊥ }
{}

/// A node is in one state at least, before an event and behind it. A new cluster's history leads
/// nowhere else than to its beginning.
pub fn candidates_of_nodes()
    ensures some { IsKeptFor adding (1 ∷ []) 7 (λ n. []) [] → ⊥ }
    ensures behind { EventLeads adding 7 1 (at_one (Crash 1) (Done silent)) [] (Up waiting ∷ []) [] → ⊥ }
    ensures new { IsKeptFor adding (1 ∷ []) 7 (new_candidates (1 ∷ [])) [] }
    ensures begins { IsKeptFor adding (1 ∷ []) 7 (with_value (new_candidates (1 ∷ [])) 1 (Up waiting ∷ [])) [] → ⊥ }
    ensures from_nothing { EventLeads adding 7 1 (at_one (AddGroup 1 9) (Done silent)) [] (nothing ∷ []) (Up waiting ∷ []) → ⊥ }
{}
