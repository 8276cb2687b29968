//! A leader takes each command within the limits: laws of single steps, each a contract of a function without a body, with
//! worked rows of their words.

ghost use Rattle.std.specs.Prelude.{◌≡◌, ◌^◌, ◌-◌, [], ◌∷◌, Some, None};
ghost use Rattle.raft_values.specs.LogId.{log_id_of};
ghost use Rattle.raft_group_step.specs.StoredGroup.{CutFrom, PutEntries, RemoveUpTo};
ghost use Rattle.raft_group_step.specs.GroupState.{state_of};
ghost use Rattle.raft_group_step.specs.StepExample.{empty_group};
ghost use Rattle.raft_group_step.specs.StepResult.{NotLeader, NumberAtEnd};
ghost use Rattle.raft_step_laws.specs.Taking.{HasRoom, LeadersTake, ProposalsAreStored, StoresNext};
ghost use Rattle.raft_step_laws.specs.TakingRows.{answer_of, lead_with, leader, leader_at_the_end, next_command, stored_at_proposal, storing};

/// A leader refuses no command within the limits: at most 65,536 bytes, and the moment, the next place and the number of the
/// next request to each peer below 2^62. A command that isn't refused is stored first of all, at the next place, under the
/// leader's vote; then the step removes at most the log's front.
pub fn leaders_take_commands()
    ensures taken { LeadersTake }
    ensures stored { ProposalsAreStored }
{}

/// A leader takes a command as long as no number is at its end; a node that doesn't lead takes none.
pub fn commands_that_are_taken()
    ensures taken { answer_of (leader 1) (2 ^ 62 - 1) ≡ None }
    ensures moment { answer_of (leader 1) (2 ^ 62) ≡ Some NumberAtEnd }
    ensures place { answer_of leader_at_the_end 0 ≡ Some NumberAtEnd }
    ensures number { answer_of (leader (2 ^ 62)) 0 ≡ Some NumberAtEnd }
    ensures no_leader { answer_of empty_group 0 ≡ Some (NotLeader None) }
{}

/// Each of the three numbers has room below 2^62.
pub fn room_to_take()
    ensures room { HasRoom (leader 1) (lead_with (2 ^ 62 - 1)) (2 ^ 62 - 1) }
    ensures moment { HasRoom (leader 1) (lead_with 1) (2 ^ 62) → ⊥ }
    ensures place { HasRoom leader_at_the_end (lead_with 1) 0 → ⊥ }
    ensures number { HasRoom (leader 1) (lead_with (2 ^ 62)) 0 → ⊥ }
{}

/// The command's entry is stored first, at the next place, and nothing but the log's front goes then.
pub fn commands_that_are_stored()
    ensures steps { stored_at_proposal ≡ PutEntries 4 (next_command ∷ []) ∷ [] }
    ensures alone { StoresNext (leader 1).stored next_command (storing (PutEntries 4 (next_command ∷ []) ∷ [])) }
    ensures purged { StoresNext (leader 1).stored next_command (storing (PutEntries 4 (next_command ∷ []) ∷ RemoveUpTo (log_id_of 0 0 0) ∷ [])) }
    ensures cut { StoresNext (leader 1).stored next_command (storing (PutEntries 4 (next_command ∷ []) ∷ CutFrom 4 ∷ [])) → ⊥ }
    ensures later { StoresNext (leader 1).stored next_command (storing (RemoveUpTo (log_id_of 0 0 0) ∷ PutEntries 4 (next_command ∷ []) ∷ [])) → ⊥ }
    ensures another_place { StoresNext (leader 1).stored next_command (storing (PutEntries 3 (next_command ∷ []) ∷ [])) → ⊥ }
    ensures nothing { StoresNext (leader 1).stored next_command (storing []) → ⊥ }
{}
