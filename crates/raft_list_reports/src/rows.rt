//! Rows that pin the words of reports: each a contract of a function without a body.
ghost use Rattle.std.specs.Prelude.{◌≡◌, ◌∷◌, [], None, Some};
ghost use Rattle.raft_values.specs.LogId.{log_id_of};
ghost use Rattle.raft_membership.specs.declared.change_members.ChangeMembers.TheVariants.{SetNodes};
ghost use Rattle.raft_state.specs.declared.entry.EntryPayload.TheVariants.{Membership, Normal};
ghost use Rattle.raft_group_step.specs.declared.group_call.GroupCall.TheVariants.{ChangeMembership, Elect, Initialize, Propose};
ghost use Rattle.raft_laws.specs.Example.{add, membership_of};
ghost use Rattle.raft_laws.specs.OneVoter.{one};
ghost use Rattle.raft_list_reports.specs.Calls.{payload_of};
ghost use Rattle.raft_list_reports.specs.ReportsRun.{held_behind, leads_to, opened, set_up, told_behind, until_stopped};

/// A leader tells what it took over, also where it stopped before it wrote its blank entry: then that is all that it has. A node that
/// is down tells nothing.
pub fn what_a_leader_tells()
    ensures elected { told_behind (set_up None) ≡ leads_to (log_id_of 1 1 1) }
    ensures down { told_behind (set_up (Some 3)) ≡ None }
    ensures no_own_entry { told_behind (opened (set_up (Some 3))) ≡ leads_to (log_id_of 0 0 0) }
    ensures with_its_blank { told_behind (opened (set_up (Some 4))) ≡ leads_to (log_id_of 1 1 1) }
    ensures behind_a_stop { told_behind (opened (until_stopped 1)) ≡ leads_to (log_id_of 1 1 2) }
    ensures nothing_stored { told_behind (opened (until_stopped 0)) ≡ leads_to (log_id_of 1 1 1) }
{}

/// A node that a call stopped has what it was noted with last, or that and the entry that the call writes.
pub fn what_a_stop_leaves()
    ensures same { held_behind (until_stopped 0) ≡ held_behind (set_up None) }
    ensures one_more { held_behind (until_stopped 1) ≡ Some (log_id_of 0 0 0 ∷ log_id_of 1 1 1 ∷ log_id_of 1 1 2 ∷ []) }
{}

/// A proposal writes its command, a change the membership behind it, and no other call writes what isn't blank or a set-up's.
pub fn what_calls_write()
    ensures command { payload_of None (Propose (add 5) 1) ≡ Some (Normal (add 5)) }
    ensures change { payload_of (Some (membership_of one (2 ∷ []))) (ChangeMembership (SetNodes ((2, 110 ∷ []) ∷ [])) 1)
        ≡ Some (Membership (record { configs = one ∷ []; nodes = (1, 110 ∷ 1 ∷ []) ∷ (2, 110 ∷ []) ∷ [] })) }
    ensures unknown { payload_of None (ChangeMembership (SetNodes ((2, 110 ∷ []) ∷ [])) 1) ≡ None }
    ensures election { payload_of None Elect ≡ None }
    ensures first { payload_of None (Initialize (membership_of one [])) ≡ None }
{}
