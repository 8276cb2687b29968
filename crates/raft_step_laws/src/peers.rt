//! What a leader knows of its peers and sends them: laws of single steps, each a contract of a function without a body, with
//! worked rows of their words.

ghost use Rattle.std.specs.Prelude.{◌≡◌, true, false, [], ◌∷◌, Some, None};
ghost use Rattle.raft_values.specs.LogId.{log_id_of};
ghost use Rattle.raft_values.specs.Vote.{vote_of};
ghost use Rattle.raft_group_step.specs.declared.group_call.GroupCall.TheVariants.{Elect, Heartbeat, Lost};
ghost use Rattle.raft_group_step.specs.GroupEvent.{Call, Open};
ghost use Rattle.raft_group_step.specs.GroupStep.{group_step};
ghost use Rattle.raft_group_step.specs.Message.{Conflict, HeartBeat, Numbered, Success};
ghost use Rattle.raft_group_step.specs.Peer.{new_peer};
ghost use Rattle.raft_group_step.specs.StepResult.{unchanged};
ghost use Rattle.raft_step_laws.specs.PeerStates.{LeadsBeginAnew, PeersReplay, keeps_its_lead, waits_for};
ghost use Rattle.raft_step_laws.specs.Serving.{IsSent, IsServed, PeersAreServed};
ghost use Rattle.raft_step_laws.specs.TokenRows.{hears_of, leader};
ghost use Rattle.raft_step_laws.specs.PeerRows.{accepted, asked, beat, before, comes, ended_request, fresh, known_after, last, replies, request, sent, small_snapshot, snapshot_request, to};

/// What a leader knows of a peer is what came from it and was sent to it in this lead: a reply counts where it answers the
/// request that is outstanding, a loss ends it, and a request with a number is waited for. A lead begins with nothing known
/// of any peer, at each opening too.
pub fn peers_replay()
    ensures lead { PeersReplay }
    ensures begins { LeadsBeginAnew }
{}

/// After an event that isn't refused, each other node of the membership in force that lacks entries has a request with a
/// number outstanding, and where it had none as the event began, it was sent in this event.
pub fn peers_are_served()
    ensures { PeersAreServed }
{}

/// A reply counts where its sender, vote, number, previous and last log id are those of the outstanding request.
pub fn replies_that_count()
    ensures success { comes (replies 1 (vote_of 2 2 true) (Numbered 1) before last Success) ≡ accepted }
    ensures conflict { comes (replies 1 (vote_of 2 2 true) (Numbered 1) before last Conflict) ≡ record ended_request { search = 1 } }
    ensures anothers { comes (replies 3 (vote_of 2 2 true) (Numbered 1) before last Success) ≡ asked }
    ensures earlier_vote { comes (replies 1 (vote_of 1 2 true) (Numbered 1) before last Success) ≡ asked }
    ensures later_number { comes (replies 1 (vote_of 2 2 true) (Numbered 2) before last Success) ≡ asked }
    ensures notice { comes (replies 1 (vote_of 2 2 true) HeartBeat before last Success) ≡ asked }
    ensures other_previous { comes (replies 1 (vote_of 2 2 true) (Numbered 1) None last Success) ≡ asked }
    ensures other_last { comes (replies 1 (vote_of 2 2 true) (Numbered 1) before before Success) ≡ asked }
    ensures lost { comes (Call (Lost 1) 0) ≡ ended_request }
    ensures lost_by_another { comes (Call (Lost 3) 0) ≡ asked }
{}

/// A request with a number is waited for, and the next one has the number after it; a notice, and what goes to another node,
/// changes nothing.
pub fn requests_that_are_waited_for()
    ensures numbered { sent (to 1 (request (Numbered 1)) ∷ []) ≡ asked }
    ensures notice { sent (to 1 (request HeartBeat) ∷ []) ≡ fresh }
    ensures to_another { sent (to 3 (request (Numbered 1)) ∷ []) ≡ fresh }
    ensures snapshot { sent (to 1 (snapshot_request 5) ∷ []) ≡ waits_for 5 None (Some (log_id_of 1 1 1)) true fresh }
    ensures in_order { sent (to 1 (snapshot_request 5) ∷ to 3 (request (Numbered 1)) ∷ to 1 (request (Numbered 1)) ∷ []) ≡ asked }
{}

/// A leader leads on in its lead, but for an opening; an election begins another.
pub fn leads_that_go_on()
    ensures beats { keeps_its_lead leader (Call Heartbeat 0) beat.state ≡ true }
    ensures gives_way { keeps_its_lead leader (hears_of (vote_of 3 3 true)) (group_step 2 leader (hears_of (vote_of 3 3 true))).state ≡ false }
    ensures opens { keeps_its_lead leader Open (group_step 2 leader Open).state ≡ false }
{}

/// What a leader knows of its peers after whole steps: node 3 is asked at the first event, and at an opening all are asked
/// anew, whatever they had accepted.
pub fn peers_after_steps()
    ensures accepted { known_after leader (replies 1 (vote_of 2 2 true) (Numbered 1) before last Success) 1 ≡ Some accepted }
    ensures served { known_after leader (Call Heartbeat 0) 3 ≡ Some (waits_for 1 None last false (new_peer 2 3)) }
    ensures opened { known_after leader Open 1 ≡ Some (waits_for 1 None last false (new_peer 4 1)) }
    ensures stands { known_after leader (Call Elect 0) 1 ≡ None }
{}

/// A peer is served that was asked before or is asked in this step: by a request to it, of that number. Behind the step that
/// is to be outstanding: none is where the leader gives way.
pub fn peers_that_are_served()
    ensures asked_before { IsServed leader beat 1 }
    ensures asked_now { IsServed leader beat 3 }
    ensures not_asked { IsServed leader (unchanged leader) 3 → ⊥ }
    ensures not_known { IsServed leader (unchanged beat.state) 3 → ⊥ }
    ensures gives_way { IsServed leader (group_step 2 leader (hears_of (vote_of 3 3 true))) 1 → ⊥ }
    ensures sent { IsSent (to 1 (request (Numbered 1)) ∷ []) 1 1 }
    ensures snapshot { IsSent (to 1 (snapshot_request 5) ∷ []) 1 5 }
    ensures notice { IsSent (to 1 (request HeartBeat) ∷ []) 1 1 → ⊥ }
    ensures to_another { IsSent (to 3 (request (Numbered 1)) ∷ []) 1 1 → ⊥ }
    ensures other_number { IsSent (to 1 (request (Numbered 2)) ∷ []) 1 1 → ⊥ }
{}
