//! A leader serves its peers: laws of every history that replays, each a contract of a function
//! without a body, with worked rows of their words.

ghost use Rattle.std.specs.Prelude.{◌≡◌, Some, None};
ghost use Rattle.raft_group_step.specs.GroupState.{Follower};
ghost use Rattle.raft_group_step.specs.StepExample.{leads_three};
ghost use Rattle.raft_laws.specs.CrashRuns.{leader_restarts};
ghost use Rattle.raft_laws.specs.Example.{to_their_end};
ghost use Rattle.raft_laws.specs.HaltRuns.{until_halted};
ghost use Rattle.raft_laws.specs.ThreeNodes.{until_told};
ghost use Rattle.raft_step_laws.specs.PeerRows.{before, last};
ghost use Rattle.raft_history_laws.specs.ServedPeers.{LackingAreSent, LeadersServe};
ghost use Rattle.raft_history_laws.specs.ServedPeers.{LacksEntries, ServesPeers};
ghost use Rattle.raft_history_laws.specs.ServedPeersRun.{leads_a_learner, waited_after};
ghost use Rattle.raft_history_laws.specs.WaitingTokensRun.{with_role};

/// At each node that is up and leads, each other node of the membership in force that lacks entries
/// has a request outstanding. Where it had none as an event at this node began, it was sent one in
/// that event, unless that stopped.
pub fn leaders_serve_their_peers()
    ensures serve { LeadersServe }
    ensures sent { LackingAreSent }
{}

/// A leader waits for the request that a peer hasn't answered yet. Nothing is waited for by a node
/// that follows, is down, or isn't there; one that leads on behind an opening asks anew.
pub fn requests_that_leaders_wait_for()
    ensures waits { waited_after (to_their_end until_told) 1 3 ≡ Some 1 }
    ensures answered { waited_after (to_their_end until_told) 1 2 ≡ None }
    ensures follows { waited_after (to_their_end until_told) 2 3 ≡ None }
    ensures down { waited_after (to_their_end until_halted) 1 3 ≡ None }
    ensures reopened { waited_after (to_their_end leader_restarts) 1 2 ≡ Some 1 }
    ensures absent { waited_after (to_their_end until_told) 4 1 ≡ None }
{}

/// The leader's peers are the other nodes of its membership, learners too. One lacks entries that
/// hasn't accepted all of them, also one of which nothing is known; and it isn't served where
/// nothing was sent.
pub fn peers_that_lack_entries()
    ensures lags { LacksEntries 2 (leads_three before) 1 }
    ensures not_known { LacksEntries 2 (leads_three before) 3 }
    ensures has_all { LacksEntries 2 (leads_three last) 1 → ⊥ }
    ensures itself { LacksEntries 2 (leads_three before) 2 → ⊥ }
    ensures stranger { LacksEntries 2 (leads_three before) 4 → ⊥ }
    ensures follower { LacksEntries 2 (with_role Follower (leads_three before)) 1 → ⊥ }
    ensures learner { LacksEntries 2 leads_a_learner 1 }
    ensures silent { ServesPeers 2 (leads_three before) → ⊥ }
{}
