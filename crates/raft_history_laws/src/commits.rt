//! A leader commits at once: laws of every history that replays, each a contract of a function
//! without a body, with worked rows of their words.

ghost use Rattle.std.specs.Prelude.{◌≡◌, true, false};
ghost use Rattle.raft_laws.specs.CrashRuns.{late_replies};
ghost use Rattle.raft_laws.specs.ThreeNodes.{until_accepted, until_told};
ghost use Rattle.raft_history_laws.specs.AnsweredCommits.{AnsweredAreCommitted};
ghost use Rattle.raft_history_laws.specs.AnsweredCommits.{LeadersCommitAtOnce};
ghost use Rattle.raft_history_laws.specs.AnsweredCommits.{WaitingLackAnswers, WaitingLackQuorums};
ghost use Rattle.raft_history_laws.specs.LeadsRun.{has_quorum_for};
ghost use Rattle.raft_history_laws.specs.LeadsRun.{until_both_accepted, until_learned};

/// At each node that is up and leads, each entry of its own is committed up to which the node
/// itself and the peers that have accepted so much are a quorum, and no token waits there: so a
/// token is told in the event that completes the quorum, unless that stops. What a peer has
/// accepted is what its replies in this lead say that answered an outstanding request.
pub fn leaders_commit_what_quorums_accept()
    ensures known { LeadersCommitAtOnce }
    ensures waiting { WaitingLackQuorums }
    ensures answered { AnsweredAreCommitted }
    ensures unanswered { WaitingLackAnswers }
{}

/// A leader of three has a quorum at a place as the first reply comes that reaches it; replies to
/// an earlier lead don't count, nor do a learner's.
pub fn quorums_that_answered()
    ensures on_its_way { has_quorum_for until_accepted 1 2 ≡ false }
    ensures came { has_quorum_for until_told 1 2 ≡ true }
    ensures below { has_quorum_for until_told 1 1 ≡ true }
    ensures above { has_quorum_for until_told 1 3 ≡ false }
    ensures earlier_lead { has_quorum_for late_replies 1 1 ≡ false }
    ensures learner { has_quorum_for until_learned 1 1 ≡ false }
    ensures voter { has_quorum_for until_both_accepted 1 1 ≡ true }
    ensures follower { has_quorum_for until_told 2 1 ≡ false }
{}
