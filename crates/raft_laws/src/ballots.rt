//! Votes as numbers: the safety of a replicated log, as a law over every schedule of ballots.

ghost use Rattle.std.specs.Prelude.{◌≡◌, ℕ, [], true, suc, ◌<◌, ◌≤◌, ◌++◌, IsTrue, List, length, slice_get};
ghost use Rattle.raft_laws.specs.BallotLists.{AgreeBelow};
ghost use Rattle.raft_laws.specs.BallotLogs.{BallotEntry};
ghost use Rattle.raft_laws.specs.BallotWorld.{BallotGroup, BallotEvent, ballot_start, ballot_run, ballot_accepted, is_ballot_leader, is_ballot_settled};
ghost use Rattle.raft_laws.specs.BallotOrigin.{IsBallotWritten};
ghost use Rattle.raft_laws.specs.BallotSettled.{ballot_list};
ghost use Rattle.raft_laws.specs.BallotExample.{three_ballot_nodes, one_round, one_drop, both_entries};

/// After every schedule the settled entries lie on one list, each at its place with all that its leader had before it.
/// The list only grows; a leader whose ballot isn't below that of a settled entry holds the list up to there; and what
/// a node knows to be committed is the front of the list.
pub fn one_ballot_list()
    ensures settled { (g : BallotGroup) (events : List BallotEvent) (ballot place : ℕ) → 0 < length g.voters →
        IsTrue (is_ballot_settled g (ballot_run g events (ballot_start g)) ballot place) →
        AgreeBelow (suc place) (ballot_list g (ballot_run g events (ballot_start g)))
        ((ballot_run g events (ballot_start g)).lead ballot) }
    ensures only_settled { (g : BallotGroup) (events : List BallotEvent) (place : ℕ) → 0 < length g.voters →
        place < length (ballot_list g (ballot_run g events (ballot_start g))) →
        (ballot : ℕ) × (later : ℕ) × (place ≤ later)
        × IsTrue (is_ballot_settled g (ballot_run g events (ballot_start g)) ballot later) }
    ensures grows { (g : BallotGroup) (early late : List BallotEvent) → 0 < length g.voters →
        AgreeBelow (length (ballot_list g (ballot_run g early (ballot_start g))))
        (ballot_list g (ballot_run g early (ballot_start g)))
        (ballot_list g (ballot_run g (early ++ late) (ballot_start g))) }
    ensures leaders_hold { (g : BallotGroup) (early late : List BallotEvent) (ballot place node : ℕ) → 0 < length g.voters →
        IsTrue (is_ballot_settled g (ballot_run g early (ballot_start g)) ballot place) →
        IsTrue (is_ballot_leader g node ((ballot_run g (early ++ late) (ballot_start g)).node node)) →
        ballot ≤ ((ballot_run g (early ++ late) (ballot_start g)).node node).ballot →
        AgreeBelow (suc place) ((ballot_run g (early ++ late) (ballot_start g)).node node).log
        (ballot_list g (ballot_run g early (ballot_start g))) }
    ensures commits { (g : BallotGroup) (events : List BallotEvent) (node : ℕ) → 0 < length g.voters →
        AgreeBelow ((ballot_run g events (ballot_start g)).node node).commit ((ballot_run g events (ballot_start g)).node node).log
        (ballot_list g (ballot_run g events (ballot_start g))) }
    ensures one_entry { (g : BallotGroup) (events : List BallotEvent) (one other place : ℕ) (x y : BallotEntry) → 0 < length g.voters →
        slice_get ((ballot_run g events (ballot_start g)).node one).log place ≡ Some x →
        slice_get ((ballot_run g events (ballot_start g)).node other).log place ≡ Some y →
        x.ballot ≡ y.ballot →
        AgreeBelow (suc place) ((ballot_run g events (ballot_start g)).node one).log
        ((ballot_run g events (ballot_start g)).node other).log }
    ensures origins { (g : BallotGroup) (events : List BallotEvent) (place : ℕ) (x : BallotEntry) → 0 < length g.voters →
        0 < x.ballot → slice_get (ballot_list g (ballot_run g events (ballot_start g))) place ≡ Some x →
        IsBallotWritten g events (ballot_start g) place x }
    ensures votes_rise { (g : BallotGroup) (early late : List BallotEvent) (node : ℕ) → 0 < length g.voters →
        ((ballot_run g early (ballot_start g)).node node).ballot
        ≤ ((ballot_run g (early ++ late) (ballot_start g)).node node).ballot }
{}

/// In one round of three nodes both entries are settled, and the leader knows it.
pub fn one_round_settles()
    ensures list { ballot_list three_ballot_nodes (ballot_run three_ballot_nodes one_round (ballot_start three_ballot_nodes)) ≡ both_entries }
    ensures commit { ((ballot_run three_ballot_nodes one_round (ballot_start three_ballot_nodes)).node 1).commit ≡ 2 }
{}

/// A node may lose what it accepted and what is settled, where a snapshot cuts its log and it stops before it has the snapshot.
pub fn drop_loses()
    ensures settled { is_ballot_settled three_ballot_nodes (ballot_run three_ballot_nodes one_drop (ballot_start three_ballot_nodes)) 1 1 ≡ true }
    ensures accepted { ballot_accepted (ballot_run three_ballot_nodes one_drop (ballot_start three_ballot_nodes)).replies 1 1 2 ≡ true }
    ensures lost { ((ballot_run three_ballot_nodes one_drop (ballot_start three_ballot_nodes)).node 2).log ≡ [] }
{}
