//! The numbers that nodes have stored and that were sent are below the limit: laws of every history
//! that replays, as contracts of a function without a body, with worked rows of their words.

ghost use Rattle.std.specs.Prelude.{◌≡◌, [], ◌∷◌};
ghost use Rattle.raft_laws.specs.Example.{run_of, three, to_their_end};
ghost use Rattle.raft_laws.specs.ThreeNodes.{until_told};
ghost use Rattle.raft_history_laws.specs.NumbersRun.{logged_after, next_after, numbers_in};
ghost use Rattle.raft_history_laws.specs.Numbers.{NextNumbersAreLow, SentNumbersAreInRange, SentNumbersAreLow, StoredNumbersAreLow};

/// Whatever happens, each term, place and request number of a message that was sent is below 2^62,
/// and so are the log ids of a sent snapshot's list. So no node refuses what another one sent for
/// the numbers that the message has. What each node has stored is as low, whether it is up or down.
/// The number of a leader's next request comes to 2^62 only while one to that peer is outstanding.
pub fn numbers_of_histories_are_low()
    ensures sent { SentNumbersAreLow }
    ensures in_range { SentNumbersAreInRange }
    ensures stored { StoredNumbersAreLow }
    ensures next { NextNumbersAreLow }
{}

/// The numbers of a run's messages: the vote's term, a request's own number, and the terms and
/// places of the log ids.
pub fn numbers_of_messages()
    ensures numbers { numbers_in (run_of three until_told)
        ≡ (1 ∷ 0 ∷ 0 ∷ []) ∷ (1 ∷ 0 ∷ 0 ∷ []) ∷ (1 ∷ [])
        ∷ (1 ∷ 1 ∷ 0 ∷ 0 ∷ 1 ∷ 1 ∷ []) ∷ (1 ∷ 1 ∷ 0 ∷ 0 ∷ 1 ∷ 1 ∷ []) ∷ (1 ∷ 1 ∷ 1 ∷ 1 ∷ [])
        ∷ (1 ∷ 1 ∷ 1 ∷ 1 ∷ 1 ∷ []) ∷ (1 ∷ 1 ∷ 1 ∷ [])
        ∷ (1 ∷ 2 ∷ 1 ∷ 1 ∷ 1 ∷ 1 ∷ 1 ∷ 2 ∷ []) ∷ (1 ∷ 2 ∷ 1 ∷ 1 ∷ 1 ∷ 2 ∷ [])
        ∷ (1 ∷ 1 ∷ 2 ∷ 1 ∷ 2 ∷ []) ∷ (1 ∷ 1 ∷ 2 ∷ []) ∷ [] }
{}

/// The term of a node's vote, and the terms and places of its log. The leader has sent two requests
/// to node 2 and one to node 3, which has taken none.
pub fn numbers_of_nodes()
    ensures leader { logged_after (to_their_end until_told) 1 ≡ (1, 0 ∷ 0 ∷ 1 ∷ 1 ∷ 1 ∷ 2 ∷ []) }
    ensures next { next_after (to_their_end until_told) 1 ≡ 3 ∷ 2 ∷ [] }
    ensures follower { logged_after (to_their_end until_told) 2 ≡ (1, 0 ∷ 0 ∷ 1 ∷ 1 ∷ 1 ∷ 2 ∷ []) }
    ensures no_leader { next_after (to_their_end until_told) 2 ≡ [] }
    ensures empty { logged_after (to_their_end until_told) 3 ≡ (0, []) }
{}
