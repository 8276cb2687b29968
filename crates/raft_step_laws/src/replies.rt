//! Requests are answered in their event, as a contract of a function without a body, with worked rows of its words.

ghost use Rattle.std.specs.Prelude.{◌≡◌, true, false, [], ◌∷◌, Some, None};
ghost use Rattle.raft_values.specs.LogId.{log_id_of};
ghost use Rattle.raft_values.specs.Vote.{vote_of};
ghost use Rattle.raft_group_step.specs.Message.{HeartBeat, Numbered};
ghost use Rattle.raft_group_step.specs.StepExample.{empty_group};
ghost use Rattle.raft_step_laws.specs.Replies.{IsAnswered, IsVotersReply, NamesRequest, RequestsAreAnswered};
ghost use Rattle.raft_step_laws.specs.ReplyRows.{asked_for_a_vote, asks, last_blank, message_to, refusal, reply_of, requests_among, sends, voter_has};

/// A request that isn't refused is answered in its event: by one reply, the first message, which goes to the sender and has
/// the request's vote, number, previous and last log id. The reply to a vote request has the vote that the node has then,
/// which is the one asked for where it is granted, and the node's last log id.
pub fn requests_are_answered()
    ensures { RequestsAreAnswered }
{}

/// A leader that is asked for its vote replies first, and then sends its own requests.
pub fn reply_of_a_leader()
    ensures { requests_among asked_for_a_vote.messages ≡ (3, false) ∷ (1, true) ∷ (3, true) ∷ [] }
{}

/// A reply names its request by four fields, and not by three of them.
pub fn replies_that_name_a_request()
    ensures all { NamesRequest (vote_of 2 2 true) (Numbered 4) None last_blank (reply_of (vote_of 2 2 true) (Numbered 4) None last_blank) }
    ensures vote { NamesRequest (vote_of 2 2 true) (Numbered 4) None last_blank (reply_of (vote_of 3 2 true) (Numbered 4) None last_blank) → ⊥ }
    ensures number { NamesRequest (vote_of 2 2 true) (Numbered 4) None last_blank (reply_of (vote_of 2 2 true) HeartBeat None last_blank) → ⊥ }
    ensures previous { NamesRequest (vote_of 2 2 true) (Numbered 4) None last_blank (reply_of (vote_of 2 2 true) (Numbered 4) last_blank last_blank) → ⊥ }
    ensures last { NamesRequest (vote_of 2 2 true) (Numbered 4) None last_blank (reply_of (vote_of 2 2 true) (Numbered 4) None None) → ⊥ }
{}

/// A voter replies with the vote that it has then, grants no other vote than that, and says its last log id.
pub fn replies_of_voters()
    ensures granted { IsVotersReply voter_has (vote_of 3 1 false) (vote_of 3 1 false) (vote_of 3 1 false) true last_blank }
    ensures refused { IsVotersReply voter_has (vote_of 4 3 true) (vote_of 3 1 false) (vote_of 4 3 true) false last_blank }
    ensures another_granted { IsVotersReply voter_has (vote_of 4 3 true) (vote_of 3 1 false) (vote_of 4 3 true) true last_blank → ⊥ }
    ensures not_its_vote { IsVotersReply voter_has (vote_of 4 3 true) (vote_of 3 1 false) (vote_of 3 1 false) false last_blank → ⊥ }
    ensures another_last { IsVotersReply voter_has (vote_of 4 3 true) (vote_of 3 1 false) (vote_of 4 3 true) false None → ⊥ }
{}

/// An answer is one reply, first, and to the sender.
pub fn answers()
    ensures one { IsAnswered 2 1 asks empty_group (sends empty_group (message_to 1 refusal ∷ message_to 3 asks ∷ [])) }
    ensures none { IsAnswered 2 1 asks empty_group (sends empty_group []) → ⊥ }
    ensures two { IsAnswered 2 1 asks empty_group (sends empty_group (message_to 1 refusal ∷ message_to 1 refusal ∷ [])) → ⊥ }
    ensures later { IsAnswered 2 1 asks empty_group (sends empty_group (message_to 3 asks ∷ message_to 1 refusal ∷ [])) → ⊥ }
    ensures to_another { IsAnswered 2 1 asks empty_group (sends empty_group (message_to 3 refusal ∷ [])) → ⊥ }
{}
