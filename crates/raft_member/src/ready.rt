//! Ready states lead to ready ones: a law of single steps, the contract of a function without a
//! body.
ghost use Rattle.raft_member.specs.Ready.{ReadyStatesStayReady};

/// Each event, refused or not, leads from a ready state in order to a ready one, whoever brings it
/// (own). An engine's clauses ask for ready states; that its state is in order, each of them says
/// (`IsStateOf`). So who knows that a member's state is ready once knows it from then on.
pub fn ready_states_stay_ready()
    ensures { ReadyStatesStayReady }
{}
