//! The moments that a group is handed, as a contract of a function without a body.

ghost use Rattle.raft_laws.specs.Moments.{MomentsOfCalls, MomentsOfMessages, MomentsOfOpenings};

/// A call or a message that isn't refused leaves its moment as the last one, or the one before where that is later. An opening
/// begins anew, at 0.
pub fn moments_of_steps()
    ensures calls { MomentsOfCalls }
    ensures messages { MomentsOfMessages }
    ensures openings { MomentsOfOpenings }
{}
