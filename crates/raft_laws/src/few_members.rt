//! How many nodes a group has along its histories, as a contract of a function without a body.
//!
//! A history begins with nodes that know of no group. It has any number of events in any order, messages that come
//! late, again or never, crashes, restarts, and stops inside events after any number of storing commands.

ghost use Rattle.raft_laws.specs.FewMembers.{MembersAreFew};

/// The membership in force at a node, up or down, has at most 128 nodes, as many as one may have, since a set-up or a
/// change that makes more is refused.
pub fn members_of_runs_are_few()
    ensures { MembersAreFew }
{}
