//! Machines beside a group, as a contract of a function without a body.
ghost use Rattle.raft_headline.specs.Folds.{AnswersAreFolds, MachinesAreFolds, SnapshotsAreFolds};

/// Whatever its machine is, each node that is up has it in the state of the fold of the group's list up to what it applied, by
/// entries or by snapshots. A snapshot's bytes stand for the fold too, and what was told is the fold's answer.
pub fn machines_are_folds()
    ensures machines { MachinesAreFolds }
    ensures snapshots { SnapshotsAreFolds }
    ensures answers { AnswersAreFolds }
{}
