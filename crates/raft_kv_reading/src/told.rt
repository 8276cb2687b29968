//! What is told of keys, over histories of a cluster: a contract of a function without a body.
ghost use Rattle.raft_kv_reading.specs.Told.{ToldAnswersTellValues, ToldCommandsStand};
ghost use Rattle.raft_kv_reading.specs.Told.{ToldGetsTellValues};

/// Wherever a cluster's history leads, machine stops among its events: a told get answers the value
/// that its key has in the puts and drops of the group's one list before the told place.
pub fn told_gets_tell_values()
    // Any told answer, by the command that stands at its place.
    ensures tell { ToldAnswersTellValues }
    // At the place of a token that was given to one command stands this command.
    ensures stand { ToldCommandsStand }
    ensures gets { ToldGetsTellValues }
{}
