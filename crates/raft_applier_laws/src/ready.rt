//! Wherever a history leads, a node's members and appliers can go on.
ghost use Rattle.raft_applier_laws.specs.Ready.{DownCandidatesAreReady, DownNodesAreReady, UpCandidatesAreReady, UpNodesAreReady};

/// Each state that a history of a group leads to has what a member and an applier ask of it: a node
/// that is up can take each event that may come to it, and its machine can follow each that isn't
/// refused; a node that is down can be opened.
pub fn histories_lead_to_ready_states()
    ensures up { UpNodesAreReady }
    ensures down { DownNodesAreReady }
{}

/// So has each state that a node of a cluster may be in, as the cluster's type keeps it.
pub fn candidates_are_ready()
    ensures up { UpCandidatesAreReady }
    ensures down { DownCandidatesAreReady }
{}
