//! Why a call is refused.

use thiserror::Error;

/// Why a call of an engine is refused (own): the engine stays as it was, or none is made. Who asks a
/// node that doesn't lead gets openraft's `ForwardToLeader` in its place.
#[derive(Clone, Copy, Debug, PartialEq, Eq, Error)]
pub enum CallError {
    /// The entries don't follow one another, or what stands before them.
    #[error("the entries have a gap")]
    GapInEntries,
    /// The log has no entry at the place that is to be committed.
    #[error("the log has no entry at the place")]
    LacksEntry,
    /// What is committed isn't cut away.
    #[error("what is committed isn't cut away")]
    CutsCommitted,
    /// The node doesn't stand for election.
    #[error("the node doesn't stand for election")]
    NotStanding,
    /// No snapshot is being built: none was asked for in this event.
    #[error("no snapshot is being built")]
    NotBuilding,
    /// The config asks for another number than the rules of a group have.
    #[error("the config asks for another number than the rules have")]
    OtherConfig,
}
