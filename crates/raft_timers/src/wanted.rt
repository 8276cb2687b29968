//! What a clock asks for.

/// What the node is to be asked now, in this order (own).
#[derive(Debug, Drop)]
pub struct Wanted {
    /// `elect`.
    pub elect: bool,
    /// `heartbeat`.
    pub heartbeat: bool,
    /// `lost`, of each of these peers.
    pub lost: Vec<u64>,
    /// `trigger_snapshot`.
    pub snapshot: bool,
    /// `trigger_purge_log`, up to this place.
    pub purge: Option<u64>,
    /// Nothing of the node: its program is to take no proposals while this is so.
    pub no_quorum: bool,
}
