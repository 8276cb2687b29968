//! Commands on a whole group.

/// A command on a group's entries and keys (raft-engine's `Command`).
#[derive(Clone, Copy, Debug, PartialEq, Eq)]
pub enum Command {
    /// Removes the group, its entries and its keys.
    Clean,
    /// Removes the entries before this index.
    Compact { index: u64 },
}
