//! What a line of a script says.

use crate::id_list::IdList;
use raft_values::Bytes;

/// What of a stopped node's files stays of that which isn't synced (own).
#[derive(Clone, Copy, Debug, PartialEq, Eq)]
pub enum CrashChoice {
    /// Nothing.
    Least,
    /// All.
    Most,
}

/// An event of a cluster, as a line names it (own). Nodes, groups and peers are ids.
#[derive(Drop)]
pub enum ScriptEvent {
    /// `add N G`: the node gets the empty group.
    Add {
        node: u64,
        group: u64,
    },
    /// `init N G VOTERS.. [/ LEARNERS..]`: the group is set up. No learner: no `/`.
    Init {
        node: u64,
        group: u64,
        voters: IdList,
        learners: IdList,
    },
    /// `propose N G AMOUNT`: the command that adds the amount.
    Propose {
        node: u64,
        group: u64,
        amount: u64,
    },
    /// `put N G KEY VALUE`: the command that gives the key this value.
    Put {
        node: u64,
        group: u64,
        key: Bytes,
        value: Bytes,
    },
    /// `get N G KEY`: the command that asks for the key's value.
    Get {
        node: u64,
        group: u64,
        key: Bytes,
    },
    /// `drop N G KEY`: the command that takes the key out.
    Drop {
        node: u64,
        group: u64,
        key: Bytes,
    },
    /// `elect N G`: the node stands for election.
    Elect {
        node: u64,
        group: u64,
    },
    /// `heartbeat N G`
    Heartbeat {
        node: u64,
        group: u64,
    },
    /// `lost N G PEER`: what was asked of the peer counts as failed.
    Lost {
        node: u64,
        group: u64,
        peer: u64,
    },
    /// `snapshot N G`
    Snapshot {
        node: u64,
        group: u64,
    },
    /// `purge N G INDEX`: entries up to that place may go.
    Purge {
        node: u64,
        group: u64,
        index: u64,
    },
    /// `addr N G ID TEXT`: the address of that node is the text, one word.
    Addr {
        node: u64,
        group: u64,
        id: u64,
        address: Bytes,
    },
    /// `voters N G IDS..`: these are to be voters.
    Voters {
        node: u64,
        group: u64,
        ids: IdList,
    },
    /// `deliver G NUMBER [CUT]`: the group's frame of that number comes to its node, cut before
    /// this byte of it.
    Deliver {
        group: u64,
        number: u64,
        cut: Option<u64>,
    },
    /// `clean N`: files that are no longer needed go.
    Clean {
        node: u64,
    },
    /// `crash N least` or `crash N most`
    Crash {
        node: u64,
        choice: CrashChoice,
    },
    /// `reopen N WORKERS`
    Reopen {
        node: u64,
        workers: u64,
    },
}

/// What a line says (own).
#[derive(Drop)]
pub enum ScriptLine {
    /// An empty line, or a comment.
    Skipped,
    /// `nodes COUNT`: begins a cluster of the nodes from 1 to that number, which add up amounts.
    Nodes { count: u64 },
    /// `kv COUNT`: the same, of nodes that keep values by keys.
    Kv { count: u64 },
    /// `now T`: from here on it is that tick.
    Now { tick: u64 },
    /// `total N G`: asks for the total of the group at the node.
    Total { node: u64, group: u64 },
    /// An event.
    Happens(ScriptEvent),
    /// `fuse K EVENT`: an event, in which the K-th changing call of a file stops the machine.
    Fuse { calls: u64, event: ScriptEvent },
}
