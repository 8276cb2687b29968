//! What was heard of a group's other members.
ghost use Rattle.std.specs.Prelude.{◌≡◌, IfOk};
ghost use Rattle.raft_node_clock.specs.Heard.{all_noted, has_moved, heard_at, heard_of, kept_heard, new_heard, noted};

use raft_state::LogId;
use std::alloc::{AllocError, Global};

/// What was heard of a peer (own).
#[derive(Clone, Copy, Debug, PartialEq, Eq)]
pub struct Heard {
    /// The peer.
    pub peer: u64,
    /// The moment at which a frame of it was taken last, in ticks, if one was.
    pub at: Option<u64>,
    /// The last log id that it was known to have then.
    pub matched: Option<LogId<u64>>,
}

impl Heard {
    /// Nothing was heard yet.
    pub fn new(peer: u64) -> Heard
        ensures { result ≡ new_heard peer }
    {
        Heard {
            peer,
            at: None,
            matched: None,
        }
    }

    // A frame was taken, of this peer or another one.
    fn note(&mut self, peer: u64, matched: Option<LogId<u64>>, now: u64)
        ensures { self.new ≡ noted peer matched now self.old }
    {
        if self.peer == peer {
            *self = Heard {
                peer,
                at: Some(now),
                matched,
            };
        }
    }
}

/// A frame of the peer was taken, and the peer is known to have this.
pub(crate) fn note_frame(heards: &mut [Heard], peer: u64, matched: Option<LogId<u64>>, now: u64)
    ensures { heards.new ≡ all_noted peer matched now heards.old }
{
    for heard in heards.iter_mut() {
        heard.note(peer, matched, now);
    }
}

/// Whether the peer is among these, and is known to have another log id than was noted.
pub(crate) fn has_moved(heards: &[Heard], peer: u64, matched: Option<LogId<u64>>) -> bool
    ensures { result ≡ has_moved peer matched heards.now }
{
    heards
        .iter()
        .any(|heard| heard.peer == peer && heard.matched != matched)
}

// What was heard of the peer, or of one that is new.
fn kept_heard(heards: &[Heard], peer: u64) -> Heard
    ensures { result ≡ kept_heard heards.now peer }
{
    for heard in heards {
        if heard.peer == peer {
            return *heard;
        }
    }
    Heard::new(peer)
}

/// What was heard of these peers, as far as they are known.
pub(crate) fn heard_of(
    alloc: Global,
    heards: &[Heard],
    peers: &[u64],
) -> Result<Vec<Heard>, AllocError>
    ensures { IfOk result (λ kept. kept.items ≡ heard_of heards.now peers.now) }
{
    peers
        .iter()
        .map(|peer| kept_heard(heards, *peer))
        .collect(alloc)
}

/// When the node was heard of last: of itself a node hears now.
pub(crate) fn heard_at(own: u64, now: u64, heards: &[Heard], id: u64) -> Option<u64>
    ensures { result ≡ heard_at own now heards.now id }
{
    if id == own {
        return Some(now);
    }
    kept_heard(heards, id).at
}
