//! A frame comes to its node in pieces.
ghost use Rattle.std.specs.Prelude.{◌≡◌};
ghost use Rattle.raft_node_laws.specs.Delivery.{Comes, piece, pieces_from};

use raft_cluster_events::{ClusterNode, NodeError, NodeOutcome};

// The bytes from the one place to the other.
fn piece_of(bytes: &[u8], begin: u64, end: u64) -> &[u8]
    ensures { result.now ≡ piece bytes.now begin end }
{
    let rest = bytes.get(begin as usize..).unwrap_or(&[]);
    let length = end.saturating_sub(begin) as usize;
    rest.get(..length).unwrap_or(rest)
}

/// The bytes of a peer's frame come, cut at these places. What the first piece that does something
/// did is answered.
pub fn deliver<N: ClusterNode>(
    node: &mut N,
    peer: u64,
    bytes: &[u8],
    cuts: &[u64],
    now: u64,
) -> Result<Option<NodeOutcome>, NodeError>
    ensures comes { Comes N.acts peer now node.old (pieces_from bytes.now 0 cuts.now) result node.new }
    ensures id { N.acts.id node.new ≡ N.acts.id node.old }
{
    let mut begin = 0;
    for cut in cuts {
        match node.feed(peer, piece_of(bytes, begin, *cut), now) {
            Ok(None) => begin = *cut,
            Ok(Some(outcome)) => return Ok(Some(outcome)),
            Err(error) => return Err(error),
        }
    }
    node.feed(peer, piece_of(bytes, begin, bytes.len() as u64), now)
}
