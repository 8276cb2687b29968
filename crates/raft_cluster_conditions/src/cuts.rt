//! Where a frame is cut.
ghost use Rattle.std.specs.Prelude.{◌≡◌};
ghost use Rattle.raft_cluster_conditions.specs.Cuts.{are_cuts};

/// Whether a frame of this length can be cut at these places, in bytes (own): they rise strictly,
/// and each lies strictly inside the frame.
pub fn are_cuts(length: u64, cuts: &[u64]) -> bool
    ensures { result ≡ are_cuts 0 length cuts.now }
{
    let mut before = 0;
    for cut in cuts {
        if *cut <= before || *cut >= length {
            return false;
        }
        before = *cut;
    }
    true
}
