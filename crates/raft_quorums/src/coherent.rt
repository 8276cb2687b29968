//! Which quorum sets may follow one another.
ghost use Rattle.std.specs.Prelude.{◌≡◌, ◌<◌, Bool, List, length, IfOk};
ghost use Rattle.std.specs.List.{list_any};
ghost use Rattle.raft_quorums.specs.Quorum.{next_configs, share_config};

use crate::joint::Joint;
use crate::quorum_set::QuorumSet;
use raft_values::node::NodeId;
use std::alloc::{AllocError, Global};

/// Quorum sets whose quorums share a node with those of another one (openraft).
pub trait Coherent<ID, Other> {
    // Whether they have a part in common.
    ghost is_coherent: { Self → Other → Bool };

    /// Whether the two have an equal child, so that their quorums share a node.
    fn is_coherent_with(&self, other: &Other) -> bool
        ensures { result ≡ is_coherent self.now other.now };
}

// Whether a child of one list equals a child of the other.
fn share_child<QS: PartialEq>(children: &[QS], others: &[QS]) -> bool
    ensures { result ≡ share_config QS.eq children.now others.now }
{
    children.iter().any(|child| others.contains(child))
}

impl<ID: NodeId, QS: QuorumSet<ID> + PartialEq> Coherent<ID, Joint<ID, QS, Vec<QS>>>
    for Joint<ID, QS, Vec<QS>> {
    ghost is_coherent = { λ a b. share_config QS.eq a.data.items b.data.items };

    fn is_coherent_with(&self, other: &Joint<ID, QS, Vec<QS>>) -> bool {
        share_child(self.children().as_slice(), other.children().as_slice())
    }
}

impl<ID: NodeId, QS: QuorumSet<ID> + PartialEq> Coherent<ID, Joint<ID, QS, &[QS]>>
    for Joint<ID, QS, &[QS]> {
    ghost is_coherent = { λ a b. share_config QS.eq a.data.now b.data.now };

    fn is_coherent_with(&self, other: &Joint<ID, QS, &[QS]>) -> bool {
        share_child(*self.children(), *other.children())
    }
}

impl<ID: NodeId, QS: QuorumSet<ID> + PartialEq> Coherent<ID, QS> for Joint<ID, QS, Vec<QS>> {
    ghost is_coherent = { λ a b. list_any (λ y. QS.eq y b) a.data.items };

    fn is_coherent_with(&self, other: &QS) -> bool {
        self.children().contains(other)
    }
}

// The children of the next quorum set on the way to the goal.
pub(crate) fn next_children<QS: PartialEq + Clone>(
    alloc: Global,
    children: &[QS],
    goal: QS,
) -> Result<Vec<QS>, AllocError>
    requires some { 0 < length children.now }
    requires clones { (x y : QS) → QS.is_clone x y → y ≡ x }
    ensures { IfOk result (λ next. next.items ≡ next_configs QS.eq children.now goal) }
{
    let mut next = Vec::new(alloc);
    if children.contains(&goal) {
        next.push(goal)?;
        return Ok(next);
    }
    let last = children[children.len() - 1].clone()?;
    next.push(last)?;
    next.push(goal)?;
    Ok(next)
}

/// How to get from a quorum set to another in coherent steps (openraft).
pub trait FindCoherent<ID, Other>: Sized {
    // Whether there is a step.
    ghost can_step: { Self → Type 0 };
    // The next quorum set on the way.
    ghost steps_to: { Self → Other → Self → Type 0 };

    /// The next quorum set on the way to the other: coherent with this one, and the other alone
    /// where that is coherent already.
    fn find_coherent(&self, alloc: Global, other: Other) -> Result<Self, AllocError>
        requires { can_step self.now }
        ensures { IfOk result (λ next. steps_to self.now other next) };
}

impl<ID: NodeId, QS: QuorumSet<ID> + PartialEq + Clone> FindCoherent<ID, QS>
    for Joint<ID, QS, Vec<QS>> {
    ghost can_step = { λ j. (0 < length j.data.items) × ((x y : QS) → QS.is_clone x y → y ≡ x) };

    ghost steps_to = { λ j other next. next.data.items ≡ next_configs QS.eq j.data.items other };

    fn find_coherent(
        &self,
        alloc: Global,
        other: QS,
    ) -> Result<Joint<ID, QS, Vec<QS>>, AllocError> {
        let children = self.children().as_slice();
        Ok(Joint::new(next_children(alloc, children, other)?))
    }
}
