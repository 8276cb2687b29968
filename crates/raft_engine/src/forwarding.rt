//! Who is known to lead, and what a caller gets of an engine that doesn't.
ghost use Rattle.std.specs.Prelude.{◌≡◌, IfOk, IfErr, IfSome, is_some, not};
ghost use Rattle.std.specs.Result.{is_ok};
ghost use Rattle.std.specs.Borrow.{sem};
ghost use Rattle.raft_engine.specs.Forwarding.{forward_of};

use crate::engine::Engine;
use crate::leader_handler::LeaderHandler;
use raft_commands::RaftTypeConfig;
use raft_state::ForwardToLeader;
use std::alloc::AllocError;

/// A caller's token that no leader took (own).
#[derive(Drop)]
pub struct Rejected<T, C: RaftTypeConfig> {
    /// The token.
    pub tx: T,
    /// Who is to be asked, if there was memory to say it.
    pub forward: Result<ForwardToLeader<C::NodeId, C::Node>, AllocError>,
}

impl<C: RaftTypeConfig> Engine<C> {
    ghost use Rattle.raft_engine.specs.Lending.{LendsToLeader};

    /// Who leads as far as the node knows, for a caller to ask (openraft): the node of a committed
    /// vote, and its address where the membership in force has it.
    pub fn forward_to_leader(&self) -> Result<ForwardToLeader<C::NodeId, C::Node>, AllocError>
        ensures { IfOk result (λ forward. forward ≡ forward_of C.NodeId.eq self.now.state) }
    {
        let vote = self.state.state.vote_ref();
        if !vote.committed {
            return Ok(ForwardToLeader::empty());
        }
        let leader_id = vote.leader_id.node_id;
        let membership = self.state.state.membership_state.effective();
        let leader_node = match membership.get_node(&leader_id) {
            None => None,
            Some(node) => Some(node.clone()?),
        };
        Ok(ForwardToLeader {
            leader_id: Some(leader_id),
            leader_node,
        })
    }

    // Who is to be asked, where the node doesn't lead.
    pub(crate) fn led_elsewhere(
        &self,
    ) -> Option<Result<ForwardToLeader<C::NodeId, C::Node>, AllocError>>
        ensures leads { is_some result ≡ not (is_some self.now.leader) }
        ensures forward { IfSome result (λ answer. IfOk answer (λ forward. forward ≡ forward_of C.NodeId.eq self.now.state)) }
    {
        if self.leader.is_some() {
            return None;
        }
        Some(self.forward_to_leader())
    }

    /// Who writes and speaks for the node (openraft), with the caller's token, if the node leads.
    /// Else the token comes back with who is to be asked, which may fail for want of memory.
    pub fn get_leader_handler_or_reject<T>(
        &mut self,
        tx: T,
    ) -> Result<(LeaderHandler<'_, C>, T), Rejected<T, C>>
        ensures* rests { sem 𝓛 (LendsToLeader C.row C.D.row C.R.row C.NodeId.row C.Node.row C.Debug C.D.Debug C.R.Debug
            (record { default_id = C.NodeId.default_id }) (record { is_clone = C.NodeId.is_clone; is_infallible = C.NodeId.is_infallible })
            (record { cmp = C.NodeId.cmp }) (record { eq = C.NodeId.eq }) (record { partial_cmp = C.NodeId.partial_cmp })
            (record { debug_output = C.NodeId.debug_output }) (record { output = C.NodeId.output; styled_output = C.NodeId.styled_output })
            (record { is_default = C.NodeId.is_default }) (record { default_node = C.Node.default_node })
            (record { is_clone = C.Node.is_clone; is_infallible = C.Node.is_infallible }) (record { eq = C.Node.eq })
            (record { debug_output = C.Node.debug_output }) self.entry result) }
        ensures which { is_ok result ≡ is_some self.old.leader }
        ensures taken { IfOk result (λ taken. (taken.1 ≡ tx) × (taken.0.engine.now ≡ self.old)) }
        ensures rejected { IfErr result (λ rejected. (rejected.tx ≡ tx)
            × IfOk rejected.forward (λ forward. forward ≡ forward_of C.NodeId.eq self.old.state)) }
    {
        if self.leader.is_none() {
            let forward = self.forward_to_leader();
            return Err(Rejected { tx, forward });
        }
        Ok((LeaderHandler { engine: self }, tx))
    }
}
