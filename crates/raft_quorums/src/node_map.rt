//! Nodes by their ids.
ghost use Rattle.std.specs.Prelude.{◌≡◌, ◌+◌, ◌<◌, ◌≤◌, ◌&&◌, [], map, length, IfOk, OnOk, OnErr, MatchResult, MatchOption};
ghost use Rattle.std.specs.List.{filter};
ghost use Rattle.std.specs.Option.{option_copied};
ghost use Rattle.raft_quorums.specs.Nodes.{has_node, node_at, with_node, with_nodes, with_new_node, with_new_nodes};
ghost use Rattle.raft_quorums.specs.Rising.{IsRisingByFirst};
ghost use Rattle.raft_quorums.specs.Place.{place};
ghost use Rattle.std.specs.Cmp.Lexicographic.{pointwise, lists_per, lists_equiv};
ghost use Rattle.std.specs.Cmp.{and_per, on_per, and_equiv, on_equiv};

use crate::has_id::HasId;
use crate::id_set::IdSet;
use raft_values::node::{Node, NodeId};
use std::alloc::{AllocError, Global};
use std::cmp::Ordering;
use std::marker::Model;

/// Nodes by their ids. Contracts see a list of pairs, an id and its node, by rising id.
#[derive(Debug, Drop)]
pub struct NodeMap<NID: NodeId, N: Node> {
    nodes: Vec<(NID, N)>,
}

impl<NID: NodeId, N: Node> Model for NodeMap<NID, N> {
    ghost use Rattle.std.specs.Prelude.{List};
    ghost use Rattle.raft_quorums.specs.Rising.{IsRisingByFirst};

    ghost Value = { List (NID × N) };

    ghost view = { λ s. s.nodes.items };

    ghost invariant = { λ s. IsRisingByFirst NID.cmp s.nodes.items };
}

// The place of the id's node, or the gap where it belongs.
fn place<NID: NodeId, N: Node>(nodes: &[(NID, N)], id: &NID) -> Result<usize, usize>
    ensures place { result ≡ place (λ (x : NID × N). NID.cmp id.now x.0) nodes.now }
    ensures within { MatchResult result (λ at. at < length nodes.now) (λ gap. gap ≤ length nodes.now) }
{
    for (at, other) in nodes.iter().enumerate() {
        match id.cmp(&other.0) {
            Ordering::Less => return Err(at),
            Ordering::Equal => return Ok(at),
            Ordering::Greater => {}
        }
    }
    Err(nodes.len())
}

fn insert_rising<NID: NodeId, N: Node>(
    nodes: &mut Vec<(NID, N)>,
    id: NID,
    node: N,
) -> Result<(), AllocError>
    requires { IsRisingByFirst NID.cmp nodes.old.items }
    ensures ok { OnOk result (nodes.new.items ≡ with_node NID.cmp nodes.old.items id node) }
    ensures err { OnErr result (nodes.new.items ≡ nodes.old.items) }
    ensures rising { IsRisingByFirst NID.cmp nodes.new.items }
{
    match place(nodes.as_slice(), &id) {
        Ok(at) => {
            nodes[at] = (id, node);
        }
        Err(gap) => {
            nodes.insert(gap, (id, node))?;
        }
    }
    Ok(())
}

// The nodes whose ids are to be kept.
fn filter_nodes<NID: NodeId, N: Node, S: HasId<NID>>(
    alloc: Global,
    nodes: &[(NID, N)],
    keep: &S,
) -> Result<Vec<(NID, N)>, AllocError>
    requires { IsRisingByFirst NID.cmp nodes.now }
    ensures items { IfOk result (λ kept. kept.items ≡ filter (λ x. S.has keep.now x.0) nodes.now) }
    ensures rising { IfOk result (λ kept. IsRisingByFirst NID.cmp kept.items) }
{
    let mut kept = Vec::new(alloc);
    for (id, node) in nodes {
        if keep.has_id(id) {
            kept.push((*id, node.clone()?))?;
        }
    }
    Ok(kept)
}

// The ids of the nodes.
fn first_ids<NID: NodeId, N: Node>(
    alloc: Global,
    nodes: &[(NID, N)],
) -> Result<Vec<NID>, AllocError>
    ensures { IfOk result (λ ids. ids.items ≡ map (λ (x : NID × N). x.0) nodes.now) }
{
    let mut ids = Vec::new(alloc);
    for (id, _) in nodes {
        ids.push(*id)?;
    }
    Ok(ids)
}

impl<NID: NodeId, N: Node> NodeMap<NID, N> {
    /// No nodes.
    pub fn new(alloc: Global) -> NodeMap<NID, N>
        ensures { result ≡ [] }
    {
        NodeMap {
            nodes: Vec::new(alloc),
        }
    }

    /// How many nodes there are.
    pub fn len(&self) -> usize
        ensures { result ≡ length self.now }
    {
        self.nodes.len()
    }

    /// The ids with their nodes, by rising id.
    pub fn as_slice(&self) -> &[(NID, N)]
        ensures nodes { result.now ≡ self.now }
        ensures rising { IsRisingByFirst NID.cmp self.now }
    {
        self.nodes.as_slice()
    }

    /// Whether one of the nodes has the id.
    pub fn contains(&self, id: &NID) -> bool
        ensures { result ≡ has_node NID.eq self.now id.now }
    {
        self.nodes.iter().any(|x| x.0 == *id)
    }

    /// The node with the id.
    pub fn get(&self, id: &NID) -> Option<&N>
        ensures { option_copied result ≡ node_at NID.eq self.now id.now }
    {
        for (other, node) in self.as_slice() {
            if *other == *id {
                return Some(node);
            }
        }
        None
    }

    /// The ids.
    pub fn ids(&self) -> Result<IdSet<NID>, AllocError>
        ensures { IfOk result (λ ids. ids ≡ map (λ (x : NID × N). x.0) self.now) }
    {
        let ids = first_ids(self.allocator(), self.as_slice())?;
        Ok(IdSet::from_rising(ids))
    }

    /// The map of nodes whose ids are in order already. Takes no memory.
    pub fn from_rising(rising: Vec<(NID, N)>) -> NodeMap<NID, N>
        requires { IsRisingByFirst NID.cmp rising.items }
        ensures { result ≡ rising.items }
    {
        NodeMap { nodes: rising }
    }

    // What the map takes its memory from.
    fn allocator(&self) -> Global {
        *self.nodes.allocator()
    }

    /// The nodes whose ids are in the set.
    pub fn filtered<S: HasId<NID>>(&self, keep: &S) -> Result<NodeMap<NID, N>, AllocError>
        ensures { IfOk result (λ map. map ≡ filter (λ x. S.has keep.now x.0) self.now) }
    {
        let nodes = filter_nodes(self.allocator(), self.as_slice(), keep)?;
        Ok(NodeMap { nodes })
    }

    /// The nodes with these too, in place of those with their ids.
    pub fn with_nodes(&self, nodes: &[(NID, N)]) -> Result<NodeMap<NID, N>, AllocError>
        ensures { IfOk result (λ map. map ≡ with_nodes NID.cmp self.now nodes.now) }
    {
        let mut map = self.clone()?;
        for (id, node) in nodes {
            map.insert(*id, node.clone()?)?;
        }
        Ok(map)
    }

    /// The nodes with those of these whose ids are new.
    pub fn with_new_nodes(&self, nodes: &[(NID, N)]) -> Result<NodeMap<NID, N>, AllocError>
        ensures { IfOk result (λ map. map ≡ with_new_nodes NID.eq NID.cmp self.now nodes.now) }
    {
        let mut map = self.clone()?;
        for (id, node) in nodes {
            map.insert_new(*id, node.clone()?)?;
        }
        Ok(map)
    }

    /// Takes the node in, unless one with its id is there. Without memory the nodes stay.
    pub fn insert_new(&mut self, id: NID, node: N) -> Result<(), AllocError>
        ensures ok { OnOk result (self.new ≡ with_new_node NID.eq NID.cmp self.old id node) }
        ensures err { OnErr result (self.new ≡ self.old) }
    {
        if self.contains(&id) {
            return Ok(());
        }
        self.insert(id, node)
    }

    /// Takes the node in, in place of the one with its id. Without memory the nodes stay.
    pub fn insert(&mut self, id: NID, node: N) -> Result<(), AllocError>
        ensures ok { OnOk result (self.new ≡ with_node NID.cmp self.old id node) }
        ensures err { OnErr result (self.new ≡ self.old) }
    {
        insert_rising(&mut self.nodes, id, node)
    }
}

impl<NID: NodeId, N: Node> HasId<NID> for NodeMap<NID, N> {
    ghost has = { has_node NID.eq };

    fn has_id(&self, id: &NID) -> bool {
        self.contains(id)
    }
}

// A second list of the same nodes.
fn copy_nodes<NID: NodeId, N: Node>(
    alloc: Global,
    nodes: &[(NID, N)],
) -> Result<Vec<(NID, N)>, AllocError>
    ensures { IfOk result (λ copies. copies.items ≡ nodes.now) }
{
    let mut copies = Vec::new(alloc);
    for (id, node) in nodes {
        copies.push((*id, node.clone()?))?;
    }
    Ok(copies)
}

impl<NID: NodeId, N: Node> Clone for NodeMap<NID, N> {
    ghost is_clone = { λ x y. y ≡ x };

    fn clone(&self) -> Result<NodeMap<NID, N>, AllocError> {
        Ok(NodeMap {
            nodes: copy_nodes(*self.nodes.allocator(), self.nodes.as_slice())?,
        })
    }
}

impl<NID: NodeId, N: Node> PartialEq for NodeMap<NID, N> {
    ghost eq = { pointwise (λ x y. NID.eq x.0 y.0 && N.eq x.1 y.1) };

    ghost laws = { lists_per (and_per (on_per (λ (t : NID × N). t.0) NID.PartialEq.laws) (on_per (λ (t : NID × N). t.1) N.PartialEq.laws)) };

    fn eq(&self, other: &NodeMap<NID, N>) -> bool {
        self.nodes == other.nodes
    }
}

impl<NID: NodeId, N: Node> Eq for NodeMap<NID, N> {
    ghost laws = { lists_equiv (and_equiv (on_equiv (λ (t : NID × N). t.0) NID.Eq.laws) (on_equiv (λ (t : NID × N). t.1) N.Eq.laws)) };
}
