//! What names a node, and what is known of one beside its name.
ghost use Rattle.std.specs.Prelude.{◌≡◌, true, [], string_bytes, IfOk, refl};
ghost use Rattle.std.specs.Prelude.{nat_eq};
ghost use Rattle.std.specs.Cmp.{partial_equiv_from_equiv};
ghost use Rattle.std.specs.Cmp.Lexicographic.{pointwise, nat_list_eq_equiv};
ghost use Rattle.std.proofs.Common.{rules};

use std::alloc::{AllocError, Global};
use std::fmt::{self, Debug, Display};
use std::marker::Model;

/// What the id of a node can do (openraft; here ids are `Copy`).
pub trait NodeIdEssential: Copy + Ord + Debug + Display + Default + Drop {
    // The default id.
    ghost default_id: { Self };
    // Whatever `default` gives is that id.
    ghost default_is_one: { (x : Self) → Self.is_default x → x ≡ default_id };
    // Ids that compare equal are one id.
    ghost equal_is_same: { (x y : Self) → Self.eq x y ≡ true → x ≡ y };
}

/// The id of a node (openraft).
pub trait NodeId: NodeIdEssential {}

impl NodeIdEssential for u64 {
    ghost default_id = { 0 };

    ghost default_is_one = { λ x h. h };

    ghost equal_is_same = { λ x y h. Prim.search rules };
}

impl NodeId for u64 {}

/// The default id.
pub fn default_id<NID: NodeId>() -> NID
    ensures { result ≡ NID.default_id }
{
    NID::default()
}

/// What the description of a node can do (openraft).
pub trait NodeEssential: Clone + Eq + Debug + Drop {
    ghost default_node: { Self };

    /// The node of which nothing is known.
    fn default(alloc: Global) -> Self
        ensures { result ≡ default_node };

    // A clone is the node itself.
    ghost clone_is_same: { (x y : Self) → Self.is_clone x y → y ≡ x };
}

/// What is known of a node beside its id (openraft).
pub trait Node: NodeEssential {}

/// A node of which nothing is known (openraft).
#[derive(Clone, Copy, Debug, PartialEq, Eq, PartialOrd, Ord)]
pub struct EmptyNode {}

impl EmptyNode {
    /// The node of which nothing is known.
    pub fn new() -> EmptyNode
        ensures { result ≡ record {} }
    {
        EmptyNode {}
    }
}

impl Display for EmptyNode {
    fn fmt<W: fmt::Write>(&self, f: &mut fmt::Formatter<W>) -> fmt::Result {
        write!(f, "EmptyNode")
    }
}

impl NodeEssential for EmptyNode {
    ghost default_node = { record {} };

    fn default(_alloc: Global) -> EmptyNode {
        EmptyNode {}
    }

    ghost clone_is_same = { λ x y h. h };
}

impl Node for EmptyNode {}

/// A node with its address (openraft). Contracts see the bytes of the address.
#[derive(Debug, Drop)]
pub struct BasicNode {
    pub addr: String,
}

impl Model for BasicNode {
    ghost use Rattle.std.specs.Prelude.{List, ℕ, string_bytes};

    ghost Value = { List ℕ };

    ghost view = { λ a. string_bytes a.addr };
}

impl BasicNode {
    /// The node at this address.
    pub fn new(alloc: Global, addr: &str) -> Result<BasicNode, AllocError>
        ensures { IfOk result (λ node. node ≡ addr.now) }
    {
        Ok(BasicNode {
            addr: String::from_str(alloc, addr)?,
        })
    }
}

impl Display for BasicNode {
    fn fmt<W: fmt::Write>(&self, f: &mut fmt::Formatter<W>) -> fmt::Result {
        let addr = &self.addr;
        write!(f, "{addr}")
    }
}

impl Clone for BasicNode {
    ghost is_clone = { λ x y. y ≡ x };

    fn clone(&self) -> Result<BasicNode, AllocError> {
        Ok(BasicNode {
            addr: self.addr.clone()?,
        })
    }
}

impl PartialEq for BasicNode {
    ghost eq = { pointwise nat_eq };

    ghost laws = { partial_equiv_from_equiv nat_list_eq_equiv };

    fn eq(&self, other: &BasicNode) -> bool {
        self.addr == other.addr
    }
}

impl Eq for BasicNode {
    ghost laws = { nat_list_eq_equiv };
}

impl NodeEssential for BasicNode {
    ghost default_node = { [] };

    fn default(alloc: Global) -> BasicNode {
        BasicNode {
            addr: String::new(alloc),
        }
    }

    ghost clone_is_same = { λ x y h. h };
}

impl Node for BasicNode {}
