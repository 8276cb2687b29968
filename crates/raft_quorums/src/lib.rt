//! Sets of ids, nodes by their ids, voter groups and quorums.
#![tactic(auto)]

pub mod coherent;
pub mod has_id;
pub mod id_set;
pub mod joint;
pub mod node_map;
pub mod quorum_set;
pub mod voter_groups;

pub use coherent::{Coherent, FindCoherent};
pub use has_id::HasId;
pub use id_set::IdSet;
pub use joint::{AsJoint, Joint};
pub use node_map::NodeMap;
pub use quorum_set::QuorumSet;
pub use voter_groups::VoterGroups;
