//! Memberships: voter groups and nodes, their changes, and the errors of client calls.
#![tactic(auto)]

pub mod change;
pub mod change_members;
pub mod effective_membership;
pub mod error;
mod goal;
pub mod into_nodes;
pub mod laws;
pub mod membership;
pub mod membership_state;
mod one_group;
pub mod snapshot_meta;
pub mod stored_membership;

pub use change_members::ChangeMembers;
pub use effective_membership::EffectiveMembership;
pub use error::{
    ChangeMembershipError, ClientWriteError, EmptyMembership, ForwardToLeader, InProgress,
    InitializeError, LackEntry, LearnerNotFound, NotAllowed, NotInMembers,
};
pub use goal::{are_ids_of, are_stayers};
pub use into_nodes::IntoNodes;
pub use membership::Membership;
pub use membership_state::MembershipState;
pub use snapshot_meta::SnapshotMeta;
pub use stored_membership::StoredMembership;
