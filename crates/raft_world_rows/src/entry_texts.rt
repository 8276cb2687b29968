//! Texts of memberships, entries and snapshots.
use crate::values::IdText;
use raft_group_step::LoggedMembership;
use raft_messages::GroupEntry;
use raft_state::{BasicNode, Bytes, EntryPayload, IdSet, Membership};
use raft_stored_group::GroupSnapshot;
use std::fmt;
use std::fmt::Display;

// ---- memberships

// What stands before the part with this place.
fn gap(place: usize, between: &'static str) -> &'static str {
    if place == 0 { "" } else { between }
}

// The voters of a group.
#[derive(Clone, Copy)]
struct GroupText<'a>(&'a IdSet<u64>);

impl Display for GroupText<'_> {
    fn fmt<W: fmt::Write>(&self, f: &mut fmt::Formatter<W>) -> fmt::Result {
        for (place, id) in self.0.as_slice().iter().enumerate() {
            write!(f, "{}{id}", gap(place, ","))?;
        }
        Ok(())
    }
}

// The voters of each group.
#[derive(Clone, Copy)]
struct GroupsText<'a>(&'a [IdSet<u64>]);

impl Display for GroupsText<'_> {
    fn fmt<W: fmt::Write>(&self, f: &mut fmt::Formatter<W>) -> fmt::Result {
        for (place, group) in self.0.iter().enumerate() {
            write!(f, "{}{}", gap(place, "/"), GroupText(group))?;
        }
        Ok(())
    }
}

// Each node with its address.
#[derive(Clone, Copy)]
struct NodesText<'a>(&'a [(u64, BasicNode)]);

impl Display for NodesText<'_> {
    fn fmt<W: fmt::Write>(&self, f: &mut fmt::Formatter<W>) -> fmt::Result {
        for (place, (id, node)) in self.0.iter().enumerate() {
            write!(f, "{}{id}@{}", gap(place, ","), node.addr)?;
        }
        Ok(())
    }
}

// The voter groups, then the nodes.
#[derive(Clone, Copy)]
struct MembershipText<'a>(&'a Membership<u64, BasicNode>);

impl Display for MembershipText<'_> {
    fn fmt<W: fmt::Write>(&self, f: &mut fmt::Formatter<W>) -> fmt::Result {
        let groups = GroupsText(self.0.get_joint_config());
        write!(f, "{groups};{}", NodesText(self.0.nodes()))
    }
}

// ---- entries

// Two digits for each byte.
#[derive(Clone, Copy)]
struct BytesText<'a>(&'a [u8]);

impl Display for BytesText<'_> {
    fn fmt<W: fmt::Write>(&self, f: &mut fmt::Formatter<W>) -> fmt::Result {
        for byte in self.0 {
            write!(f, "{byte:02x}")?;
        }
        Ok(())
    }
}

/// `blank`, the bytes of a command, or a membership.
#[derive(Clone, Copy)]
pub struct PayloadText<'a>(pub &'a EntryPayload<u64, BasicNode, Bytes>);

impl Display for PayloadText<'_> {
    fn fmt<W: fmt::Write>(&self, f: &mut fmt::Formatter<W>) -> fmt::Result {
        match self.0 {
            EntryPayload::Blank => f.write_str("blank"),
            EntryPayload::Normal(bytes) => write!(f, "{}", BytesText(bytes.as_slice())),
            EntryPayload::Membership(membership) => write!(f, "{}", MembershipText(membership)),
        }
    }
}

/// How many entries there are, and each.
#[derive(Clone, Copy)]
pub struct EntriesText<'a>(pub &'a [GroupEntry]);

impl Display for EntriesText<'_> {
    fn fmt<W: fmt::Write>(&self, f: &mut fmt::Formatter<W>) -> fmt::Result {
        write!(f, "{}", self.0.len())?;
        for entry in self.0 {
            let id = IdText(Some(entry.log_id));
            write!(f, " [{id} {}]", PayloadText(&entry.payload))?;
        }
        Ok(())
    }
}

// ---- snapshots

// A membership behind the log id of its entry.
#[derive(Clone, Copy)]
struct LoggedText<'a>(Option<&'a LoggedMembership<u64, BasicNode>>);

impl Display for LoggedText<'_> {
    fn fmt<W: fmt::Write>(&self, f: &mut fmt::Formatter<W>) -> fmt::Result {
        match self.0 {
            None => f.write_str("-"),
            Some(logged) => {
                let id = IdText(Some(logged.log_id));
                write!(f, "{id} {}", MembershipText(&logged.membership))
            }
        }
    }
}

/// The last log id of a snapshot, its last membership and its entries.
#[derive(Clone, Copy)]
pub struct SnapshotText<'a>(pub Option<&'a GroupSnapshot>);

impl Display for SnapshotText<'_> {
    fn fmt<W: fmt::Write>(&self, f: &mut fmt::Formatter<W>) -> fmt::Result {
        match self.0 {
            None => f.write_str("-"),
            Some(snapshot) => {
                let last = IdText(Some(snapshot.last()));
                let membership = LoggedText(snapshot.membership());
                let entries = EntriesText(snapshot.prefix());
                write!(f, "{last} with {membership} of {entries}")
            }
        }
    }
}
