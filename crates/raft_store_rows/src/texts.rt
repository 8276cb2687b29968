//! What is stored and read, written behind a text.

use crate::store::{Fault, Kept};
use raft_group_storage::{GroupStorage, LoadedGroup};
use raft_messages::{GroupEntry, SnapshotBytes};
use raft_row_values::{IdText, VoteText};
use raft_state::{BasicNode, EntryPayload, LogId, Membership};
use raft_store::StoreFault;
use std::alloc::AllocError;

type Told = Result<(), AllocError>;

// ---- values

fn push_bytes(text: &mut String, bytes: &[u8]) -> Told {
    write!(text, "\"{}\"", bytes.escape_ascii())
}

// The voter groups, and each node with its address.
fn push_members(text: &mut String, membership: &Membership<u64, BasicNode>) -> Told {
    text.push_str("members")?;
    for group in membership.get_joint_config() {
        write!(text, ":{:?}", group.as_slice())?;
    }
    for (id, node) in membership.nodes() {
        write!(text, ",{id}={}", node.addr)?;
    }
    Ok(())
}

fn push_entry(text: &mut String, entry: &GroupEntry) -> Told {
    write!(text, " {}=", IdText(Some(entry.log_id)))?;
    match &entry.payload {
        EntryPayload::Blank => text.push_str("blank"),
        EntryPayload::Normal(command) => push_bytes(text, command.as_slice()),
        EntryPayload::Membership(membership) => push_members(text, membership),
    }
}

// ---- what a store reads

/// Why the store refuses a call.
pub fn push_fault(text: &mut String, fault: &Fault) -> Told {
    match fault {
        StoreFault::Refused(why) => write!(text, "refused {why:?}"),
        StoreFault::Log(why) => write!(text, "log: {why:?}"),
    }
}

/// Entries by their log ids.
pub fn push_entries(text: &mut String, entries: &[GroupEntry]) -> Told {
    text.push_str("entries")?;
    for entry in entries {
        push_entry(text, entry)?;
    }
    Ok(())
}

fn push_head(
    text: &mut String,
    last: LogId<u64>,
    members: Option<(LogId<u64>, &Membership<u64, BasicNode>)>,
) -> Told {
    write!(text, "{}", IdText(Some(last)))?;
    if let Some((id, members)) = members {
        write!(text, " of {}=", IdText(Some(id)))?;
        push_members(text, members)?;
    }
    Ok(())
}

/// What a snapshot covers, and its bytes.
pub fn push_snapshot(text: &mut String, snapshot: &SnapshotBytes) -> Told {
    let head = Kept::head(snapshot);
    push_head(text, head.last, head.membership)?;
    text.push_str(" ")?;
    push_bytes(text, snapshot.bytes.as_slice())
}

/// All that is stored of a group.
pub fn push_group(text: &mut String, group: &LoadedGroup) -> Told {
    let word = if group.present { "there" } else { "none" };
    write!(text, "{word}, vote {}, snapshot ", VoteText(group.vote))?;
    match &group.snapshot {
        Some(meta) => {
            let members = meta.last_membership.as_ref();
            let members = members.map(|logged| (logged.log_id, &logged.membership));
            push_head(text, meta.last_log_id, members)?;
        }
        None => text.push_str("-")?,
    }
    write!(text, ", purged {}, ", IdText(group.purged))?;
    push_entries(text, group.log.as_slice())
}
