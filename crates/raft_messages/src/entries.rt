//! Entries of a group: their copies, and their places.
ghost use Rattle.std.specs.Prelude.{◌≡◌, ◌++◌, IfOk, OnOk};
ghost use Rattle.raft_group_step.specs.Message.{last_sent};
ghost use Rattle.raft_messages.specs.Entries.{all_go_on};

use raft_group_step::Entries;
use raft_state::{BasicNode, Bytes, Entry, EntryPayload, LogId};
use std::alloc::{AllocError, Global};

/// An entry of a group: node ids are numbers, nodes have addresses, commands are bytes (own).
pub type GroupEntry = Entry<u64, BasicNode, Bytes>;

/// What an entry of a group asks for (own).
pub type GroupPayload = EntryPayload<u64, BasicNode, Bytes>;

/// The same payload again (own). It fails for want of memory alone.
pub fn copy_of_payload(payload: &GroupPayload) -> Result<GroupPayload, AllocError>
    ensures { IfOk result (λ p. p ≡ payload.now) }
{
    Ok(match payload {
        EntryPayload::Blank => EntryPayload::Blank,
        EntryPayload::Normal(command) => EntryPayload::Normal(command.clone()?),
        EntryPayload::Membership(membership) => EntryPayload::Membership(membership.clone()?),
    })
}

/// The same entry again (own). It fails for want of memory alone.
pub fn copy_of_entry(entry: &GroupEntry) -> Result<GroupEntry, AllocError>
    ensures { IfOk result (λ e. e ≡ entry.now) }
{
    Ok(GroupEntry {
        log_id: entry.log_id,
        payload: copy_of_payload(&entry.payload)?,
    })
}

/// Copies of the entries go behind the others (own). It fails for want of memory alone.
pub fn push_copies(to: &mut Vec<GroupEntry>, entries: &[GroupEntry]) -> Result<(), AllocError>
    ensures { OnOk result (to.new.items ≡ to.old.items ++ entries.now) }
{
    for entry in entries {
        to.push(copy_of_entry(entry)?)?;
    }
    Ok(())
}

/// Copies of the entries, as requests have them (own). It fails for want of memory alone.
pub fn copies_of(
    alloc: Global,
    entries: &[GroupEntry],
) -> Result<Entries<u64, BasicNode, Bytes>, AllocError>
    ensures { IfOk result (λ copies. copies ≡ entries.now) }
{
    let mut copies = Vec::new(alloc);
    push_copies(&mut copies, entries)?;
    Ok(Entries::from_vec(copies))
}

/// Whether the entries' places rise, from behind the log id on (own).
pub fn all_go_on(last: Option<LogId<u64>>, entries: &[GroupEntry]) -> bool
    ensures { result ≡ all_go_on last entries.now }
{
    let mut last = last;
    for entry in entries {
        if last.is_some_and(|last| entry.log_id.index <= last.index) {
            return false;
        }
        last = Some(entry.log_id);
    }
    true
}

/// The log id of the last entry, or the one before the entries (own).
pub fn last_sent(previous: Option<LogId<u64>>, entries: &[GroupEntry]) -> Option<LogId<u64>>
    ensures { result ≡ last_sent previous entries.now }
{
    let mut last = previous;
    for entry in entries {
        last = Some(entry.log_id);
    }
    last
}
