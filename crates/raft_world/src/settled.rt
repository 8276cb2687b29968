//! What is settled of the lists that leaders had, and the longest of it.
ghost use Rattle.std.specs.Prelude.{◌≡◌, ◌<◌, ◌≤◌, IfOk, length, map, max};
ghost use Rattle.std.specs.Option.{option_copied};
ghost use Rattle.raft_quorums.specs.Quorum.{is_quorum};
ghost use Rattle.raft_messages.specs.Messages.{message_of};
ghost use Rattle.raft_laws.specs.GroupWorld.{GroupWorld};
ghost use Rattle.raft_laws.specs.Settled.{count_to_last, group_list, is_accepted_by_quorum, longer, settled_part, setup_configs};
ghost use Rattle.raft_world.specs.Settled.{led_of, world_of};

use crate::settled::accepting::Acceptors;
use crate::settled::led_note::LedNote;
use raft_executor::GroupMessage;
use raft_messages::{GroupEntry, push_copies};
use raft_state::{BasicNode, HasId, Membership, QuorumSet, Vote};
use std::alloc::{AllocError, Global};

mod accepting;
pub(crate) mod led_note;

// Whether the nodes are a quorum of the set-up's voter groups; all are where there is no set-up.
fn is_quorum<S: HasId<u64>>(setup: Option<&Membership<u64, BasicNode>>, nodes: &S) -> bool
    ensures { result ≡ is_quorum (setup_configs (option_copied setup.entry)) (S.has nodes.now) }
{
    match setup {
        None => true,
        Some(membership) => membership.is_quorum(nodes),
    }
}

// Whether the entry is of the vote's leader, and a quorum has accepted it or a later one of that leader.
fn is_accepted_by_quorum(
    messages: &[GroupMessage],
    setup: Option<&Membership<u64, BasicNode>>,
    led: &[LedNote],
    vote: &Vote<u64>,
    entry: &GroupEntry,
) -> bool
    ensures { result ≡ is_accepted_by_quorum (world_of messages.now (option_copied setup.entry) led.now) vote.now entry.now }
{
    let id = entry.log_id;
    id.leader_id == vote.leader_id
        && is_quorum(
            setup,
            &Acceptors {
                messages,
                led,
                vote: *vote,
                place: id.index,
            },
        )
}

// How many of the leader's entries stand up to its last one that a quorum accepted under its vote, or
// as many as are known where those are more.
fn settled_or_known(
    messages: &[GroupMessage],
    setup: Option<&Membership<u64, BasicNode>>,
    led: &[LedNote],
    note: &LedNote,
    known: usize,
) -> usize
    ensures count { result ≡ max known (count_to_last (is_accepted_by_quorum (world_of messages.now (option_copied setup.entry) led.now) note.now.vote) 0 0 note.now.list.items) }
    ensures within { known < result → result ≤ length note.now.list.items }
{
    let entries = note.list.as_slice();
    // The last one that passes is found soonest from the end, and those that are known need no look.
    for back in 0..entries.len().saturating_sub(known) {
        let at = entries.len() - 1 - back;
        if is_accepted_by_quorum(messages, setup, led, &note.vote, &entries[at]) {
            return at + 1;
        }
    }
    known
}

// The longer one of the list and what is settled of the leader's list, lent; the list where they are
// as long.
fn longer<'a>(
    messages: &[GroupMessage],
    setup: Option<&Membership<u64, BasicNode>>,
    led: &[LedNote],
    list: &'a [GroupEntry],
    note: &'a LedNote,
) -> &'a [GroupEntry]
    ensures { result.now ≡ longer list.now (settled_part (world_of messages.now (option_copied setup.entry) led.now) (led_of note.now)) }
{
    let count = settled_or_known(messages, setup, led, note, list.len());
    if list.len() < count {
        &note.list.as_slice()[..count]
    } else {
        list
    }
}

// The first of the longest parts of leaders' lists that are settled, lent.
fn longest_settled<'a>(
    messages: &[GroupMessage],
    setup: Option<&Membership<u64, BasicNode>>,
    led: &'a [LedNote],
) -> &'a [GroupEntry]
    ensures { result.now ≡ group_list (world_of messages.now (option_copied setup.entry) led.now) }
{
    let mut longest: &[GroupEntry] = &[];
    for note in led {
        longest = longer(messages, setup, led, longest, note);
    }
    longest
}

// The one list of a group, from its messages, the membership that it was set up with and the notes
// of its leaders: the longest part of a leader's list that is settled, up to its last entry
// that a quorum accepted under the leader's vote. It is a copy, and fails for want of memory alone.
pub(crate) fn group_list(
    alloc: Global,
    messages: &[GroupMessage],
    setup: Option<&Membership<u64, BasicNode>>,
    led: &[LedNote],
) -> Result<Vec<GroupEntry>, AllocError>
    ensures { IfOk result (λ list. (w : GroupWorld) → w.messages ≡ map message_of messages.now → w.setup ≡ option_copied setup.entry
        → w.led ≡ map led_of led.now → list.items ≡ group_list w) }
{
    let mut list = Vec::new(alloc);
    push_copies(&mut list, longest_settled(messages, setup, led))?;
    Ok(list)
}
