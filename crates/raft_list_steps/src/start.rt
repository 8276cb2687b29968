//! Where a leader's list goes on from, and where it ends.
ghost use Rattle.std.specs.Prelude.{◌≡◌, ◌<◌, ℕ, suc, Some, length, MatchOption};
ghost use Rattle.raft_group_lists.specs.Notes.{IsWithin, accounts_of};
ghost use Rattle.raft_group_lists.specs.Room.{HasRoom};
ghost use Rattle.raft_list_steps.specs.Reports.{new_payload};
ghost use Rattle.raft_list_steps.specs.Steps.{EndsAt, EndsElsewhere, IsEndedAt, StartsAt};

use raft_group_lists::GroupList;
use raft_list_facts::{Base, Leading};
use raft_state::{BasicNode, Bytes, Entry, EntryPayload, LogId, Vote};

// Where the list is noted from which the leader's goes on: what it was noted with last, or what it took over.
fn start_of(list: &GroupList, leading: &Leading) -> Option<usize>
    ensures within { IsWithin list.now.notes.noted result }
    ensures start { StartsAt list.now.notes leading.now result }
{
    match list.last_of(&leading.vote) {
        Some(at) => Some(at),
        None => match &leading.base {
            Base::Nothing => None,
            Base::UpTo(id) => list.find(id),
            Base::Unknown => None,
        },
    }
}

// Where the list ends from which the leader's goes on, if that has the leader's last log id already.
fn ended_at(list: &GroupList, last: &LogId<u64>, start: Option<usize>) -> Option<usize>
    requires { IsWithin list.now.notes.noted start }
    ensures { MatchOption result (EndsElsewhere list.now.notes last.now start) (IsEndedAt list.now.notes last.now start) }
{
    match start {
        None => None,
        Some(at) => {
            if list.id_at(at) == *last {
                Some(at)
            } else {
                None
            }
        }
    }
}

// What a new entry of the list under the vote asks for: a leader that wasn't noted before begins with a blank one.
fn payload_of(
    list: &GroupList,
    vote: &Vote<u64>,
    written: Option<EntryPayload<u64, BasicNode, Bytes>>,
) -> EntryPayload<u64, BasicNode, Bytes>
    ensures { result ≡ new_payload ((accounts_of list.now.notes).latest vote.now) written }
{
    match list.last_of(vote) {
        Some(_at) => written.unwrap_or(EntryPayload::Blank),
        None => EntryPayload::Blank,
    }
}

// Where the leader's list ends: one entry is written, if the list has a new one.
pub(crate) fn end_of(
    list: &mut GroupList,
    leading: &Leading,
    last: LogId<u64>,
    written: Option<EntryPayload<u64, BasicNode, Bytes>>,
) -> usize
    requires room { HasRoom list.old 1 2 }
    requires last { leading.now.last ≡ Some last }
    ensures ends { EndsAt list.old.notes leading.now last written result list.new.notes }
    ensures within { result < length list.new.notes.noted }
    ensures room { (writes learns : ℕ) → HasRoom list.old (suc writes) learns → HasRoom list.new writes learns }
{
    let start = start_of(list, leading);
    if let Some(at) = ended_at(list, &last, start) {
        return at;
    }
    let entry = Entry {
        log_id: last,
        payload: payload_of(list, &leading.vote, written),
    };
    match list.write(entry, start) {
        Ok(at) => at,
        Err(_) => unreachable!(),
    }
}
