//! The list of a group behind an event.
ghost use Rattle.std.specs.Prelude.{ℕ, suc, Some};
ghost use Rattle.raft_group_lists.specs.Room.{HasRoom};
ghost use Rattle.raft_list_steps.specs.Reports.{Hears, HearsAhead, HearsSetUp};
ghost use Rattle.raft_list_steps.specs.Steps.{Accepts, Leads, MayLead, SetsUp};

use crate::report::{GroupReport, SetUp};
use crate::start::end_of;
use raft_group_lists::GroupList;
use raft_list_facts::{Acceptance, Leading};
use raft_state::{BasicNode, Bytes, Entry, EntryPayload, LeaderId, LogId};

// The group is set up, and the set-up's entry is noted.
fn hear_first(list: &mut GroupList, set_up: SetUp)
    requires { HasRoom list.old 2 2 }
    ensures truth { SetsUp list.old.notes (Some set_up) list.new.notes }
    ensures room { (writes learns : ℕ) → HasRoom list.old (suc writes) learns → HasRoom list.new writes learns }
{
    let entry = Entry {
        log_id: LogId {
            leader_id: LeaderId {
                term: 0,
                node_id: 0,
            },
            index: 0,
        },
        payload: EntryPayload::Membership(set_up.membership),
    };
    match list.write(entry, None) {
        Ok(_at) => list.set_up(set_up.voters),
        Err(_) => unreachable!(),
    }
}

// So it is where it is set up.
fn hear_set_up(list: &mut GroupList, set_up: Option<SetUp>)
    requires { HasRoom list.old 2 2 }
    ensures truth { SetsUp list.old.notes set_up list.new.notes }
    ensures room { (writes learns : ℕ) → HasRoom list.old (suc writes) learns → HasRoom list.new writes learns }
{
    if let Some(set_up) = set_up {
        hear_first(list, set_up);
    }
}

// The node is noted as a leader with its list, which has the entry of the set-up at least.
fn hear_leader(
    list: &mut GroupList,
    node: u64,
    leading: Leading,
    written: Option<EntryPayload<u64, BasicNode, Bytes>>,
)
    requires { HasRoom list.old 1 2 }
    ensures truth { Leads list.old.notes node leading written list.new.notes }
    ensures room { (writes learns : ℕ) → HasRoom list.old (suc writes) (suc learns) → HasRoom list.new writes learns }
{
    let Some(last) = leading.last else {
        return;
    };
    let at = end_of(list, &leading, last, written);
    match list.note(node, leading.vote, at) {
        Ok(()) => {}
        Err(_) => unreachable!(),
    }
}

// So it is where it leads.
fn hear_lead(
    list: &mut GroupList,
    node: u64,
    leading: Option<Leading>,
    written: Option<EntryPayload<u64, BasicNode, Bytes>>,
)
    requires { HasRoom list.old 1 2 }
    ensures truth { MayLead list.old.notes node leading written list.new.notes }
    ensures room { (writes learns : ℕ) → HasRoom list.old (suc writes) (suc learns) → HasRoom list.new writes learns }
{
    if let Some(leading) = leading {
        hear_leader(list, node, leading, written);
    }
}

// What the node's message accepts is noted.
fn hear_acceptance(list: &mut GroupList, node: u64, accepted: Option<Acceptance>)
    requires { HasRoom list.old 0 1 }
    ensures truth { Accepts list.old.notes node accepted list.new.notes }
    ensures room { (writes learns : ℕ) → HasRoom list.old writes (suc learns) → HasRoom list.new writes learns }
{
    match accepted {
        Some(accepted) => match list.accept(node, accepted.vote, accepted.last) {
            Ok(()) => {}
            Err(_) => unreachable!(),
        },
        None => {}
    }
}

/// The list goes on with what is heard of one event. Room was found before it, so it can't fail; it takes two of each kind of that
/// at most.
pub fn hear(list: &mut GroupList, report: GroupReport)
    requires { HasRoom list.old 2 2 }
    ensures hears { Hears list.old.notes report list.new.notes }
    ensures ahead { HearsAhead list.old.notes report list.new.notes }
    ensures set_up { HearsSetUp list.old.notes report list.new.notes }
    ensures room { (writes learns : ℕ) → HasRoom list.old (suc (suc writes)) (suc (suc learns)) → HasRoom list.new writes learns }
{
    let GroupReport {
        node,
        set_up,
        leading,
        written,
        accepted,
    } = report;
    hear_set_up(list, set_up);
    hear_lead(list, node, leading, written);
    hear_acceptance(list, node, accepted);
}
