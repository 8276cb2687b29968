//! What is noted under each vote.
ghost use Rattle.std.specs.Prelude.{◌≡◌, ◌≤◌, ◌||◌, ◌&&◌, ◌==◌, ◌⊎◌, ℕ, suc, [], None, Some, length, slice_get, vec_capacity, IfOk, IsOk, MatchOption};
ghost use Rattle.raft_group_lists.specs.declared.notes.Lead.{Lead as NotedLead};
ghost use Rattle.raft_group_lists.specs.Notes.{IsLeadAt, IsSpot, SameLead, SameLeads, has_reached, last_in, lead_in, reaches};
ghost use Rattle.raft_group_lists.specs.Room.{AreSpares, CanLearn, EachHolds, HasPlace, HasSpace};

use crate::notes::{Lead, Reached};
use raft_state::Vote;
use std::alloc::{AllocError, Global};

// Where the vote is noted last, if it is.
fn find_lead(leads: &[Lead], vote: &Vote<u64>) -> Option<usize>
    ensures { MatchOption result (lead_in leads.now vote.now ≡ None) (λ at. IsLeadAt leads.now vote.now at) }
{
    let mut left = leads.len();
    while left > 0 {
        left -= 1;
        if leads[left].vote == *vote {
            return Some(left);
        }
    }
    None
}

// Where the list ends that is noted under the vote.
pub(crate) fn last_of(leads: &[Lead], vote: &Vote<u64>) -> Option<usize>
    ensures { result ≡ last_in (lead_in leads.now vote.now) }
{
    match find_lead(leads, vote) {
        Some(at) => leads[at].last,
        None => None,
    }
}

// A spare vector, or a new one that takes no memory where there is none.
fn spare_or_new(alloc: Global, spares: &mut Vec<Vec<Reached>>) -> Vec<Reached>
    requires { AreSpares spares.old.items }
    ensures empty { result.items ≡ [] }
    ensures spares { AreSpares spares.new.items }
    ensures left { (n size : ℕ) → suc n ≤ length spares.old.items → EachHolds spares.old.items size
        → (size ≤ vec_capacity result) × (n ≤ length spares.new.items) × EachHolds spares.new.items size }
{
    match spares.pop() {
        Some(spare) => spare,
        None => Vec::new(alloc),
    }
}

// Where the vote is noted; one that isn't is noted now, with nothing under it. An `Err` is want of memory.
pub(crate) fn lead_at(
    alloc: Global,
    spares: &mut Vec<Vec<Reached>>,
    leads: &mut Vec<Lead>,
    vote: &Vote<u64>,
) -> Result<usize, AllocError>
    requires { AreSpares spares.old.items }
    ensures found { IfOk result (λ at. IsLeadAt leads.new.items vote.now at) }
    ensures same { SameLeads leads.old.items leads.new.items }
    ensures lasts { (i : ℕ) (lead : NotedLead) → slice_get leads.new.items i ≡ Some lead → (slice_get leads.old.items i ≡ Some lead) ⊎ (lead.last ≡ None) }
    ensures spares { AreSpares spares.new.items }
    ensures room { (n : ℕ) → CanLearn leads.old.items (vec_capacity leads.old) spares.old.items (suc n)
        → IsOk result × HasPlace leads.new.items (vec_capacity leads.new) spares.new.items n }
{
    match find_lead(leads.as_slice(), vote) {
        Some(at) => Ok(at),
        None => {
            leads.reserve(1)?;
            let at = leads.len();
            let reached = spare_or_new(alloc, spares);
            leads.push_reserved(Lead {
                vote: *vote,
                last: None,
                reached,
            });
            Ok(at)
        }
    }
}

// Where it is noted how far the node has accepted; for a node that isn't noted yet, nowhere. An `Err` is want of memory.
pub(crate) fn spot_of(lead: &mut Lead, node: u64) -> Result<usize, AllocError>
    ensures found { IfOk result (λ at. IsSpot lead.new.reached.items node at) }
    ensures same { SameLead lead.old lead.new }
    ensures room { HasSpace lead.old.reached 1 → IsOk result }
    ensures space { (n : ℕ) → HasSpace lead.old.reached (suc n) → HasSpace lead.new.reached n }
{
    match lead.reached.iter().position(|one| one.node == node) {
        Some(at) => Ok(at),
        None => {
            let at = lead.reached.len();
            lead.reached.push(Reached { node, place: None })?;
            Ok(at)
        }
    }
}

// The greater of two places.
fn greater(one: Option<u64>, other: Option<u64>) -> Option<u64>
    ensures { (place : ℕ) → reaches result place ≡ (reaches one place || reaches other place) }
{
    match (one, other) {
        (Some(a), Some(b)) if a < b => Some(b),
        (Some(a), _) => Some(a),
        (None, _) => other,
    }
}

// The leader's list ends there, and the node has accepted up to this place.
pub(crate) fn learn(
    lead: &mut Lead,
    spot: usize,
    node: u64,
    last: Option<usize>,
    place: Option<u64>,
)
    requires { IsSpot lead.old.reached.items node spot }
    ensures vote { lead.new.vote ≡ lead.old.vote }
    ensures last { lead.new.last ≡ last }
    ensures reached { (at n : ℕ) → has_reached lead.new.reached.items at n ≡ (has_reached lead.old.reached.items at n || (node == n && reaches place at)) }
    ensures space { (n : ℕ) → HasSpace lead.old.reached n → HasSpace lead.new.reached n }
{
    lead.last = last;
    let one = &mut lead.reached[spot];
    one.place = greater(one.place, place);
}
