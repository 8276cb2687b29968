//! The group's list goes on with what is settled.
ghost use Rattle.std.specs.Prelude.{◌≡◌, ◌&&◌, ◌==◌, ◌||◌, ◌++◌, ◌<◌, ◌≤◌, ℕ, suc, Some, drop, length, vec_capacity, IsOk, OnErr, OnOk};
ghost use Rattle.raft_list_laws.specs.Changes.{GoesOn};
ghost use Rattle.raft_group_lists.specs.Notes.{AreJoined, AreWhole, AreWithin, IsWithin, Learns, SameLead, SameLeads, count_to};
ghost use Rattle.raft_group_lists.specs.Notes.{entries_at, has_reached, is_settled, list_to, notes_of, passes, reaches, settled_by};
ghost use Rattle.raft_group_lists.specs.Room.{AreSpares, CanLearn, HasSpace};

use crate::judge::Judge;
use crate::leads::{lead_at, learn, spot_of};
use crate::notes::{Lead, Noted, Reached};
use crate::walks::{fill_above, settled_at};
use raft_quorums::voter_groups::VoterGroups;
use raft_state::Vote;
use std::alloc::{AllocError, Global};

// The list takes over what stands behind it in a leader's list that ends there. An `Err` is want of memory, and changes nothing.
fn go_on(noted: &[Noted], listed: &mut Vec<usize>, last: usize) -> Result<(), AllocError>
    requires joined { AreJoined noted.now }
    requires within { last < length noted.now }
    requires above { length listed.old.items ≤ count_to noted.now (Some last) }
    requires listed { AreWithin noted.now listed.old.items }
    ensures ok { OnOk result (entries_at noted.now listed.new.items ≡ entries_at noted.now listed.old.items ++ drop (length listed.old.items) (list_to noted.now (Some last))) }
    ensures within { AreWithin noted.now listed.new.items }
    ensures err { OnErr result (listed.new.items ≡ listed.old.items) }
    ensures capacity { vec_capacity listed.old ≤ vec_capacity listed.new }
    ensures room { count_to noted.now (Some last) ≤ vec_capacity listed.old → IsOk result }
{
    let floor = listed.len();
    listed.resize(noted[last].count, last)?;
    fill_above(noted, listed.as_mut_slice(), last, floor);
    Ok(())
}

// The list goes on with what is settled then of a leader's list that ends there. An `Err` is want of memory, and changes nothing.
fn settle(
    noted: &[Noted],
    listed: &mut Vec<usize>,
    last: Option<usize>,
    judge: &Judge<'_>,
) -> Result<(), AllocError>
    requires joined { AreJoined noted.now }
    requires within { IsWithin noted.now last }
    requires listed { AreWithin noted.now listed.old.items }
    ensures ok { OnOk result (GoesOn (entries_at noted.now listed.old.items)
        (settled_by (passes judge.now.voters.now judge.now.leader judge.now.reached.now judge.now.node judge.now.place) (list_to noted.now last)) (entries_at noted.now listed.new.items)) }
    ensures within { AreWithin noted.now listed.new.items }
    ensures err { OnErr result (listed.new.items ≡ listed.old.items) }
    ensures capacity { vec_capacity listed.old ≤ vec_capacity listed.new }
    ensures room { length noted.now ≤ vec_capacity listed.old → IsOk result }
{
    match settled_at(noted, last, judge, listed.len()) {
        Some(at) => {
            go_on(noted, listed, at)?;
            Ok(())
        }
        None => Ok(()),
    }
}

// The leader's list ends there, and the node has accepted up to this place; the group's list goes on with what that settles.
// An `Err` is want of memory: then the list is as before, and under the vote nothing is noted that wasn't.
pub(crate) fn learn_at(
    voters: &VoterGroups<u64>,
    noted: &[Noted],
    lead: &mut Lead,
    listed: &mut Vec<usize>,
    node: u64,
    last: Option<usize>,
    place: Option<u64>,
) -> Result<(), AllocError>
    requires joined { AreJoined noted.now }
    requires within { IsWithin noted.now last }
    requires listed { AreWithin noted.now listed.old.items }
    ensures vote { lead.new.vote ≡ lead.old.vote }
    ensures last { OnOk result (lead.new.last ≡ last) }
    ensures reached { OnOk result ((at n : ℕ) → has_reached lead.new.reached.items at n ≡ (has_reached lead.old.reached.items at n || (node == n && reaches place at))) }
    ensures list { OnOk result (GoesOn (entries_at noted.now listed.old.items) (settled_by (is_settled voters.now lead.new) (list_to noted.now last)) (entries_at noted.now listed.new.items)) }
    ensures within { AreWithin noted.now listed.new.items }
    ensures same { OnErr result (SameLead lead.old lead.new) }
    ensures err { OnErr result (listed.new.items ≡ listed.old.items) }
    ensures capacity { vec_capacity listed.old ≤ vec_capacity listed.new }
    ensures room { length noted.now ≤ vec_capacity listed.old → HasSpace lead.old.reached 1 → IsOk result }
    ensures space { (n : ℕ) → HasSpace lead.old.reached (suc n) → HasSpace lead.new.reached n }
{
    let spot = spot_of(lead, node)?;
    let judge = Judge {
        voters,
        leader: lead.vote.leader_id,
        reached: lead.reached.as_slice(),
        node,
        place,
    };
    settle(noted, listed, last, &judge)?;
    learn(lead, spot, node, last, place);
    Ok(())
}

// Under the vote, the leader's list ends there, or where it did where nothing is said of it, and the node has accepted up to this
// place; the group's list goes on with what that settles. An `Err` is want of memory: then the same is noted.
pub(crate) fn learn_under(
    alloc: Global,
    voters: &VoterGroups<u64>,
    noted: &[Noted],
    spares: &mut Vec<Vec<Reached>>,
    leads: &mut Vec<Lead>,
    listed: &mut Vec<usize>,
    node: u64,
    vote: &Vote<u64>,
    last: Option<usize>,
    place: Option<u64>,
) -> Result<(), AllocError>
    requires whole { AreWhole (notes_of voters.now noted.now leads.old.items listed.old.items) }
    requires within { IsWithin noted.now last }
    requires spares { AreSpares spares.old.items }
    ensures whole { AreWhole (notes_of voters.now noted.now leads.new.items listed.new.items) }
    ensures ok { OnOk result (Learns (notes_of voters.now noted.now leads.old.items listed.old.items) node vote.now last place (notes_of voters.now noted.now leads.new.items listed.new.items)) }
    ensures err { OnErr result (SameLeads leads.old.items leads.new.items × (listed.new.items ≡ listed.old.items)) }
    ensures spares { AreSpares spares.new.items }
    ensures capacity { vec_capacity listed.old ≤ vec_capacity listed.new }
    ensures room { (n : ℕ) → length noted.now ≤ vec_capacity listed.old → CanLearn leads.old.items (vec_capacity leads.old) spares.old.items (suc n)
        → IsOk result × CanLearn leads.new.items (vec_capacity leads.new) spares.new.items n }
{
    let at = lead_at(alloc, spares, leads, vote)?;
    let lead = &mut leads[at];
    let end = match last {
        Some(_) => last,
        None => lead.last,
    };
    learn_at(voters, noted, lead, listed, node, end, place)?;
    Ok(())
}
