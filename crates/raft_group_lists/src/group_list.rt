//! The list of one group.
ghost use Rattle.std.specs.Prelude.{◌≡◌, ⊤, ◌<◌, ◌++◌, ◌∷◌, ℕ, suc, List, [], Some, IfOk, IsOk, OnErr, OnOk, MatchOption, length, slice_get};
ghost use Rattle.std.specs.Option.{option_copied};
ghost use Rattle.raft_group_step.specs.Values.{Entry as ListEntry, Membership as ListMembership};
ghost use Rattle.raft_group_step.specs.Message.{Message};
ghost use Rattle.raft_laws.specs.GroupWorld.{GroupWorld, Led, new_world};
ghost use Rattle.raft_list_laws.specs.Accounts.{AreTrue, PartsAreFronts};
ghost use Rattle.raft_list_laws.specs.Changes.{with_message, with_note, with_setup};
ghost use Rattle.raft_group_lists.specs.Notes.{EndsWith, HasNoId, IsEnded, IsNotedAt, IsWithin, IsWrittenAt, accounts_of, list_to, membership_in, no_notes};
ghost use Rattle.raft_group_lists.specs.Facts.{AcceptsUpTo, IsNoteOf, own_place};
ghost use Rattle.raft_group_lists.specs.Room.{HasRoom};

use crate::leads::last_of;
use crate::notes::{Lead, Noted, Reached};
use crate::room::{make_spares, widen};
use crate::settle::learn_under;
use crate::walks::{count_to, find_noted, membership_to};
use raft_quorums::voter_groups::VoterGroups;
use raft_state::{BasicNode, Bytes, Entry, LeaderId, LogId, Membership, Vote};
use std::alloc::{AllocError, Global};
use std::marker::Model;

/// The list of a group, and what is kept so that it grows event by event (own). Contracts see what is noted; `accounts_of` says
/// what it stands for.
#[derive(Drop)]
pub struct GroupList {
    alloc: Global,
    voters: VoterGroups<u64>,
    noted: Vec<Noted>,
    leads: Vec<Lead>,
    listed: Vec<usize>,
    // Kept for new votes, so that they take no memory.
    spares: Vec<Vec<Reached>>,
}

impl Model for GroupList {
    ghost use Rattle.raft_group_lists.specs.Notes.{AreWhole, notes_of};
    ghost use Rattle.raft_group_lists.specs.Room.{AreSpares, Kept, kept_of};

    ghost Value = { Kept };

    ghost view = { λ x. kept_of x.voters x.noted x.leads x.listed x.spares };

    ghost invariant = { λ x. AreWhole (notes_of x.voters x.noted.items x.leads.items x.listed.items) × AreSpares x.spares.items };
}

// The place of a log id, if it is the leader's own.
fn own_place(id: &LogId<u64>, leader: &LeaderId<u64>) -> Option<u64>
    ensures { result ≡ own_place id.now leader.now }
{
    if id.leader_id == *leader {
        Some(id.index)
    } else {
        None
    }
}

impl GroupList {
    /// Nothing is noted yet: true of a group's nodes before their first event. Takes no memory.
    pub fn new(alloc: Global) -> GroupList
        ensures truth { (ids : List ℕ) → AreTrue (accounts_of result.notes) (new_world ids) }
        ensures noted { result.notes.noted ≡ [] }
        ensures notes { result.notes ≡ no_notes }
    {
        GroupList {
            alloc,
            voters: VoterGroups::new(alloc),
            noted: Vec::new(alloc),
            leads: Vec::new(alloc),
            listed: Vec::new(alloc),
            spares: Vec::new(alloc),
        }
    }

    /// The group is set up with these voter groups, before anyone led.
    pub fn set_up(&mut self, voters: VoterGroups<u64>)
        ensures truth { (w : GroupWorld) (m : ListMembership) → AreTrue (accounts_of self.old.notes) w → w.led ≡ []
            → m.configs ≡ voters → AreTrue (accounts_of self.new.notes) (with_setup w m) }
        ensures noted { self.new.notes.noted ≡ self.old.notes.noted }
        ensures room { (writes learns : ℕ) → HasRoom self.old writes learns → HasRoom self.new writes learns }
    {
        self.voters = voters;
    }

    /// Finds memory: behind an `Ok` so many entries can be written, and so many notes and acceptances taken, also where all of them
    /// are under new votes. One event asks for two of each. An `Err` is want of memory. Whatever the result, the same is noted, and
    /// no room is lost.
    pub fn make_room(&mut self, count: usize) -> Result<(), AllocError>
        ensures ok { OnOk result (HasRoom self.new count count) }
        ensures accounts { accounts_of self.new.notes ≡ accounts_of self.old.notes }
        ensures noted { self.new.notes.noted ≡ self.old.notes.noted }
        ensures keeps { (writes learns : ℕ) → HasRoom self.old writes learns → HasRoom self.new writes learns }
    {
        self.noted.reserve(count)?;
        let all = self.noted.len() + count;
        self.listed.reserve(all.saturating_sub(self.listed.len()))?;
        self.leads.reserve(count)?;
        make_spares(self.alloc, &mut self.spares, count)?;
        widen(self.leads.as_mut_slice(), count)?;
        Ok(())
    }

    /// How many entries the list has.
    pub fn len(&self) -> usize
        ensures { result ≡ length (accounts_of self.now.notes).list }
    {
        self.listed.len()
    }

    /// The entry at this place, lent; none past the end of the list.
    pub fn get(&self, place: usize) -> Option<&Entry<u64, BasicNode, Bytes>>
        ensures { option_copied result ≡ slice_get (accounts_of self.now.notes).list place }
    {
        match self.listed.get(place) {
            Some(at) => Some(&self.noted[*at].entry),
            None => None,
        }
    }

    /// Where the last entry of the list is noted that the vote's leader had when it was noted last; none where it never was.
    pub fn last_of(&self, vote: &Vote<u64>) -> Option<usize>
        ensures within { IsWithin self.now.notes.noted result }
        ensures list { list_to self.now.notes.noted result ≡ (accounts_of self.now.notes).latest vote.now }
        ensures ends { MatchOption result ((accounts_of self.now.notes).latest vote.now ≡ []) (λ at. IsEnded (list_to self.now.notes.noted (Some at))) }
    {
        last_of(self.leads.as_slice(), vote)
    }

    /// Where an entry of this log id was noted last; none if none is noted.
    pub fn find(&self, id: &LogId<u64>) -> Option<usize>
        ensures noted { MatchOption result (HasNoId self.now.notes.noted id.now) (IsNotedAt self.now.notes.noted id.now) }
        ensures ends { MatchOption result ⊤ (λ at. EndsWith (list_to self.now.notes.noted (Some at)) id.now) }
    {
        find_noted(self.noted.as_slice(), id)
    }

    /// The log id of the entry that is noted there, with which that leader's list ends.
    pub fn id_at(&self, at: usize) -> LogId<u64>
        requires { at < length self.now.notes.noted }
        ensures noted { IsNotedAt self.now.notes.noted result at }
        ensures ends { EndsWith (list_to self.now.notes.noted (Some at)) result }
    {
        self.noted[at].entry.log_id
    }

    /// The last membership of the list that ends with the entry that is noted there, lent; none if it has none.
    pub fn membership_at(&self, at: usize) -> Option<&Membership<u64, BasicNode>>
        requires { at < length self.now.notes.noted }
        ensures { option_copied result ≡ membership_in (list_to self.now.notes.noted (Some at)) }
    {
        membership_to(self.noted.as_slice(), Some(at))
    }

    /// An entry that a leader wrote behind the one that is noted there, or as the first of its list; answered is where it is
    /// noted. What leaders had stays as it was until one is noted with it. An `Err` is want of memory, and changes nothing.
    pub fn write(
        &mut self,
        entry: Entry<u64, BasicNode, Bytes>,
        before: Option<usize>,
    ) -> Result<usize, AllocError>
        requires { IsWithin self.old.notes.noted before }
        ensures truth { (w : GroupWorld) → AreTrue (accounts_of self.old.notes) w → AreTrue (accounts_of self.new.notes) w }
        ensures within { IfOk result (λ at. at < length self.new.notes.noted) }
        ensures list { IfOk result (λ at. list_to self.new.notes.noted (Some at) ≡ list_to self.old.notes.noted before ++ entry ∷ []) }
        ensures others { (at : ℕ) → at < length self.old.notes.noted → list_to self.new.notes.noted (Some at) ≡ list_to self.old.notes.noted (Some at) }
        ensures noted { IfOk result (λ at. IsWrittenAt self.old.notes.noted entry at self.new.notes.noted) }
        ensures err { OnErr result (self.new ≡ self.old) }
        ensures room { (writes learns : ℕ) → HasRoom self.old (suc writes) learns → IsOk result × HasRoom self.new writes learns }
    {
        let at = self.noted.len();
        let count = count_to(self.noted.as_slice(), before) + 1;
        self.noted.reserve(1)?;
        self.noted.push_reserved(Noted {
            entry,
            before,
            count,
        });
        Ok(at)
    }

    /// A node led under the vote, with the list whose last entry is noted there; the group's list goes on with what that settles.
    /// An `Err` is want of memory: then what is noted is as true of the world before as it was.
    pub fn note(&mut self, node: u64, vote: Vote<u64>, last: usize) -> Result<(), AllocError>
        requires { last < length self.old.notes.noted }
        ensures truth { OnOk result ((w : GroupWorld) (l : Led) (list : List ListEntry) → AreTrue (accounts_of self.old.notes) w
            → IsNoteOf self.old.notes node vote last l → PartsAreFronts list (with_note w l) → AreTrue (accounts_of self.new.notes) (with_note w l)) }
        ensures noted { self.new.notes.noted ≡ self.old.notes.noted }
        ensures err { OnErr result ((w : GroupWorld) → AreTrue (accounts_of self.old.notes) w → AreTrue (accounts_of self.new.notes) w) }
        ensures room { (writes learns : ℕ) → HasRoom self.old writes (suc learns) → IsOk result × HasRoom self.new writes learns }
    {
        let place = own_place(&self.noted[last].entry.log_id, &vote.leader_id);
        learn_under(
            self.alloc,
            &self.voters,
            self.noted.as_slice(),
            &mut self.spares,
            &mut self.leads,
            &mut self.listed,
            node,
            &vote,
            Some(last),
            place,
        )?;
        Ok(())
    }

    /// A node sent that it has accepted, under the vote, all up to this log id; the group's list goes on with what that settles.
    /// An `Err` is want of memory: then what is noted is as true of the world before as it was.
    pub fn accept(&mut self, node: u64, vote: Vote<u64>, last: LogId<u64>) -> Result<(), AllocError>
        ensures truth { OnOk result ((w : GroupWorld) (m : Message) (list : List ListEntry) → AreTrue (accounts_of self.old.notes) w
            → AcceptsUpTo node vote last m → PartsAreFronts list (with_message w m) → AreTrue (accounts_of self.new.notes) (with_message w m)) }
        ensures noted { self.new.notes.noted ≡ self.old.notes.noted }
        ensures err { OnErr result ((w : GroupWorld) → AreTrue (accounts_of self.old.notes) w → AreTrue (accounts_of self.new.notes) w) }
        ensures room { (writes learns : ℕ) → HasRoom self.old writes (suc learns) → IsOk result × HasRoom self.new writes learns }
    {
        let place = own_place(&last, &vote.leader_id);
        learn_under(
            self.alloc,
            &self.voters,
            self.noted.as_slice(),
            &mut self.spares,
            &mut self.leads,
            &mut self.listed,
            node,
            &vote,
            None,
            place,
        )?;
        Ok(())
    }
}
