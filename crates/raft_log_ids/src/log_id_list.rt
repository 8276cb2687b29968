//! The ids of a log, kept by few of them.
ghost use Rattle.std.specs.Prelude.{map, IsTrue, ◌↔◌, ◌≡◌, ◌+◌, ◌-◌, ◌<◌, ◌≤◌, [], ℕ, length, OnOk, OnErr, IfOk, slice_index_or};
ghost use Rattle.std.specs.List.{slice_get};
ghost use Rattle.std.specs.Option.{option_copied};
ghost use Rattle.raft_log_ids.specs.LogIdList.{ids_of, last_id, id_at, appended, truncated, purged, PlacesRise, AreKeys, GoesOn};
ghost use Rattle.raft_log_ids.specs.LogIdList.{Reaches, ends_in_pair, keys_of, last_run, extended, AllGoOn, IsBelowNext, ChangesLeader};
ghost use Rattle.raft_log_ids.specs.LogIdList.{HaveOneLeader, KeepsFront, with_end, HasFewerKeys};

use crate::kept_vec::KeptVec;
use crate::raft_log_id::RaftLogId;
use raft_values::log_id::LogId;
use raft_values::node::NodeId;
use std::alloc::{AllocError, Global};
use std::cmp::Ordering;
use std::marker::Model;

/// The ids of a log (openraft). It keeps the first log id of each run of one leader and the last one
/// of all. Contracts see the full list, by rising index without a gap. Its leaders may fall (own),
/// since a peer's frames may bring any.
#[derive(Drop)]
pub struct LogIdList<NID: NodeId> {
    key_log_ids: KeptVec<LogId<NID>>,
}

impl<NID: NodeId> Model for LogIdList<NID> {
    ghost use Rattle.std.specs.Prelude.{List};
    ghost use Rattle.raft_values.specs.declared.log_id.LogId.{LogId};
    ghost use Rattle.raft_log_ids.specs.LogIdList.{ids_of, AreKeys};

    ghost Value = { List (LogId NID) };

    ghost view = { λ s. ids_of s.key_log_ids };

    ghost invariant = { λ s. AreKeys NID.cmp s.key_log_ids };
}

// How many of the keys stand at the place or below it, where their places rise: found by halving.
fn count_up_to<NID: NodeId>(keys: &[LogId<NID>], index: u64) -> usize
    ensures within { result ≤ length keys.now }
    ensures below { PlacesRise keys.now → (k : ℕ) (d : _) → k < result → (slice_index_or keys.now k d).index ≤ index }
    ensures above { PlacesRise keys.now → (d : _) → result < length keys.now → index < (slice_index_or keys.now result d).index }
{
    keys.partition_point(|key| key.index <= index)
}

// Whether the last two keys have one leader: then the last one begins no leader.
fn ends_in_pair<NID: NodeId>(keys: &[LogId<NID>]) -> bool
    ensures { result ≡ ends_in_pair NID.cmp keys.now }
{
    match keys {
        [.., before, last] => before.leader_id.cmp(&last.leader_id).is_eq(),
        _ => false,
    }
}

fn append_key<NID: NodeId>(keys: &mut KeptVec<LogId<NID>>, id: LogId<NID>) -> Result<(), AllocError>
    requires keys { AreKeys NID.cmp keys.old }
    requires goes_on { GoesOn (last_id keys.old) id }
    ensures ok { OnOk result (ids_of keys.new ≡ appended (ids_of keys.old) id) }
    ensures err { OnErr result (keys.new ≡ keys.old) }
    ensures only { OnErr result (HasFewerKeys NID.cmp (ids_of keys.old) (appended (ids_of keys.old) id)) }
    ensures keys { AreKeys NID.cmp keys.new }
    ensures front { KeepsFront keys.old keys.new }
{
    if ends_in_pair(keys.as_slice()) {
        let last = keys.len() - 1;
        keys.set(last, id);
        return Ok(());
    }
    keys.push(id)?;
    Ok(())
}

// Puts the log ids behind the others, one after the other. Where memory is refused, some of them
// are there, and the last key before them may be another one.
fn append_keys<NID: NodeId, LID: RaftLogId<NID>>(
    keys: &mut KeptVec<LogId<NID>>,
    new_ids: &[LID],
) -> Result<(), AllocError>
    requires keys { AreKeys NID.cmp keys.old }
    requires go_on { AllGoOn (last_id keys.old) (map LID.id new_ids.now) }
    ensures ok { OnOk result (ids_of keys.new ≡ extended (ids_of keys.old) (map LID.id new_ids.now)) }
    ensures only { OnErr result (HasFewerKeys NID.cmp (ids_of keys.old) (extended (ids_of keys.old) (map LID.id new_ids.now))) }
    ensures keys { AreKeys NID.cmp keys.new }
    ensures front { KeepsFront keys.old keys.new }
{
    for new_id in new_ids {
        append_key(keys, *new_id.get_log_id())?;
    }
    Ok(())
}

// The same for log ids of one leader, of which the first and the last one tell all.
fn append_ends<NID: NodeId, LID: RaftLogId<NID>>(
    keys: &mut KeptVec<LogId<NID>>,
    new_ids: &[LID],
) -> Result<(), AllocError>
    requires keys { AreKeys NID.cmp keys.old }
    requires go_on { AllGoOn (last_id keys.old) (map LID.id new_ids.now) }
    requires one_leader { HaveOneLeader (map LID.id new_ids.now) }
    ensures ok { OnOk result (ids_of keys.new ≡ extended (ids_of keys.old) (map LID.id new_ids.now)) }
    ensures only { OnErr result (HasFewerKeys NID.cmp (ids_of keys.old) (extended (ids_of keys.old) (map LID.id new_ids.now))) }
    ensures keys { AreKeys NID.cmp keys.new }
    ensures front { KeepsFront keys.old keys.new }
{
    if new_ids.is_empty() {
        return Ok(());
    }
    let first = *new_ids[0].get_log_id();
    let last = *new_ids[new_ids.len() - 1].get_log_id();
    append_key(keys, first)?;
    if new_ids.len() == 1 {
        return Ok(());
    }
    append_key(keys, last)?;
    Ok(())
}

// Leaves so many keys, of which the last one is this.
fn put_back<NID: NodeId>(keys: &mut KeptVec<LogId<NID>>, kept: usize, last: Option<LogId<NID>>)
    requires { kept ≤ length keys.old }
    ensures { keys.new ≡ with_end keys.old kept last }
{
    keys.truncate(kept);
    if let Some(last) = last {
        if kept > 0 {
            keys.set(kept - 1, last);
        }
    }
}

fn extend_keys<NID: NodeId, LID: RaftLogId<NID>>(
    keys: &mut KeptVec<LogId<NID>>,
    new_ids: &[LID],
) -> Result<(), AllocError>
    requires keys { AreKeys NID.cmp keys.old }
    requires go_on { AllGoOn (last_id keys.old) (map LID.id new_ids.now) }
    ensures ok { OnOk result (ids_of keys.new ≡ extended (ids_of keys.old) (map LID.id new_ids.now)) }
    ensures err { OnErr result (keys.new ≡ keys.old) }
    ensures only { OnErr result (HasFewerKeys NID.cmp (ids_of keys.old) (extended (ids_of keys.old) (map LID.id new_ids.now))) }
    ensures keys { AreKeys NID.cmp keys.new }
{
    let kept = keys.len();
    let last = keys.as_slice().last().copied();
    match append_keys(keys, new_ids) {
        Ok(()) => Ok(()),
        Err(refused) => {
            put_back(keys, kept, last);
            Err(refused)
        }
    }
}

fn extend_ends<NID: NodeId, LID: RaftLogId<NID>>(
    keys: &mut KeptVec<LogId<NID>>,
    new_ids: &[LID],
) -> Result<(), AllocError>
    requires keys { AreKeys NID.cmp keys.old }
    requires go_on { AllGoOn (last_id keys.old) (map LID.id new_ids.now) }
    requires one_leader { HaveOneLeader (map LID.id new_ids.now) }
    ensures ok { OnOk result (ids_of keys.new ≡ extended (ids_of keys.old) (map LID.id new_ids.now)) }
    ensures err { OnErr result (keys.new ≡ keys.old) }
    ensures only { OnErr result (HasFewerKeys NID.cmp (ids_of keys.old) (extended (ids_of keys.old) (map LID.id new_ids.now))) }
    ensures keys { AreKeys NID.cmp keys.new }
{
    let kept = keys.len();
    let last = keys.as_slice().last().copied();
    match append_ends(keys, new_ids) {
        Ok(()) => Ok(()),
        Err(refused) => {
            put_back(keys, kept, last);
            Err(refused)
        }
    }
}

// The log id that the keys tell at a place.
fn id_by_keys<NID: NodeId>(keys: &[LogId<NID>], index: u64) -> Option<LogId<NID>>
    requires { PlacesRise keys.now }
    ensures { result ≡ id_at (ids_of keys.now) index }
{
    let count = count_up_to(keys, index);
    if count == 0 {
        return None;
    }
    let key = keys[count - 1];
    if count < keys.len() {
        return Some(LogId::new(key.leader_id, index));
    }
    if key.index == index { Some(key) } else { None }
}

// Leaves the log ids below the place. The leader of the last key left goes on up to there.
fn truncate_keys<NID: NodeId>(keys: &mut KeptVec<LogId<NID>>, at: u64)
    requires { AreKeys NID.cmp keys.old }
    ensures ids { ids_of keys.new ≡ truncated (ids_of keys.old) at }
    ensures keys { AreKeys NID.cmp keys.new }
{
    if at == 0 {
        keys.clear();
        return;
    }
    let count = count_up_to(keys.as_slice(), at - 1);
    if count == 0 {
        keys.clear();
        return;
    }
    if count == keys.len() {
        return;
    }
    let key = keys.as_slice()[count - 1];
    if key.index < at - 1 {
        keys.set(count, LogId::new(key.leader_id, at - 1));
        keys.truncate(count + 1);
        return;
    }
    keys.truncate(count);
}

// Leaves the log ids from the place of `upto` on, which isn't past the last one.
fn drop_keys<NID: NodeId>(keys: &mut KeptVec<LogId<NID>>, upto: &LogId<NID>)
    requires keys { AreKeys NID.cmp keys.old }
    requires reaches { Reaches (last_id keys.old) upto.now.index }
    ensures ids { ids_of keys.new ≡ purged (ids_of keys.old) upto.now }
    ensures keys { AreKeys NID.cmp keys.new }
{
    let count = count_up_to(keys.as_slice(), upto.index);
    if count == 0 {
        return;
    }
    let first = count - 1;
    let key = keys.as_slice()[first];
    keys.set(first, LogId::new(key.leader_id, upto.index));
    keys.drop_front(first);
}

fn purge_keys<NID: NodeId>(
    keys: &mut KeptVec<LogId<NID>>,
    upto: &LogId<NID>,
) -> Result<(), AllocError>
    requires { AreKeys NID.cmp keys.old }
    ensures ok { OnOk result (ids_of keys.new ≡ purged (ids_of keys.old) upto.now) }
    ensures err { OnErr result (keys.new ≡ keys.old) }
    ensures only { OnErr result (keys.old ≡ []) }
    ensures keys { AreKeys NID.cmp keys.new }
{
    let Some(last) = keys.as_slice().last().copied() else {
        keys.push(*upto)?;
        return Ok(());
    };
    if upto.index <= last.index {
        drop_keys(keys, upto);
        return Ok(());
    }
    keys.set(0, *upto);
    keys.truncate(1);
    Ok(())
}

// Whether the key may stand before these.
fn leads_on<NID: NodeId>(key: &LogId<NID>, keys: &[LogId<NID>]) -> bool
    ensures { IsTrue result ↔ (IsBelowNext key.now keys.now × ChangesLeader NID.cmp key.now keys.now) }
{
    match keys {
        [] => true,
        [last] => key.index < last.index,
        [next, ..] => key.index < next.index && key.leader_id.cmp(&next.leader_id).is_ne(),
    }
}

/// Whether the log ids are keys: their indexes rise, and neighbours are of different leaders, where
/// only the last two may be of one leader (own). `LogIdList::new` takes just such keys.
pub fn are_keys<NID: NodeId>(keys: &[LogId<NID>]) -> bool
    ensures { IsTrue result ↔ AreKeys NID.cmp keys.now }
{
    for at in 0..keys.len() {
        if !leads_on(&keys[at], &keys[at + 1..]) {
            return false;
        }
    }
    true
}

// The keys of the last run of one leader.
fn keys_of_last_leader<NID: NodeId>(keys: &[LogId<NID>]) -> &[LogId<NID>]
    requires { AreKeys NID.cmp keys.now }
    ensures { result.now ≡ keys_of NID.cmp (last_run NID.cmp (ids_of keys.now)) }
{
    if ends_in_pair(keys) {
        return &keys[keys.len() - 2..];
    }
    if keys.is_empty() {
        return keys;
    }
    &keys[keys.len() - 1..]
}

impl<NID: NodeId> LogIdList<NID> {
    /// The list that these keys stand for; `are_keys` tells whether they are keys.
    pub fn new(alloc: Global, key_log_ids: &[LogId<NID>]) -> Result<LogIdList<NID>, AllocError>
        requires { AreKeys NID.cmp key_log_ids.now }
        ensures { IfOk result (λ list. list ≡ ids_of key_log_ids.now) }
    {
        let key_log_ids = KeptVec::from_slice(alloc, key_log_ids)?;
        Ok(LogIdList { key_log_ids })
    }

    /// The same list again, with the allocator that this one keeps.
    pub fn clone(&self) -> Result<LogIdList<NID>, AllocError>
        ensures { IfOk result (λ list. list ≡ self.now) }
    {
        let alloc = *self.key_log_ids.allocator();
        let key_log_ids = KeptVec::from_slice(alloc, self.key_log_ids.as_slice())?;
        Ok(LogIdList { key_log_ids })
    }

    /// Puts the log ids behind the others, one after the other; places between get the leader
    /// before. Without memory the list stays; none is asked for where no more keys are needed.
    pub fn extend<LID: RaftLogId<NID>>(&mut self, new_ids: &[LID]) -> Result<(), AllocError>
        requires { AllGoOn (last_id self.old) (map LID.id new_ids.now) }
        ensures ok { OnOk result (self.new ≡ extended self.old (map LID.id new_ids.now)) }
        ensures err { OnErr result (self.new ≡ self.old) }
        ensures only { OnErr result (HasFewerKeys NID.cmp self.old (extended self.old (map LID.id new_ids.now))) }
    {
        extend_keys(&mut self.key_log_ids, new_ids)
    }

    /// The same for log ids of one leader, of which only the first and the last one are read.
    /// Without memory the list stays; none is asked for where no more keys are needed.
    pub fn extend_from_same_leader<LID: RaftLogId<NID>>(
        &mut self,
        new_ids: &[LID],
    ) -> Result<(), AllocError>
        requires go_on { AllGoOn (last_id self.old) (map LID.id new_ids.now) }
        requires one_leader { HaveOneLeader (map LID.id new_ids.now) }
        ensures ok { OnOk result (self.new ≡ extended self.old (map LID.id new_ids.now)) }
        ensures err { OnErr result (self.new ≡ self.old) }
        ensures only { OnErr result (HasFewerKeys NID.cmp self.old (extended self.old (map LID.id new_ids.now))) }
    {
        extend_ends(&mut self.key_log_ids, new_ids)
    }

    /// The keys of the last run of one leader: its first log id, and the last one of all.
    pub fn by_last_leader(&self) -> &[LogId<NID>]
        ensures { result.now ≡ keys_of NID.cmp (last_run NID.cmp self.now) }
    {
        keys_of_last_leader(self.key_log_ids.as_slice())
    }

    /// Leaves the log ids below the index.
    pub fn truncate(&mut self, at: u64)
        ensures { self.new ≡ truncated self.old at }
    {
        truncate_keys(&mut self.key_log_ids, at);
    }

    /// Leaves the log ids from the index of `upto` on, so that `upto` is first.
    /// Past the last one it leaves `upto` alone; below the first one it changes nothing.
    /// Only an empty list grows by this; without memory it stays.
    pub fn purge(&mut self, upto: &LogId<NID>) -> Result<(), AllocError>
        ensures ok { OnOk result (self.new ≡ purged self.old upto.now) }
        ensures err { OnErr result (self.new ≡ self.old) }
        ensures only { OnErr result (self.old ≡ []) }
    {
        purge_keys(&mut self.key_log_ids, upto)
    }

    /// The log id at the index, if there is one.
    pub fn get(&self, index: u64) -> Option<LogId<NID>>
        ensures { result ≡ id_at self.now index }
    {
        id_by_keys(self.key_log_ids.as_slice(), index)
    }

    /// No log ids. Takes no memory.
    pub fn default(alloc: Global) -> LogIdList<NID>
        ensures { result ≡ [] }
    {
        LogIdList {
            key_log_ids: KeptVec::new(alloc),
        }
    }

    /// Puts the log id behind the others; places between get the leader of the last one.
    /// Without memory the list stays; none is asked for where no more keys are needed.
    pub fn append(&mut self, new_log_id: LogId<NID>) -> Result<(), AllocError>
        requires { GoesOn (last_id self.old) new_log_id }
        ensures ok { OnOk result (self.new ≡ appended self.old new_log_id) }
        ensures err { OnErr result (self.new ≡ self.old) }
        ensures only { OnErr result (HasFewerKeys NID.cmp self.old (appended self.old new_log_id)) }
    {
        append_key(&mut self.key_log_ids, new_log_id)
    }

    /// The keys: the first log id of each run of one leader, and the last one of all.
    pub fn key_log_ids(&self) -> &[LogId<NID>]
        ensures keys { result.now ≡ keys_of NID.cmp self.now }
        ensures ids { ids_of result.now ≡ self.now }
        ensures order { AreKeys NID.cmp result.now }
    {
        self.key_log_ids.as_slice()
    }

    /// The first log id.
    pub fn first(&self) -> Option<&LogId<NID>>
        ensures { option_copied result ≡ slice_get self.now 0 }
    {
        self.key_log_ids().first()
    }

    /// The last log id.
    pub fn last(&self) -> Option<&LogId<NID>>
        ensures { option_copied result ≡ last_id self.now }
    {
        self.key_log_ids().last()
    }
}
