//! What a leader knows of one peer.
ghost use Rattle.std.specs.Prelude.{◌≡◌, ◌+◌, ◌-◌, ◌*◌, ◌/◌, ◌^◌, ◌<◌, true, false, max, min, nat_lt, None, is_some, Ok, Err, OnErr};
ghost use Rattle.raft_values.specs.LogId.{is_past, next_place};
ghost use Rattle.raft_log_ids.specs.LogIdList.{last_id};
ghost use Rattle.raft_progress.specs.Entry.{next_request, request_start, search_behind};
ghost use Rattle.raft_progress.specs.Faults.{progress_fault, request_fault};
ghost use Rattle.raft_progress.specs.Inflight.{has_request_id, is_past_start, request_id, rest_behind, under_id};

use crate::borrow::Borrow;
use crate::inflight::Inflight;
use crate::invalid_progress::InvalidProgress;
use raft_log_ids::LogStateReader;
use raft_values::{LogId, LogIdOptionExt, NodeId, Validate};
use std::fmt::{self, Display};

/// What a leader knows of a peer (openraft). What is compared of it is `matching`.
#[derive(Clone, Copy, PartialEq, Eq)]
pub struct ProgressEntry<NID> {
    /// The last log id that the peer's log is known to have.
    pub matching: Option<LogId<NID>>,
    /// The id of the last request that was sent; 0 before the first one.
    pub curr_inflight_id: u64,
    /// The request that the peer has not answered yet.
    pub inflight: Inflight<NID>,
    /// The place behind the last one at which the peer's log may be the same.
    pub searching_end: u64,
}

impl<NID: NodeId> ProgressEntry<NID> {
    /// A peer whose log ends at this log id (openraft).
    pub fn new(matching: Option<LogId<NID>>) -> ProgressEntry<NID>
        requires { next_place matching < 2 ^ 64 }
        ensures { result ≡ record { matching = matching; curr_inflight_id = 0; inflight = Inflight.None; searching_end = next_place matching } }
    {
        ProgressEntry {
            matching,
            curr_inflight_id: 0,
            inflight: Inflight::None,
            searching_end: matching.next_index(),
        }
    }

    /// A peer of which nothing is known. The search for the end of its log begins at this place
    /// (openraft).
    pub fn empty(end: u64) -> ProgressEntry<NID>
        ensures { result ≡ record { matching = None; curr_inflight_id = 0; inflight = Inflight.None; searching_end = end } }
    {
        ProgressEntry {
            matching: None,
            curr_inflight_id: 0,
            inflight: Inflight::None,
            searching_end: end,
        }
    }

    /// Whether log ids are on their way that begin no later than this one (openraft).
    pub fn is_log_range_inflight(&self, upto: &LogId<NID>) -> bool
        ensures { result ≡ is_past_start ⟦<LogId<NID> as Ord>⟧.cmp self.now.inflight upto.now }
    {
        match self.inflight {
            Inflight::None | Inflight::Snapshot { .. } => false,
            Inflight::Logs { log_id_range, .. } => log_id_range.prev < Some(*upto),
        }
    }

    /// The peer has accepted all up to this log id. The search goes on behind it at least. An
    /// answer to another request changes nothing (openraft).
    pub fn update_matching(&mut self, request_id: u64, matching: Option<LogId<NID>>)
        requires { next_place matching < 2 ^ 64 }
        ensures mine { has_request_id self.old.inflight request_id ≡ true
            → self.new ≡ record self.old {
              matching = matching;
              inflight = rest_behind ⟦<LogId<NID> as Ord>⟧.cmp self.old.inflight matching;
              searching_end = max self.old.searching_end (next_place matching);
            } }
        ensures other { has_request_id self.old.inflight request_id ≡ false → self.new ≡ self.old }
    {
        if !self.inflight.is_my_id(request_id) {
            return;
        }
        self.inflight.ack(request_id, matching);
        self.matching = matching;
        self.searching_end = self.searching_end.max(matching.next_index());
    }

    /// The peer's log differs at this place: the search goes on before it, unless the log is known
    /// to be the same there. An answer to another request changes nothing (openraft).
    pub fn update_conflicting(&mut self, request_id: u64, conflict: u64)
        requires { next_place self.old.matching < 2 ^ 64 }
        ensures mine { has_request_id self.old.inflight request_id ≡ true
            → self.new ≡ record self.old { inflight = Inflight.None; searching_end = search_behind (next_place self.old.matching) conflict self.old.searching_end } }
        ensures other { has_request_id self.old.inflight request_id ≡ false → self.new ≡ self.old }
    {
        if !self.inflight.is_my_id(request_id) {
            return;
        }
        self.inflight.conflict(request_id);
        if self.matching.next_index() <= conflict {
            self.searching_end = conflict;
        }
    }

    // What goes to the peer next, under the id 0.
    fn next_request<L: LogStateReader<NID>>(&self, log_state: &L, max_entries: u64) -> Inflight<NID>
        requires matching_fits { next_place self.now.matching < 2 ^ 64 }
        requires last_fits { next_place (last_id (L.ids log_state.now)) < 2 ^ 64 }
        requires purged_fits { next_place (L.purged_id log_state.now) < 2 ^ 64 }
        ensures { result ≡ next_request ⟦<LogId<NID> as Ord>⟧.cmp (L.ids log_state.now) (L.purged_id log_state.now) (L.snapshot_id log_state.now)
            max_entries (next_place self.now.matching) self.now.searching_end }
    {
        let first = log_state.last_purged_log_id().copied().next_index();
        if self.searching_end < first {
            return Inflight::snapshot(log_state.snapshot_last_log_id().copied());
        }
        let end = log_state.last_log_id().copied().next_index();
        let start = request_start(first, self.matching.next_index(), self.searching_end);
        let stop = request_end(start, max_entries, end);
        if stop <= start {
            return Inflight::None;
        }
        Inflight::logs(log_state.prev_log_id(start), log_state.prev_log_id(stop))
    }

    /// Begins the next request to the peer and answers it: the snapshot where the search stands
    /// below the log, else at most so many entries from the middle of the search on. As an error
    /// it answers the request that is still on its way, or nothing where there is nothing to send;
    /// then nothing is changed (openraft; here the middle is by steps of eight).
    pub fn next_send<L: LogStateReader<NID>>(
        &mut self,
        log_state: &L,
        max_entries: u64,
    ) -> Result<Inflight<NID>, Inflight<NID>>
        requires matching_fits { next_place self.old.matching < 2 ^ 64 }
        requires last_fits { next_place (last_id (L.ids log_state.now)) < 2 ^ 64 }
        requires purged_fits { next_place (L.purged_id log_state.now) < 2 ^ 64 }
        requires id_fits { self.old.curr_inflight_id + 1 < 2 ^ 64 }
        ensures busy { is_some (request_id self.old.inflight) ≡ true → result ≡ Err self.old.inflight }
        ensures sent { let next = next_request ⟦<LogId<NID> as Ord>⟧.cmp (L.ids log_state.now) (L.purged_id log_state.now) (L.snapshot_id log_state.now)
            max_entries (next_place self.old.matching) self.old.searching_end
            in is_some (request_id self.old.inflight) ≡ false → is_some (request_id next) ≡ true
            → (result ≡ Ok (under_id next (self.old.curr_inflight_id + 1)))
            × (self.new ≡ record self.old { curr_inflight_id = self.old.curr_inflight_id + 1; inflight = under_id next (self.old.curr_inflight_id + 1) }) }
        ensures nothing { is_some (request_id self.old.inflight) ≡ false
            → is_some (request_id (next_request ⟦<LogId<NID> as Ord>⟧.cmp (L.ids log_state.now) (L.purged_id log_state.now) (L.snapshot_id log_state.now)
            max_entries (next_place self.old.matching) self.old.searching_end)) ≡ false
            → result ≡ Err Inflight.None }
        ensures err { OnErr result (self.new ≡ self.old) }
    {
        if !self.inflight.is_none() {
            return Err(self.inflight);
        }
        let next = self.next_request(log_state, max_entries);
        if next.is_none() {
            return Err(Inflight::None);
        }
        self.curr_inflight_id += 1;
        self.inflight = next.with_id(self.curr_inflight_id);
        Ok(self.inflight)
    }
}

// Halfway from where the peer's log is known to be the same to the end of the search, by eights,
// but within the log.
fn request_start(first: u64, next: u64, search: u64) -> u64
    ensures { result ≡ request_start first next search }
{
    first.max(next + search.saturating_sub(next) / 16 * 8)
}

// So many places on, but no further than the end.
fn request_end(start: u64, max_entries: u64, end: u64) -> u64
    ensures { result ≡ min (start + max_entries) end }
{
    start.saturating_add(max_entries).min(end)
}

// Whether the first comes after the second; none comes before all.
fn is_past<NID: NodeId>(first: &Option<LogId<NID>>, second: &Option<LogId<NID>>) -> bool
    ensures { result ≡ is_past NID.cmp first.now second.now }
{
    match (first, second) {
        (None, _) => false,
        (Some(_), None) => true,
        (Some(a), Some(b)) => a.cmp(b).is_gt(),
    }
}

// Whether the log id stands at the place or behind it.
fn is_outside<NID: NodeId>(log_id: &Option<LogId<NID>>, end: u64) -> bool
    ensures { result ≡ nat_lt end (next_place log_id.now) }
{
    match log_id {
        None => false,
        Some(log_id) => end <= log_id.index,
    }
}

// What is wrong with the request in flight beside what is known of the peer.
fn request_fault<NID: NodeId>(entry: &ProgressEntry<NID>) -> Option<InvalidProgress>
    ensures { result ≡ request_fault NID.cmp entry.now.matching entry.now.searching_end entry.now.inflight }
{
    match entry.inflight {
        Inflight::None => None,
        Inflight::Logs { log_id_range, .. } => {
            if is_past(&entry.matching, &log_id_range.prev) {
                return Some(InvalidProgress::MatchingPastRequest);
            }
            if is_outside(&log_id_range.prev, entry.searching_end) {
                return Some(InvalidProgress::RequestPastSearch);
            }
            None
        }
        Inflight::Snapshot { last_log_id, .. } => {
            if is_past(&last_log_id, &entry.matching) {
                return None;
            }
            Some(InvalidProgress::SnapshotNotPastMatching)
        }
    }
}

/// What is known to be the same lies within the search, what is in flight is right by itself, and
/// goes on from what is known to be the same.
impl<NID: NodeId> Validate<InvalidProgress> for ProgressEntry<NID> {
    ghost fault = { progress_fault NID.cmp };

    fn validate(&self) -> Result<(), InvalidProgress> {
        if is_outside(&self.matching, self.searching_end) {
            return Err(InvalidProgress::MatchingPastSearch);
        }
        if let Err(fault) = self.inflight.validate() {
            return Err(InvalidProgress::Inflight(fault));
        }
        match request_fault(self) {
            Some(fault) => Err(fault),
            None => Ok(()),
        }
    }
}

impl<NID: NodeId> Borrow<Option<LogId<NID>>> for ProgressEntry<NID> {
    ghost borrowed = { λ entry. entry.matching };

    fn borrow(&self) -> &Option<LogId<NID>> {
        &self.matching
    }
}

impl<NID: NodeId> Display for ProgressEntry<NID> {
    fn fmt<W: fmt::Write>(&self, f: &mut fmt::Formatter<W>) -> fmt::Result {
        match self.matching {
            None => write!(f, "{{[None, ")?,
            Some(matching) => write!(f, "{{[{matching}, ")?,
        }
        let end = self.searching_end;
        let inflight = &self.inflight;
        write!(f, "{end}), inflight:{inflight}}}")
    }
}
