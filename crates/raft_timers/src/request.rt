//! When a request to a peer is given up.
ghost use Rattle.std.specs.Prelude.{◌≡◌, IfOk};
ghost use Rattle.raft_timers.specs.Request.{answered_by, is_lost, kept_request, lost_peers};
ghost use Rattle.raft_timers.specs.Request.{new_request, request_after, requests_after};
ghost use Rattle.raft_timers.specs.Request.{requests_answered, requests_of};

use crate::config::TimerSettings;
use std::alloc::{AllocError, Global};

/// What is noted of the requests to a peer (own): one is on its way at most.
#[derive(Clone, Copy, Debug, PartialEq, Eq)]
pub struct RequestTimer {
    /// The peer.
    pub peer: u64,
    /// The moment at which one was first seen to wait for its answer, while it does.
    pub waits_from: Option<u64>,
    /// It is given up after so many ticks.
    pub timeout: u64,
}

impl RequestTimer {
    /// None is seen to wait yet.
    pub fn new(settings: &TimerSettings, peer: u64) -> RequestTimer
        ensures { result ≡ new_request settings.now peer }
    {
        RequestTimer {
            peer,
            waits_from: None,
            timeout: settings.request_timeout,
        }
    }

    // Whether it has waited for its timeout.
    fn is_lost(&self, is_waiting: bool, now: u64) -> bool
        ensures { result ≡ is_lost is_waiting now self.now }
    {
        match self.waits_from {
            Some(from) => is_waiting && self.timeout <= now.saturating_sub(from),
            None => false,
        }
    }

    // Notes whether it waits now. One that was given up waits anew, for twice as long.
    fn tick(&mut self, settings: &TimerSettings, is_waiting: bool, now: u64)
        ensures { self.new ≡ request_after settings.now is_waiting now self.old }
    {
        if !is_waiting {
            *self = RequestTimer::new(settings, self.peer);
        } else if self.waits_from.is_none() {
            self.waits_from = Some(now);
        } else if self.is_lost(is_waiting, now) {
            self.waits_from = Some(now);
            self.timeout = self
                .timeout
                .saturating_mul(2)
                .min(settings.request_timeout_max);
        }
    }

    // The peer has answered, perhaps this one.
    fn hear_answer(&mut self, settings: &TimerSettings, peer: u64)
        ensures { self.new ≡ answered_by settings.now peer self.old }
    {
        if self.peer == peer {
            *self = RequestTimer::new(settings, peer);
        }
    }
}

/// The peers whose requests are to be told lost, in their order.
pub(crate) fn lost_peers(
    alloc: Global,
    requests: &[RequestTimer],
    waiting: &[u64],
    now: u64,
) -> Result<Vec<u64>, AllocError>
    ensures { IfOk result (λ peers. peers.items ≡ lost_peers waiting.now now requests.now) }
{
    requests
        .iter()
        .filter(|request| request.is_lost(waiting.contains(&request.peer), now))
        .map(|request| request.peer)
        .collect(alloc)
}

/// Notes of each request whether it waits now.
pub(crate) fn tick_requests(
    settings: &TimerSettings,
    requests: &mut [RequestTimer],
    waiting: &[u64],
    now: u64,
)
    ensures { requests.new ≡ requests_after settings.now waiting.now now requests.old }
{
    for request in requests.iter_mut() {
        let is_waiting = waiting.contains(&request.peer);
        request.tick(settings, is_waiting, now);
    }
}

/// The peer has answered.
pub(crate) fn hear_answer(settings: &TimerSettings, requests: &mut [RequestTimer], peer: u64)
    ensures { requests.new ≡ requests_answered settings.now peer requests.old }
{
    for request in requests.iter_mut() {
        request.hear_answer(settings, peer);
    }
}

// What is noted of the peer, or of one that is new.
fn kept_request(settings: &TimerSettings, requests: &[RequestTimer], peer: u64) -> RequestTimer
    ensures { result ≡ kept_request settings.now requests.now peer }
{
    for request in requests {
        if request.peer == peer {
            return *request;
        }
    }
    RequestTimer::new(settings, peer)
}

/// The requests of these peers, as far as they are known.
pub(crate) fn requests_of(
    alloc: Global,
    settings: &TimerSettings,
    requests: &[RequestTimer],
    peers: &[u64],
) -> Result<Vec<RequestTimer>, AllocError>
    ensures { IfOk result (λ kept. kept.items ≡ requests_of settings.now requests.now peers.now) }
{
    peers
        .iter()
        .map(|peer| kept_request(settings, requests, *peer))
        .collect(alloc)
}
