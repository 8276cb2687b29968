//! What a clock is set up with.
ghost use Rattle.std.specs.Prelude.{◌≡◌, ◌<◌, ◌≤◌, None, Some, IfErr, OnOk, IfOk};
ghost use Rattle.raft_timers.specs.Config.{usual};
ghost use Rattle.raft_timers.specs.Fault.{fault_of};

use crate::interval::Interval;
use thiserror::Error;

/// What a clock is to be set up with (own): times in ticks, log entries in numbers of them.
#[derive(Clone, Copy, Debug, PartialEq, Eq)]
pub struct TimerSettings {
    /// A leader sends heartbeats this often.
    pub heartbeat_interval: u64,
    /// A voter stands for election after at least so much silence. The engine's lease is 150 ticks:
    /// before its end nobody grants a vote.
    pub election_min: u64,
    /// A voter stands for election after at most so much silence.
    pub election_max: u64,
    /// A first request to a peer is given up after this long.
    pub request_timeout: u64,
    /// Requests are given up twice as late each time, and no later than after this long.
    pub request_timeout_max: u64,
    /// A snapshot is asked for where so many entries are applied behind the last one.
    pub snapshot_entries: u64,
    /// So many entries that the snapshot covers stay in the log, for peers that are a bit behind.
    pub keep_entries: u64,
    /// A node cleans its log's files this often.
    pub clean_interval: u64,
}

/// Why settings are refused (own).
#[derive(Clone, Copy, Debug, PartialEq, Eq, Error)]
pub enum TimerFault {
    #[error("the heartbeat interval is 0")]
    NoHeartbeatInterval,
    #[error("an election comes no later than the next heartbeat")]
    ElectionWithinHeartbeat,
    #[error("the longest election timeout isn't above the shortest one")]
    NoElectionRange,
    #[error("the request timeout is 0")]
    NoRequestTimeout,
    #[error("the longest request timeout is below the first one")]
    RequestLimitTooLow,
    #[error("a snapshot is asked for at no entries")]
    NoSnapshotEntries,
    #[error("the cleaning interval is 0")]
    NoCleanInterval,
}

/// Settings that fit together (own).
#[derive(Clone, Copy, Debug, PartialEq, Eq)]
pub struct TimerConfig {
    pub settings: TimerSettings,
    pub ghost heartbeat: { 0 < settings.heartbeat_interval },
    pub ghost silence: { settings.heartbeat_interval < settings.election_min },
    pub ghost range: { settings.election_min < settings.election_max },
    pub ghost request: { 0 < settings.request_timeout },
    pub ghost limit: { settings.request_timeout ≤ settings.request_timeout_max },
    pub ghost entries: { 0 < settings.snapshot_entries },
    pub ghost clean: { 0 < settings.clean_interval },
}

impl Default for TimerSettings {
    ghost is_default = { λ s. s ≡ usual };

    /// In milliseconds: openraft's heartbeats and numbers of entries, elections behind the lease.
    fn default() -> TimerSettings {
        TimerSettings {
            heartbeat_interval: 50,
            election_min: 200,
            election_max: 400,
            request_timeout: 100,
            request_timeout_max: 1600,
            snapshot_entries: 5000,
            keep_entries: 1000,
            clean_interval: 10_000,
        }
    }
}

impl TimerConfig {
    /// The settings, if nothing is wrong with them; else the first fault.
    pub fn new(settings: TimerSettings) -> Result<TimerConfig, TimerFault>
        ensures same { IfOk result (λ config. config.settings ≡ settings) }
        ensures right { OnOk result (fault_of settings ≡ None) }
        ensures refused { IfErr result (λ fault. fault_of settings ≡ Some fault) }
    {
        if settings.heartbeat_interval == 0 {
            return Err(TimerFault::NoHeartbeatInterval);
        }
        if settings.election_min <= settings.heartbeat_interval {
            return Err(TimerFault::ElectionWithinHeartbeat);
        }
        if settings.election_max <= settings.election_min {
            return Err(TimerFault::NoElectionRange);
        }
        if settings.request_timeout == 0 {
            return Err(TimerFault::NoRequestTimeout);
        }
        if settings.request_timeout_max < settings.request_timeout {
            return Err(TimerFault::RequestLimitTooLow);
        }
        if settings.snapshot_entries == 0 {
            return Err(TimerFault::NoSnapshotEntries);
        }
        if settings.clean_interval == 0 {
            return Err(TimerFault::NoCleanInterval);
        }
        Ok(TimerConfig { settings })
    }

    /// When a node's files are to be cleaned, counted from now: one for the node, not for a group.
    pub fn cleaning(&self, now: u64) -> Interval
        ensures { result ≡ record { length = self.now.settings.clean_interval; from = now } }
    {
        Interval::new(self.settings.clean_interval, now)
    }
}
