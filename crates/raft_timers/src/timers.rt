//! The clock of one group.
ghost use Rattle.std.specs.Prelude.{◌≡◌, [], IfOk, OnOk, OnErr};
ghost use Rattle.raft_timers.specs.Election.{is_election_due};
ghost use Rattle.raft_timers.specs.Lead.{is_heartbeat_due, lacks_quorum};
ghost use Rattle.raft_timers.specs.Policy.{is_snapshot_due, purge_place};
ghost use Rattle.raft_timers.specs.Request.{lost_peers};
ghost use Rattle.raft_timers.specs.Timers.{answered, moment, new_clock, ticked, with_peers};

use crate::config::TimerConfig;
use crate::election::ElectionTimer;
use crate::lead::{Lead, lacks_quorum, tick_lead};
use crate::policy::{is_snapshot_due, purge_place};
use crate::request::{RequestTimer, hear_answer, lost_peers, requests_of, tick_requests};
use crate::view::GroupView;
use crate::wanted::Wanted;
use rand_core::SeedableRng;
use rand_xoshiro::SplitMix64;
use std::alloc::{AllocError, Global};
use std::marker::Model;

/// The clock of one group at one node (own). Its size is fixed but for one `RequestTimer` for each
/// peer.
#[derive(Drop)]
pub struct Timers {
    alloc: Global,
    config: TimerConfig,
    now: u64,
    election: ElectionTimer,
    lead: Option<Lead>,
    requests: Vec<RequestTimer>,
}

impl Model for Timers {
    ghost use Rattle.raft_timers.specs.Election.{IsDrawn};
    ghost use Rattle.raft_timers.specs.Clock.{Clock};

    ghost Value = { Clock };

    ghost view = { λ t. record {
      config = t.config;
      now = t.now;
      election = t.election;
      lead = t.lead;
      requests = t.requests.items;
    } };

    ghost invariant = { λ t. IsDrawn t.config.settings t.election };
}

impl Timers {
    /// The clock starts: the node leads nobody yet, and has heard nothing. The peers are the
    /// group's other members. Give each node another seed, so that their election timeouts differ.
    pub fn new(
        alloc: Global,
        config: TimerConfig,
        seed: u64,
        peers: &[u64],
        now: u64,
    ) -> Result<Timers, AllocError>
        ensures { IfOk result (λ t. t ≡ new_clock config seed peers.now now) }
    {
        let requests = requests_of(alloc, &config.settings, &[], peers)?;
        let random = SplitMix64::seed_from_u64(seed);
        Ok(Timers {
            alloc,
            config,
            now,
            election: ElectionTimer::new(&config, random, now),
            lead: None,
            requests,
        })
    }

    /// The group's other members are these from now on. What is noted of those that stay is kept.
    pub fn set_peers(&mut self, peers: &[u64]) -> Result<(), AllocError>
        ensures ok { OnOk result (self.new ≡ with_peers peers.now self.old) }
        ensures err { OnErr result (self.new ≡ self.old) }
    {
        let settings = self.config.settings;
        self.requests = requests_of(self.alloc, &settings, self.requests.as_slice(), peers)?;
        Ok(())
    }

    /// The peer answered the request that the node waited for: the next one has the first timeout
    /// again. Not for each frame of the peer: answers to heartbeats come while a request is lost, too.
    pub fn answered(&mut self, peer: u64)
        ensures { self.new ≡ answered peer self.old }
    {
        let settings = self.config.settings;
        hear_answer(&settings, self.requests.as_mut_slice(), peer);
    }

    /// What is due at this moment, in ticks; `waiting` are the peers whose answer the node waits
    /// for. A moment before the last one counts as that one. It asks again for a snapshot and a
    /// purge until the view shows them.
    pub fn tick(
        &mut self,
        now: u64,
        view: &GroupView,
        waiting: &[u64],
    ) -> Result<Wanted, AllocError>
        ensures elect { IfOk result (λ w. w.elect
            ≡ is_election_due self.old.election view.now (moment self.old now)) }
        ensures heartbeat { IfOk result (λ w. w.heartbeat
            ≡ is_heartbeat_due self.old.lead view.now (moment self.old now)) }
        ensures lost { IfOk result (λ w. w.lost.items
            ≡ lost_peers waiting.now (moment self.old now) self.old.requests) }
        ensures snapshot { IfOk result (λ w. w.snapshot
            ≡ is_snapshot_due self.old.config.settings view.now) }
        ensures purge { IfOk result (λ w. w.purge ≡ purge_place self.old.config.settings view.now) }
        ensures no_quorum { IfOk result (λ w. w.no_quorum
            ≡ lacks_quorum self.old.config.settings self.old.lead view.now (moment self.old now)) }
        ensures after { OnOk result (self.new ≡ ticked view.now waiting.now now self.old) }
        ensures err { OnErr result (self.new ≡ self.old) }
    {
        let now = now.max(self.now);
        let settings = self.config.settings;
        let lost = lost_peers(self.alloc, self.requests.as_slice(), waiting, now)?;
        let wanted = Wanted {
            elect: self.election.tick(&self.config, view, now),
            no_quorum: lacks_quorum(&settings, &self.lead, view, now),
            heartbeat: tick_lead(&settings, &mut self.lead, view, now),
            lost,
            snapshot: is_snapshot_due(&self.config, view),
            purge: purge_place(&self.config, view),
        };
        tick_requests(&settings, self.requests.as_mut_slice(), waiting, now);
        self.now = now;
        Ok(wanted)
    }
}
