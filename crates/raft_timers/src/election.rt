//! When a voter stands for election.
ghost use Rattle.std.specs.Prelude.{◌≡◌};
ghost use Rattle.raft_timers.specs.Election.{IsDrawn, election_after, first_wait, is_election_due};

use crate::config::TimerConfig;
use crate::draw::draw_timeout;
use crate::view::GroupView;
use raft_values::ServerState;
use rand_xoshiro::SplitMix64;

/// How long a voter waits for a leader, and from when on (own).
#[derive(Debug, PartialEq, Eq, Drop)]
pub struct ElectionTimer {
    random: SplitMix64,
    timeout: u64,
    from: u64,
}

impl ElectionTimer {
    /// The wait begins now, for as long as the seed says.
    pub fn new(config: &TimerConfig, mut random: SplitMix64, now: u64) -> ElectionTimer
        ensures drawn { result ≡ first_wait config.now.settings now random }
        ensures within { IsDrawn config.now.settings result }
    {
        let timeout = draw_timeout(config, &mut random);
        ElectionTimer {
            random,
            timeout,
            from: now,
        }
    }

    // Whether the node may stand, and has heard nothing for the timeout.
    fn is_due(&self, view: &GroupView, now: u64) -> bool
        ensures { result ≡ is_election_due self.now view.now now }
    {
        let may_stand = matches!(view.role, ServerState::Follower | ServerState::Candidate);
        let since = self.from.max(view.renewed.unwrap_or(0));
        may_stand && self.timeout <= now.saturating_sub(since)
    }

    /// Whether the node is to stand for election. If so, the next timeout is drawn, and counted
    /// from this moment; while it leads, the wait begins anew.
    pub fn tick(&mut self, config: &TimerConfig, view: &GroupView, now: u64) -> bool
        ensures due { result ≡ is_election_due self.old view.now now }
        ensures after { self.new ≡ election_after config.now.settings view.now now self.old }
        ensures within { IsDrawn config.now.settings self.old
            → IsDrawn config.now.settings self.new }
    {
        let is_due = self.is_due(view, now);
        if is_due {
            self.timeout = draw_timeout(config, &mut self.random);
        }
        if is_due || view.role.is_leader() {
            self.from = now;
        }
        is_due
    }
}
