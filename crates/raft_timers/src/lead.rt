//! What a leader owes: heartbeats, and a quorum.
ghost use Rattle.std.specs.Prelude.{◌≡◌};
ghost use Rattle.raft_timers.specs.Lead.{is_heartbeat_due, lacks_quorum, lead_after};

use crate::config::TimerSettings;
use crate::interval::Interval;
use crate::view::GroupView;

/// A lead, as a clock has seen it begin (own).
#[derive(Clone, Copy, Debug, PartialEq, Eq)]
pub struct Lead {
    /// When it was seen first.
    pub from: u64,
    /// Its heartbeats.
    pub heartbeat: Interval,
}

/// Whether a leader has heard of no quorum for the shortest election timeout, nor begun to lead
/// since: others may elect a leader now.
pub fn lacks_quorum(
    settings: &TimerSettings,
    lead: &Option<Lead>,
    view: &GroupView,
    now: u64,
) -> bool
    ensures { result ≡ lacks_quorum settings.now lead.now view.now now }
{
    match lead {
        Some(lead) if view.role.is_leader() => {
            let since = lead.from.max(view.quorum_heard.unwrap_or(0));
            settings.election_min <= now.saturating_sub(since)
        }
        _ => false,
    }
}

/// Whether a heartbeat is due, and what is noted of the lead behind that.
pub fn tick_lead(
    settings: &TimerSettings,
    lead: &mut Option<Lead>,
    view: &GroupView,
    now: u64,
) -> bool
    ensures due { result ≡ is_heartbeat_due lead.old view.now now }
    ensures after { lead.new ≡ lead_after settings.now view.now now lead.old }
{
    if !view.role.is_leader() {
        *lead = None;
        return false;
    }
    match lead {
        Some(lead) => lead.heartbeat.tick(now),
        None => {
            *lead = Some(Lead {
                from: now,
                heartbeat: Interval::new(settings.heartbeat_interval, now),
            });
            false
        }
    }
}
