//! When a group's log is to be made shorter.
ghost use Rattle.std.specs.Prelude.{◌≡◌};
ghost use Rattle.raft_timers.specs.Policy.{is_snapshot_due, purge_place};

use crate::config::TimerConfig;
use crate::view::GroupView;

/// Whether as many entries are applied behind the last snapshot as the settings say.
pub fn is_snapshot_due(config: &TimerConfig, view: &GroupView) -> bool
    ensures { result ≡ is_snapshot_due config.now.settings view.now }
{
    let entries = config.settings.snapshot_entries;
    match (view.applied, view.snapshot) {
        (None, _) => false,
        (Some(applied), None) => entries - 1 <= applied,
        (Some(applied), Some(snapshot)) => entries <= applied.saturating_sub(snapshot),
    }
}

/// The place up to which the log is to be purged, if that is further than it is: so many entries
/// before the snapshot's end stay as the settings say.
pub fn purge_place(config: &TimerConfig, view: &GroupView) -> Option<u64>
    ensures { result ≡ purge_place config.now.settings view.now }
{
    let place = view.snapshot?.checked_sub(config.settings.keep_entries)?;
    match view.purged {
        Some(purged) if place <= purged => None,
        _ => Some(place),
    }
}
