//! The settings of the clocks of a node's groups.

use crate::settings::SettingsFault;
use raft_timers::{TimerConfig, TimerSettings};
use std::alloc::Global;
use toml::{Table, Value};

/// The name of their table.
pub const TIMERS: &str = "timers";

fn number_in(value: &Value) -> Option<u64> {
    match value.as_integer() {
        Some(number) => u64::try_from(number).ok(),
        None => None,
    }
}

// With this number for the setting of the name, if there is such a one.
fn with_setting(settings: TimerSettings, name: &str, number: u64) -> Option<TimerSettings> {
    let mut settings = settings;
    match name {
        "heartbeat-interval" => settings.heartbeat_interval = number,
        "election-min" => settings.election_min = number,
        "election-max" => settings.election_max = number,
        "request-timeout" => settings.request_timeout = number,
        "request-timeout-max" => settings.request_timeout_max = number,
        "snapshot-entries" => settings.snapshot_entries = number,
        "keep-entries" => settings.keep_entries = number,
        "clean-interval" => settings.clean_interval = number,
        _ => return None,
    }
    Some(settings)
}

// The settings with one more that was read.
fn with_one(
    alloc: Global,
    settings: TimerSettings,
    name: &str,
    value: &Value,
) -> Result<TimerSettings, SettingsFault> {
    let number = number_in(value);
    let Some(settings) = with_setting(settings, name, number.unwrap_or(0)) else {
        return Err(SettingsFault::Unknown(format!(in alloc; "{TIMERS}.{name}")?));
    };
    match number {
        Some(_) => Ok(settings),
        None => Err(SettingsFault::BadValue(format!(in alloc; "{TIMERS}.{name}")?)),
    }
}

// The settings that their table gives, and the usual ones where it gives none.
fn settings_in(alloc: Global, timers: &Table) -> Result<TimerSettings, SettingsFault> {
    let mut settings = TimerSettings::default();
    for (name, value) in timers {
        settings = with_one(alloc, settings, name.as_str(), value)?;
    }
    Ok(settings)
}

/// The settings of clocks that the table of all settings gives, if they fit together (own). What it
/// doesn't set is as raft_timers has it.
pub fn timers_in(alloc: Global, table: &Table) -> Result<TimerConfig, SettingsFault> {
    let settings = match table.get(TIMERS) {
        Some(Value::Table(timers)) => settings_in(alloc, timers)?,
        Some(_) => return Err(SettingsFault::BadValue(String::from_str(alloc, TIMERS)?)),
        None => TimerSettings::default(),
    };
    match TimerConfig::new(settings) {
        Ok(config) => Ok(config),
        Err(why) => Err(SettingsFault::Timers(why)),
    }
}
