//! The settings of a node: of its log, and of its groups' clocks.
ghost use Rattle.std.specs.Prelude.{◌≡◌, IfOk, None, string_bytes};
ghost use Rattle.raft_log_files.specs.Settings.{settings_fault, settings_of};

use crate::timers::{TIMERS, timers_in};
use raft_log_files::{ArgumentFault, Config, Error};
use raft_log_records::ReadableSize;
use raft_timers::{TimerConfig, TimerFault};
use std::alloc::{AllocError, AllocFailed, Global};
use std::io::Read;
use std::{fs, io};
use thiserror::Error;
use toml::{Table, Value};

/// A file of the log is full at 64 KiB, where no setting says otherwise (own).
const TARGET_FILE_SIZE: ReadableSize = ReadableSize(65_536);

/// The log is cleaned past 256 KiB, where no setting says otherwise (own). raft-engine's default is
/// 10 GiB: a log is in memory several times, and would be cleaned too late for any.
const PURGE_THRESHOLD: ReadableSize = ReadableSize(262_144);

/// The file of settings has at most so many bytes (own).
const MOST_BYTES: u64 = 65_536;

/// The settings of a node (own).
#[derive(Drop)]
pub struct NodeSettings {
    /// Those of its log.
    pub log: Config,
    /// Those of its groups' clocks.
    pub timers: TimerConfig,
}

/// Why settings aren't taken (own).
#[derive(Debug, Drop, Error)]
pub enum SettingsFault {
    /// Their file can't be read.
    #[error("{0}")]
    Unreadable(io::Error),
    /// Their file is longer than settings are.
    #[error("more than 65,536 bytes")]
    TooLong,
    /// They aren't TOML.
    #[error("{0}")]
    NotToml(String),
    /// There is no setting of this name.
    #[error("`{0}` is no setting")]
    Unknown(String),
    /// A setting says where files lie, which the arguments do.
    #[error("`{0}` can't be set: the files lie in DIRECTORY")]
    Place(String),
    /// The setting of this name has a value that it can't have.
    #[error("`{0}` has a value that it can't have")]
    BadValue(String),
    /// No log can be kept under them.
    #[error("{0}")]
    Refused(Error),
    /// No clock can run by them.
    #[error("timers: {0}")]
    Timers(TimerFault),
    /// Memory was refused.
    #[error("out of memory")]
    Memory,
}

impl From<AllocError> for SettingsFault {
    fn from(_: AllocError) -> SettingsFault {
        SettingsFault::Memory
    }
}

impl<T: Drop> From<AllocFailed<T>> for SettingsFault {
    fn from(_: AllocFailed<T>) -> SettingsFault {
        SettingsFault::Memory
    }
}

// Whether a setting has this name, but for those that say where files lie.
fn is_setting(name: &str) -> bool {
    matches!(
        name,
        "bytes-per-sync"
            | "enable-log-recycle"
            | "format-version"
            | "prefill-for-recycle"
            | "prefill-limit"
            | "purge-rewrite-garbage-percent"
            | "purge-rewrite-threshold"
            | "purge-threshold"
            | "recovery-mode"
            | "recovery-read-block-size"
            | "recovery-threads"
            | "target-file-size"
    )
}

// Each name is a setting's that can be set here.
fn check_names(table: &Table) -> Result<(), SettingsFault> {
    for name in table.keys() {
        if matches!(name.as_str(), "dir" | "spill-dir") {
            return Err(SettingsFault::Place(name.clone()?));
        }
        if name.as_str() != TIMERS && !is_setting(name.as_str()) {
            return Err(SettingsFault::Unknown(name.clone()?));
        }
    }
    Ok(())
}

// What keeps the setting from being read alone.
fn fault_alone(alloc: Global, name: &String, value: &Value) -> Result<(), SettingsFault> {
    let mut table = Table::new(alloc);
    table.insert(name.clone()?, value.clone()?)?;
    let Ok(text) = toml::table_to_string(alloc, &table) else {
        return Err(SettingsFault::BadValue(name.clone()?));
    };
    match Config::from_toml(alloc, text.as_str()) {
        Ok(_) => Ok(()),
        Err(Error::Memory) => Err(SettingsFault::Memory),
        Err(_) => Err(SettingsFault::BadValue(name.clone()?)),
    }
}

// The first setting that can't be read keeps all from being taken.
fn check_values(alloc: Global, table: &Table) -> Result<(), SettingsFault> {
    for (name, value) in table {
        fault_alone(alloc, name, value)?;
    }
    Ok(())
}

// The settings that a text gives, and raft-engine's defaults where it gives none.
fn config_in(alloc: Global, text: &str, table: &Table) -> Result<Config, SettingsFault> {
    match Config::from_toml(alloc, text) {
        Ok(config) => Ok(config),
        Err(Error::Memory) => Err(SettingsFault::Memory),
        Err(why) => {
            check_values(alloc, table)?;
            Err(SettingsFault::Refused(why))
        }
    }
}

// This program's defaults where the text gives no sizes.
fn with_defaults(config: &mut Config, table: &Table) {
    if !table.contains_key("target-file-size") {
        config.target_file_size = TARGET_FILE_SIZE;
    }
    if !table.contains_key("purge-threshold") {
        config.purge_threshold = PURGE_THRESHOLD;
    }
}

// The settings for a log in this directory, if one can be kept under them.
fn in_directory(alloc: Global, directory: &str, config: Config) -> Result<Config, SettingsFault>
    ensures fit { IfOk result (λ config. settings_fault (settings_of config) ≡ None) }
    ensures directory { IfOk result (λ config. string_bytes config.dir ≡ directory.now) }
{
    let mut config = config;
    config.dir = String::from_str(alloc, directory)?;
    match config.sanitize() {
        Ok(()) => Ok(config),
        Err(why) => Err(SettingsFault::Refused(why)),
    }
}

// Why a text isn't TOML, without the newline at the end.
fn not_toml(alloc: Global, why: &toml::de::Error) -> Result<SettingsFault, AllocError> {
    let text = format!(in alloc; "{why}")?;
    let text = String::from_str(alloc, text.trim_end())?;
    Ok(SettingsFault::NotToml(text))
}

/// The settings that a text gives for a node with its log in this directory (own): by
/// `Config::from_toml` and `Config::sanitize`, and of its clocks by `timers_in`. A name that is no
/// setting's is refused, and so are `dir` and `spill-dir`. What the text doesn't set is as raft-engine
/// and raft_timers have it, but a file of 64 KiB and a cleaning past 256 KiB.
pub fn settings_in(
    alloc: Global,
    directory: &str,
    text: &str,
) -> Result<NodeSettings, SettingsFault>
    ensures fit { IfOk result (λ settings. settings_fault (settings_of settings.log) ≡ None) }
    ensures directory { IfOk result (λ settings. string_bytes settings.log.dir ≡ directory.now) }
{
    let table = match toml::table_from_str(alloc, text) {
        Ok(table) => table,
        Err(why) if why.is_memory() => return Err(SettingsFault::Memory),
        Err(why) => return Err(not_toml(alloc, &why)?),
    };
    check_names(&table)?;
    let mut config = config_in(alloc, text, &table)?;
    with_defaults(&mut config, &table);
    let log = in_directory(alloc, directory, config)?;
    let timers = timers_in(alloc, &table)?;
    Ok(NodeSettings { log, timers })
}

// The text of the file of a path, or as much of it as tells that it is too long.
fn text_of_file(rt: &HostRuntime, path: &str) -> io::Result<String> {
    let mut text = String::new(rt.alloc());
    fs::File::open(rt, path)?
        .take(MOST_BYTES + 1)
        .read_to_string(&mut text)?;
    Ok(text)
}

/// The settings of the file of a path, as `settings_in` reads them. A file of more than 65,536 bytes
/// is refused.
pub fn settings_of_file(
    rt: &HostRuntime,
    directory: &str,
    path: &str,
) -> Result<NodeSettings, SettingsFault>
    ensures fit { IfOk result (λ settings. settings_fault (settings_of settings.log) ≡ None) }
    ensures directory { IfOk result (λ settings. string_bytes settings.log.dir ≡ directory.now) }
{
    match text_of_file(rt, path) {
        Ok(text) if text.len() as u64 > MOST_BYTES => Err(SettingsFault::TooLong),
        Ok(text) => settings_in(rt.alloc(), directory, text.as_str()),
        Err(why) if why.kind() == io::ErrorKind::OutOfMemory => Err(SettingsFault::Memory),
        Err(why) => Err(SettingsFault::Unreadable(why)),
    }
}
