//! Settings read from a table of TOML.

ghost use Rattle.std.specs.Prelude.{◌≡◌, ◌⊎◌, ◌<◌, ◌^◌, Some, None, IfOk, IfErr, IfSome, ok_or, option_map, string_bytes, []};
ghost use Rattle.toml.specs.Data.{get_member, as_str, as_bool};
ghost use Rattle.toml.specs.View.{view, table_view};
ghost use Rattle.raft_log_files.specs.Toml.{number_in, size_in, mode_named, mode_in, version_in, said, said_if_any, bad_setting, AreSettings, GivesNone};
ghost use Rattle.raft_log_files.specs.Settings.{settings_of};
ghost use Rattle.raft_log_files.specs.declared.error.Error.TheVariants.{Memory};

use crate::config::{
    Config, DEFAULT_GARBAGE_PERCENT, DEFAULT_PURGE_THRESHOLD, DEFAULT_RECOVERY_READ_BLOCK_SIZE,
    DEFAULT_RECOVERY_THREADS, DEFAULT_TARGET_FILE_SIZE,
};
use crate::error::{ArgumentFault, Error};
use crate::recovery::RecoveryMode;
use crate::size_text;
use raft_log_records::{ReadableSize, Version};
use std::alloc::Global;
use toml::{Table, Value};

const BAD: Error = Error::InvalidArgument(ArgumentFault::BadSetting);

/// The value of a key.
fn at<'a>(table: &'a Table, key: &str) -> Option<&'a Value>
    ensures { option_map (λ v. view v.now) result ≡ get_member key.now (table_view table.now) }
{
    table.get(key)
}

fn parse_number(value: &Value) -> Option<u64>
    ensures { result ≡ number_in (view value.now) }
{
    match value.as_integer() {
        Some(number) => u64::try_from(number).ok(),
        None => None,
    }
}

fn parse_size(value: &Value) -> Option<ReadableSize>
    ensures { result ≡ size_in (view value.now) }
{
    match value {
        Value::Integer(_) => parse_number(value).map(ReadableSize),
        Value::String(text) => size_text::parse_size(text.as_bytes()),
        _ => None,
    }
}

fn mode_of_name(name: &str) -> Option<RecoveryMode>
    ensures { result ≡ mode_named name.now }
{
    if name == "absolute-consistency" {
        Some(RecoveryMode::AbsoluteConsistency)
    } else if name == "tolerate-tail-corruption" || name == "tolerate-corrupted-tail-records" {
        Some(RecoveryMode::TolerateTailCorruption)
    } else if name == "tolerate-any-corruption" {
        Some(RecoveryMode::TolerateAnyCorruption)
    } else {
        None
    }
}

fn parse_mode(value: &Value) -> Option<RecoveryMode>
    ensures { result ≡ mode_in (view value.now) }
{
    match value.as_str() {
        Some(name) => mode_of_name(name),
        None => None,
    }
}

fn parse_version(value: &Value) -> Option<Version>
    ensures { result ≡ version_in (view value.now) }
{
    match parse_number(value) {
        Some(1) => Some(Version::V1),
        Some(2) => Some(Version::V2),
        _ => None,
    }
}

fn number_or(table: &Table, key: &str, default: u64) -> Result<u64, Error>
    ensures { result ≡ ok_or (said number_in default (get_member key.now (table_view table.now))) bad_setting }
{
    match at(table, key) {
        Some(value) => parse_number(value).ok_or(BAD),
        None => Ok(default),
    }
}

fn size_or(table: &Table, key: &str, default: ReadableSize) -> Result<ReadableSize, Error>
    ensures { result ≡ ok_or (said size_in default (get_member key.now (table_view table.now))) bad_setting }
{
    match at(table, key) {
        Some(value) => parse_size(value).ok_or(BAD),
        None => Ok(default),
    }
}

fn size_if_any(table: &Table, key: &str) -> Result<Option<ReadableSize>, Error>
    ensures { result ≡ ok_or (said_if_any size_in (get_member key.now (table_view table.now))) bad_setting }
{
    match at(table, key) {
        Some(value) => match parse_size(value) {
            Some(size) => Ok(Some(size)),
            None => Err(BAD),
        },
        None => Ok(None),
    }
}

fn mode_or(table: &Table, key: &str, default: RecoveryMode) -> Result<RecoveryMode, Error>
    ensures { result ≡ ok_or (said mode_in default (get_member key.now (table_view table.now))) bad_setting }
{
    match at(table, key) {
        Some(value) => parse_mode(value).ok_or(BAD),
        None => Ok(default),
    }
}

fn version_or(table: &Table, key: &str, default: Version) -> Result<Version, Error>
    ensures { result ≡ ok_or (said version_in default (get_member key.now (table_view table.now))) bad_setting }
{
    match at(table, key) {
        Some(value) => parse_version(value).ok_or(BAD),
        None => Ok(default),
    }
}

fn flag_or(table: &Table, key: &str, default: bool) -> Result<bool, Error>
    ensures { result ≡ ok_or (said as_bool default (get_member key.now (table_view table.now))) bad_setting }
{
    match at(table, key) {
        Some(value) => value.as_bool().ok_or(BAD),
        None => Ok(default),
    }
}

fn text_if_any(alloc: Global, table: &Table, key: &str) -> Result<Option<String>, Error>
    ensures ok { IfOk result (λ text. said_if_any as_str (get_member key.now (table_view table.now)) ≡ Some (option_map string_bytes text)) }
    ensures err { IfErr result (λ e. (e ≡ Memory) ⊎ ((e ≡ bad_setting) × (said_if_any as_str (get_member key.now (table_view table.now)) ≡ None))) }
{
    let Some(value) = at(table, key) else {
        return Ok(None);
    };
    match value.as_str() {
        Some(text) => Ok(Some(String::from_str(alloc, text)?)),
        None => Err(BAD),
    }
}

fn text_or_empty(alloc: Global, table: &Table, key: &str) -> Result<String, Error>
    ensures ok { IfOk result (λ text. said as_str [] (get_member key.now (table_view table.now)) ≡ Some (string_bytes text)) }
    ensures err { IfErr result (λ e. (e ≡ Memory) ⊎ ((e ≡ bad_setting) × (said as_str [] (get_member key.now (table_view table.now)) ≡ None))) }
{
    let Some(value) = at(table, key) else {
        return Ok(String::new(alloc));
    };
    match value.as_str() {
        Some(text) => Ok(String::from_str(alloc, text)?),
        None => Err(BAD),
    }
}

/// The settings that a table gives.
///
/// Answers `InvalidArgument` where a setting has a value that it cannot have, and `Memory`.
pub fn config_in(alloc: Global, table: &Table) -> Result<Config, Error>
    ensures ok { IfOk result (λ c. AreSettings (table_view table.now) (settings_of c)) }
    ensures err { IfErr result (λ e. (e ≡ Memory) ⊎ ((e ≡ bad_setting) × GivesNone (table_view table.now))) }
{
    let mode = mode_or(table, "recovery-mode", RecoveryMode::TolerateTailCorruption)?;
    let block = size_or(
        table,
        "recovery-read-block-size",
        DEFAULT_RECOVERY_READ_BLOCK_SIZE,
    )?;
    let threads = number_or(table, "recovery-threads", DEFAULT_RECOVERY_THREADS)?;
    let percent = number_or(
        table,
        "purge-rewrite-garbage-percent",
        DEFAULT_GARBAGE_PERCENT,
    )?;
    Ok(Config {
        recovery_mode: mode,
        recovery_read_block_size: block,
        recovery_threads: threads as usize,
        bytes_per_sync: size_if_any(table, "bytes-per-sync")?,
        format_version: version_or(table, "format-version", Version::V2)?,
        target_file_size: size_or(table, "target-file-size", DEFAULT_TARGET_FILE_SIZE)?,
        purge_threshold: size_or(table, "purge-threshold", DEFAULT_PURGE_THRESHOLD)?,
        purge_rewrite_threshold: size_if_any(table, "purge-rewrite-threshold")?,
        purge_rewrite_garbage_percent: percent,
        enable_log_recycle: flag_or(table, "enable-log-recycle", true)?,
        prefill_for_recycle: flag_or(table, "prefill-for-recycle", false)?,
        prefill_limit: size_if_any(table, "prefill-limit")?,
        spill_dir: text_if_any(alloc, table, "spill-dir")?,
        dir: text_or_empty(alloc, table, "dir")?,
    })
}
