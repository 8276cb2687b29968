//! Settings written as a table of TOML.

ghost use Rattle.std.specs.Prelude.{◌≡◌, ◌⊎◌, ◌↔◌, ◌<◌, IsTrue, ◌^◌, Some, None, IfOk, OnOk, IfErr, option_map, string_bytes};
ghost use Rattle.toml.specs.Data.{string, boolean, members_depth};
ghost use Rattle.toml.specs.View.{view, table_view};
ghost use Rattle.raft_log_files.specs.Toml.{size_in, said_if_any, size_data, number_data, mode_name, version_number, AreSettings, FitToml, PutsOne};
ghost use Rattle.raft_log_files.specs.Settings.{settings_of};
ghost use Rattle.raft_log_files.specs.declared.error.Error.TheVariants.{Memory, InvalidArgument};
ghost use Rattle.raft_log_files.specs.declared.error.ArgumentFault.TheVariants.{TooLargeForToml};

use crate::config::Config;
use crate::error::{ArgumentFault, Error};
use crate::recovery::RecoveryMode;
use crate::size_text;
use raft_log_records::{ReadableSize, Version};
use std::alloc::{AllocError, Global};
use toml::{Table, Value};

fn mode_name(mode: RecoveryMode) -> &'static str
    ensures { result.now ≡ mode_name mode }
{
    match mode {
        RecoveryMode::AbsoluteConsistency => "absolute-consistency",
        RecoveryMode::TolerateTailCorruption => "tolerate-corrupted-tail-records",
        RecoveryMode::TolerateAnyCorruption => "tolerate-any-corruption",
    }
}

fn version_number(version: Version) -> u64
    ensures { result ≡ version_number version }
{
    match version {
        Version::V1 => 1,
        Version::V2 => 2,
    }
}

/// Puts a value under a key, over what it had.
fn put(alloc: Global, table: &mut Table, key: &str, value: Value) -> Result<(), AllocError>
    ensures { OnOk result (PutsOne (table_view table.old) (table_view table.new) key.now (Some (view value))) }
{
    let key = String::from_str(alloc, key)?;
    table.insert(key, value)?;
    Ok(())
}

fn put_text(alloc: Global, table: &mut Table, key: &str, text: &str) -> Result<(), AllocError>
    ensures { OnOk result (PutsOne (table_view table.old) (table_view table.new) key.now (Some (string text.now))) }
{
    let value = Value::string(alloc, text)?;
    put(alloc, table, key, value)
}

fn put_text_if_any(
    alloc: Global,
    table: &mut Table,
    key: &str,
    text: &Option<String>,
) -> Result<(), AllocError>
    ensures { OnOk result (PutsOne (table_view table.old) (table_view table.new) key.now (option_map string (option_map string_bytes text.now))) }
{
    match text {
        Some(text) => put_text(alloc, table, key, text.as_str()),
        None => Ok(()),
    }
}

fn put_size(
    alloc: Global,
    table: &mut Table,
    key: &str,
    size: Option<ReadableSize>,
) -> Result<(), AllocError>
    ensures put { OnOk result (PutsOne (table_view table.old) (table_view table.new) key.now (option_map size_data size)) }
    ensures says { said_if_any size_in (option_map size_data size) ≡ Some size }
{
    match size {
        Some(size) => put(
            alloc,
            table,
            key,
            Value::from(size_text::build_size(alloc, size.0)?),
        ),
        None => Ok(()),
    }
}

fn put_number(alloc: Global, table: &mut Table, key: &str, number: u64) -> Result<(), AllocError>
    requires { number < 2 ^ 63 }
    ensures { OnOk result (PutsOne (table_view table.old) (table_view table.new) key.now (Some (number_data number))) }
{
    put(alloc, table, key, Value::Integer(number as i64))
}

fn put_flag(alloc: Global, table: &mut Table, key: &str, flag: bool) -> Result<(), AllocError>
    ensures { OnOk result (PutsOne (table_view table.old) (table_view table.new) key.now (Some (boolean flag))) }
{
    put(alloc, table, key, Value::Boolean(flag))
}

/// Whether TOML can say all numbers of the settings.
fn fit_toml(config: &Config) -> bool
    ensures { IsTrue result ↔ FitToml (settings_of config.now) }
{
    config.recovery_threads < 1 << 63 && config.purge_rewrite_garbage_percent < 1 << 63
}

/// A table that gives the settings.
///
/// Answers `InvalidArgument` where a number is 2^63 or more, and `Memory`.
pub fn table_of(alloc: Global, config: &Config) -> Result<Table, Error>
    ensures given { IfOk result (λ t. AreSettings (table_view t) (settings_of config.now)) }
    ensures flat { IfOk result (λ t. members_depth (table_view t) ≡ 0) }
    ensures fits { OnOk result (FitToml (settings_of config.now)) }
    ensures err { IfErr result (λ e. (e ≡ Memory) ⊎ ((e ≡ InvalidArgument TooLargeForToml) × ¬ (FitToml (settings_of config.now)))) }
{
    if !fit_toml(config) {
        return Err(Error::InvalidArgument(ArgumentFault::TooLargeForToml));
    }
    let mut table = Table::new(alloc);
    let t = &mut table;
    put_text(alloc, t, "dir", config.dir.as_str())?;
    put_text_if_any(alloc, t, "spill-dir", &config.spill_dir)?;
    put_text(alloc, t, "recovery-mode", mode_name(config.recovery_mode))?;
    put_size(
        alloc,
        t,
        "recovery-read-block-size",
        Some(config.recovery_read_block_size),
    )?;
    put_number(alloc, t, "recovery-threads", config.recovery_threads as u64)?;
    put_size(alloc, t, "bytes-per-sync", config.bytes_per_sync)?;
    put_number(
        alloc,
        t,
        "format-version",
        version_number(config.format_version),
    )?;
    put_size(alloc, t, "target-file-size", Some(config.target_file_size))?;
    put_size(alloc, t, "purge-threshold", Some(config.purge_threshold))?;
    put_size(
        alloc,
        t,
        "purge-rewrite-threshold",
        config.purge_rewrite_threshold,
    )?;
    put_number(
        alloc,
        t,
        "purge-rewrite-garbage-percent",
        config.purge_rewrite_garbage_percent,
    )?;
    put_flag(alloc, t, "enable-log-recycle", config.enable_log_recycle)?;
    put_flag(alloc, t, "prefill-for-recycle", config.prefill_for_recycle)?;
    put_size(alloc, t, "prefill-limit", config.prefill_limit)?;
    Ok(table)
}
