//! Settings that steps set.

use crate::session::Session;
use raft_log_files::RecoveryMode;
use raft_log_records::{ReadableSize, Version};
use raft_rows::number;

/// The mode of a word: `any`, `none` or `tail`.
fn mode_of(word: &str) -> RecoveryMode {
    match word {
        "any" => RecoveryMode::TolerateAnyCorruption,
        "none" => RecoveryMode::AbsoluteConsistency,
        _ => RecoveryMode::TolerateTailCorruption,
    }
}

/// The main directory, or the second one.
fn set_directory(at: &mut Session, is_second: bool, path: &str) -> bool {
    match String::from_str(at.desk.alloc, path) {
        Ok(path) if is_second => at.config.spill_dir = Some(path),
        Ok(path) => at.config.dir = path,
        Err(_) => return at.desk.told.lack_memory(),
    }
    true
}

/// How many workers open the engine: none but the thread that calls, past five.
fn set_workers(at: &mut Session, count: u64) {
    if count > 5 {
        at.workers = None;
    } else {
        at.workers = Some(count as usize);
    }
}

/// A word that says yes or no: `recycles`, `recycles_not`, `prefills`, `prefills_not`, or
/// `patient`.
fn set_flag(at: &mut Session, word: &str) -> bool {
    match word {
        "recycles" => at.config.enable_log_recycle = true,
        "recycles_not" => at.config.enable_log_recycle = false,
        "prefills" => at.config.prefill_for_recycle = true,
        "prefills_not" => at.config.prefill_for_recycle = false,
        "patient" => at.is_patient = true,
        _ => return false,
    }
    true
}

/// Sets what a word with a number says.
fn set_number(at: &mut Session, name: &str, value: u64) -> bool {
    match name {
        "target" => at.config.target_file_size = ReadableSize(value),
        "threshold" => at.config.purge_threshold = ReadableSize(value),
        "workers" => set_workers(at, value),
        "version" if value == 1 => at.config.format_version = Version::V1,
        "version" => at.config.format_version = Version::V2,
        _ => return false,
    }
    true
}

/// Sets what a step says.
pub fn set(at: &mut Session, parts: &[&str]) -> bool {
    match parts {
        ["dir", path] => set_directory(at, false, path),
        ["spill", path] => set_directory(at, true, path),
        ["mode", mode] => {
            at.config.recovery_mode = mode_of(mode);
            true
        }
        [name, "@"] => set_number(at, name, at.desk.round),
        [name, value] => set_number(at, name, number(value)),
        [word] => set_flag(at, word),
        _ => false,
    }
}
