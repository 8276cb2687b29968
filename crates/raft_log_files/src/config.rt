//! The settings of the log engine.

ghost use Rattle.std.specs.Prelude.{◌≡◌, ◌⊎◌, IfOk, OnOk, IfErr, OnErr, MatchOption, Ok, Err, Some, option_map, string_bytes};
ghost use Rattle.raft_log_files.specs.Settings.{has_log_signing, file_capacity};

use crate::error::{ArgumentFault, Error, OtherFault};
use crate::recovery::RecoveryMode;
use crate::{reading, writing};
use raft_log_records::{ReadableSize, Version};
use std::alloc::{AllocError, Global};

/// The least number of bytes that a read at an opening asks for.
const MIN_RECOVERY_READ_BLOCK_SIZE: ReadableSize = ReadableSize(512);

const MIN_RECOVERY_THREADS: usize = 1;
/// What holds where no setting is written.
pub(crate) const DEFAULT_RECOVERY_READ_BLOCK_SIZE: ReadableSize = ReadableSize(16_384);

pub(crate) const DEFAULT_RECOVERY_THREADS: u64 = 4;

pub(crate) const DEFAULT_TARGET_FILE_SIZE: ReadableSize = ReadableSize(134_217_728);

pub(crate) const DEFAULT_PURGE_THRESHOLD: ReadableSize = ReadableSize(10_737_418_240);

pub(crate) const DEFAULT_GARBAGE_PERCENT: u64 = 60;
/// So many files at most are kept for reuse: 2^32 - 1.
const MAX_FILE_CAPACITY: u64 = 4_294_967_295;

/// The settings of the log engine (raft-engine's `Config`).
#[derive(PartialEq, Drop)]
pub struct Config {
    /// The main directory of the log files; an opening makes it if it isn't there.
    pub dir: String,
    /// A second directory, for new files where the main one has no room.
    pub spill_dir: Option<String>,
    /// What a fault in a file does to an opening.
    pub recovery_mode: RecoveryMode,
    /// Bytes that a read at an opening asks for, 512 at least.
    pub recovery_read_block_size: ReadableSize,
    /// Workers that read at an opening, 1 at least.
    pub recovery_threads: usize,
    /// Read and written, and without effect.
    pub bytes_per_sync: Option<ReadableSize>,
    /// The version of new log files.
    pub format_version: Version,
    /// The length at which a file is full.
    pub target_file_size: ReadableSize,
    /// The append queue is cleaned where its files would hold more than this.
    pub purge_threshold: ReadableSize,
    /// The rewrite queue is cleaned where its files would hold more than this; none stands for the
    /// greater of a tenth of `purge_threshold` and `target_file_size`.
    pub purge_rewrite_threshold: Option<ReadableSize>,
    /// The rewrite queue is cleaned where more of its entries than this are garbage, in per cent.
    pub purge_rewrite_garbage_percent: u64,
    /// Whether files that are let go are kept for reuse; format version 2 only.
    pub enable_log_recycle: bool,
    /// Whether an opening makes files for reuse; with `enable_log_recycle` only.
    pub prefill_for_recycle: bool,
    /// How many bytes the files hold that an opening makes for reuse; none stands for
    /// `purge_threshold`.
    pub prefill_limit: Option<ReadableSize>,
}

fn signs(version: Version) -> bool
    ensures { result ≡ has_log_signing version }
{
    match version {
        Version::V1 => false,
        Version::V2 => true,
    }
}

/// Half as many files again as have room in `limit` bytes, at most 2^32 - 1.
fn capacity(limit: u64, target: u64) -> u64
    ensures { result ≡ file_capacity limit target }
{
    if target == 0 {
        return 0;
    }
    let files = limit / target;
    if files > MAX_FILE_CAPACITY {
        MAX_FILE_CAPACITY
    } else {
        MAX_FILE_CAPACITY.min(files * 3 / 2)
    }
}

fn clone_text(text: &Option<String>) -> Result<Option<String>, AllocError>
    ensures { IfOk result (λ copy. option_map string_bytes copy ≡ option_map string_bytes text.now) }
{
    match text {
        Some(text) => Ok(Some(text.clone()?)),
        None => Ok(None),
    }
}

impl Config {
    ghost use Rattle.raft_log_files.specs.Settings.{settings_of, default_settings, sanitized, settings_fault, recycles, recycle_capacity_of, prefill_capacity_of};
    ghost use Rattle.raft_log_files.specs.Toml.{GivesSettings, IsRefusal, FitToml};
    ghost use Rattle.raft_log_files.specs.declared.error.Error.TheVariants.{Other, InvalidArgument, Memory};
    ghost use Rattle.raft_log_files.specs.declared.error.ArgumentFault.TheVariants.{TooLargeForToml};

    /// The settings where none is set.
    pub fn default(alloc: Global) -> Config
        ensures { settings_of result ≡ default_settings }
    {
        Config {
            dir: String::new(alloc),
            spill_dir: None,
            recovery_mode: RecoveryMode::TolerateTailCorruption,
            recovery_read_block_size: DEFAULT_RECOVERY_READ_BLOCK_SIZE,
            recovery_threads: DEFAULT_RECOVERY_THREADS as usize,
            bytes_per_sync: None,
            format_version: Version::V2,
            target_file_size: DEFAULT_TARGET_FILE_SIZE,
            purge_threshold: DEFAULT_PURGE_THRESHOLD,
            purge_rewrite_threshold: None,
            purge_rewrite_garbage_percent: DEFAULT_GARBAGE_PERCENT,
            enable_log_recycle: true,
            prefill_for_recycle: false,
            prefill_limit: None,
        }
    }

    /// The same settings once more. The only error is want of memory.
    pub fn clone(&self) -> Result<Config, AllocError>
        ensures { IfOk result (λ c. settings_of c ≡ settings_of self.now) }
    {
        Ok(Config {
            dir: self.dir.clone()?,
            spill_dir: clone_text(&self.spill_dir)?,
            recovery_mode: self.recovery_mode,
            recovery_read_block_size: self.recovery_read_block_size,
            recovery_threads: self.recovery_threads,
            bytes_per_sync: self.bytes_per_sync,
            format_version: self.format_version,
            target_file_size: self.target_file_size,
            purge_threshold: self.purge_threshold,
            purge_rewrite_threshold: self.purge_rewrite_threshold,
            purge_rewrite_garbage_percent: self.purge_rewrite_garbage_percent,
            enable_log_recycle: self.enable_log_recycle,
            prefill_for_recycle: self.prefill_for_recycle,
            prefill_limit: self.prefill_limit,
        })
    }

    fn fault(&self) -> Option<OtherFault>
        ensures { result ≡ settings_fault (settings_of self.now) }
    {
        if self.purge_threshold.0 < self.target_file_size.0 {
            Some(OtherFault::PurgeBelowTarget)
        } else if self.enable_log_recycle && !signs(self.format_version) {
            Some(OtherFault::RecycleUnderVersion1)
        } else if self.prefill_for_recycle && !self.enable_log_recycle {
            Some(OtherFault::PrefillWithoutRecycle)
        } else if self.target_file_size.0 == 0 {
            Some(OtherFault::NoTargetSize)
        } else {
            None
        }
    }

    /// Raises sizes and numbers that are too small, fills in what is left open and drops what has no
    /// effect.
    ///
    /// Answers `Other` where no log can be kept under these settings, and changes nothing then: a
    /// `purge_threshold` below `target_file_size`, reuse of files under version 1, files made for
    /// reuse without reuse, a `target_file_size` of 0; the first that holds.
    pub fn sanitize(&mut self) -> Result<(), Error>
        ensures refused { MatchOption (settings_fault (settings_of self.old)) (result ≡ Ok tt) (λ f. result ≡ Err (Other f)) }
        ensures ok { OnOk result (settings_of self.new ≡ sanitized (settings_of self.old)) }
        ensures err { OnErr result (self.new ≡ self.old) }
    {
        if let Some(fault) = self.fault() {
            return Err(Error::Other(fault));
        }
        if self.recovery_read_block_size < MIN_RECOVERY_READ_BLOCK_SIZE {
            self.recovery_read_block_size = MIN_RECOVERY_READ_BLOCK_SIZE;
        }
        if self.recovery_threads < MIN_RECOVERY_THREADS {
            self.recovery_threads = MIN_RECOVERY_THREADS;
        }
        if self.purge_rewrite_threshold.is_none() {
            let least = (self.purge_threshold.0 / 10).max(self.target_file_size.0);
            self.purge_rewrite_threshold = Some(ReadableSize(least));
        }
        if !self.prefill_for_recycle {
            self.prefill_limit = None;
        } else if self.prefill_limit.is_none() {
            self.prefill_limit = Some(self.purge_threshold);
        }
        Ok(())
    }

    fn recycles(&self) -> bool
        ensures { result ≡ recycles (settings_of self.now) }
    {
        self.enable_log_recycle && signs(self.format_version)
    }

    /// How many files are kept for reuse: half as many again as `purge_threshold` has room for, at
    /// most 2^32 - 1; 0 without reuse or under version 1.
    pub fn recycle_capacity(&self) -> u64
        ensures { result ≡ recycle_capacity_of (settings_of self.now) }
    {
        if self.recycles() {
            capacity(self.purge_threshold.0, self.target_file_size.0)
        } else {
            0
        }
    }

    /// How many files an opening makes for reuse: the same over `prefill_limit`; 0 without prefill.
    pub fn prefill_capacity(&self) -> u64
        ensures { result ≡ prefill_capacity_of (settings_of self.now) }
    {
        match self.prefill_limit {
            Some(limit) if self.recycles() && self.prefill_for_recycle => {
                capacity(limit.0, self.target_file_size.0)
            }
            _ => 0,
        }
    }

    /// The settings that a text gives, by TOML; keys that name no setting are passed over.
    ///
    /// Answers `InvalidArgument` where the text isn't TOML or a setting has a value that it cannot
    /// have, and `Memory`.
    pub fn from_toml(alloc: Global, text: &str) -> Result<Config, Error>
        ensures ok { IfOk result (λ c. GivesSettings text.now (settings_of c)) }
        ensures refused { IfErr result (IsRefusal text.now) }
    {
        match toml::table_from_str(alloc, text) {
            Ok(table) => reading::config_in(alloc, &table),
            Err(fault) if fault.is_memory() => Err(Error::Memory),
            Err(_) => Err(Error::InvalidArgument(ArgumentFault::NotToml)),
        }
    }

    /// A text that gives these settings: sizes in bytes, and no line for what is none.
    ///
    /// Answers `InvalidArgument` where `recovery_threads` or `purge_rewrite_garbage_percent` is 2^63
    /// or more, which TOML cannot say, and `Memory`.
    pub fn to_toml(&self, alloc: Global) -> Result<String, Error>
        ensures ok { IfOk result (λ text. GivesSettings (string_bytes text) (settings_of self.now)) }
        ensures fits { OnOk result (FitToml (settings_of self.now)) }
        ensures refused { IfErr result (λ e. (e ≡ Memory) ⊎ ((e ≡ InvalidArgument TooLargeForToml) × ¬ (FitToml (settings_of self.now)))) }
    {
        let table = writing::table_of(alloc, self)?;
        match toml::table_to_string(alloc, &table) {
            Ok(text) => Ok(text),
            Err(_) => Err(Error::Memory),
        }
    }
}
