//! Calls for people who look after log files.
ghost use Rattle.std.specs.Prelude.{◌≡◌, ◌≢◌, ◌∷◌, [], List, true, map, string_bytes, Err, IfErr, IfOk, OnOk};
ghost use Rattle.raft_log_disk.specs.Cause.{RefusesNoMore};
ghost use Rattle.raft_log_disk.specs.Disk.{IsIn, listed};
ghost use Rattle.raft_log_files.specs.Settings.{settings_of};
ghost use Rattle.raft_log_files.specs.declared.recovery.RecoveryMode.TheVariants.{TolerateAnyCorruption};
ghost use Rattle.raft_log_items.specs.Found.{Found};
ghost use Rattle.raft_log_items.specs.Items.{IsReading, file_items, files_left, nothing};
ghost use Rattle.raft_log_records.specs.Item.{Item};
ghost use Rattle.raft_log_records.specs.declared.file_id.LogQueue.TheVariants.{Append, Rewrite};
ghost use Rattle.raft_log_records.specs.declared.item.EntryIndex.{EntryIndex};
ghost use Rattle.raft_log_recovery.specs.Scan.{directories_of};
ghost use Rattle.raft_log_tools.specs.Checking.{AreItemsOf, AreTold, IsCheckFault, first_hole};
ghost use Rattle.raft_log_tools.specs.Forking.{IsForkOf, OnlyAdds};
ghost use Rattle.raft_log_tools.specs.Paths.{IsPathFault, StandsFor};
ghost use Rattle.raft_log_tools.specs.declared.error.ForkError.TheVariants.{RecyclesFiles, ToleratesAnyCorruption};

use crate::engine::Engine;
use raft_log_files::{Config, Error, FileSystem};
use raft_log_items::LogItemReader;
use raft_log_tools::{CopyDetails, ForkError, consistency_check, dump, fork};
use std::alloc::Global;

impl<F: FileSystem> Engine<F> {
    /// The groups of which the log files of a directory have a hole in the entries, rising, each with the
    /// last index before its first one (raft-engine's `consistency_check_with_file_system`), as
    /// `consistency_check` of raft_log_tools says. No file changes.
    pub fn consistency_check_with_file_system(
        files: &mut F,
        alloc: Global,
        path: &str,
    ) -> Result<Vec<(u64, u64)>, Error>
        ensures directory { OnOk result (IsIn path.now (F.disk files.old).directories) }
        ensures ok { IfOk result (λ holes. (rewrite : List (Item EntryIndex)) × (append : List (Item EntryIndex))
            × AreItemsOf (F.disk files.old) (path.now ∷ []) Rewrite rewrite × AreItemsOf (F.disk files.old) (path.now ∷ []) Append append
            × AreTold (first_hole rewrite append) holes.items) }
        ensures disk { F.disk files.new ≡ F.disk files.old }
        ensures later { RefusesNoMore (F.is_bounded files.old) (F.is_bounded files.new) (F.meter files.old) (F.meter files.new) }
        ensures cause { IfErr result (λ e. IsCheckFault (F.disk files.old) path.now (F.is_bounded files.old) (F.meter files.old) (F.meter files.new) e) }
    {
        consistency_check(files, alloc, path)
    }

    /// A reader of what stands in the log files of a directory, or in the one that a path names
    /// (raft-engine's `dump_with_file_system`), as `dump` of raft_log_tools says. No file changes.
    pub fn dump_with_file_system(
        files: &F,
        alloc: Global,
        path: &str,
    ) -> Result<LogItemReader, Error>
        ensures ok { IfOk result (λ r. (found : List Found) × StandsFor (F.disk files.now) path.now found
            × (files_left r (F.disk files.now) ≡ nothing ∷ map (file_items (F.disk files.now)) found)) }
        ensures reading { IfOk result (λ r. IsReading r (F.disk files.now)) }
        ensures err { IfErr result (λ e. IsPathFault (F.disk files.now) path.now e) }
    {
        dump(files, alloc, path)
    }

    /// Copies the log files of an engine that isn't open into another directory, so that an engine
    /// there has the same content and goes its own way (raft-engine's `fork`), as `fork` of
    /// raft_log_tools says.
    pub fn fork(
        files: &mut F,
        alloc: Global,
        source: &Config,
        target: &str,
    ) -> Result<CopyDetails, ForkError>
        ensures recycles { source.now.enable_log_recycle ≡ true → (result ≡ Err RecyclesFiles) × (F.disk files.new ≡ F.disk files.old) }
        ensures tolerates { source.now.enable_log_recycle ≢ true → source.now.recovery_mode ≡ TolerateAnyCorruption
            → (result ≡ Err ToleratesAnyCorruption) × (F.disk files.new ≡ F.disk files.old) }
        ensures empty { OnOk result (listed (F.disk files.old).names target.now ≡ []) }
        ensures ok { IfOk result (λ details. IsForkOf (F.disk files.old) (F.disk files.new) (directories_of (settings_of source.now)) target.now (map string_bytes details.copied.items)) }
        ensures links { IfOk result (λ details. details.symlinked.items ≡ []) }
        ensures adds { OnlyAdds (F.disk files.old) (F.disk files.new) }
    {
        fork(files, alloc, source, target)
    }
}
