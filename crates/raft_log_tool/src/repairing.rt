//! Log files, cut where their whole records end.
ghost use Rattle.std.specs.Prelude.{◌≡◌, ◌∷◌, [], IfOk, IsErr, OnOk};
ghost use Rattle.raft_log_files.specs.declared.error.CorruptionFault.{CorruptionFault};
ghost use Rattle.raft_log_files.specs.declared.error.Error.TheVariants.{Corruption};
ghost use Rattle.raft_log_records.specs.declared.file_id.LogQueue.{LogQueue};
ghost use Rattle.raft_log_records.specs.declared.file_id.LogQueue.TheVariants.{Append, Rewrite};
ghost use Rattle.raft_log_recovery.specs.Both.{IsFoundBy};
ghost use Rattle.raft_log_recovery.specs.Queue.{AnyRefused, OnlyChanges, directories_in, names_in};
ghost use Rattle.raft_log_recovery.specs.Scan.{OnlyMakes};
ghost use Rattle.raft_log_tool.specs.Repairs.{AreWholeIn, HasRefusedIn, IsRepairedIn, KeepsOutside};

use raft_log_contents::ItemList;
use raft_log_files::{Config, Error, FileSystem, RecoveryConfig, RecoveryMode};
use raft_log_records::LogQueue;
use raft_log_recovery::DualPipesBuilder;
use std::alloc::Global;

/// The bytes that a read of a file asks for at least.
const READ_BLOCK_SIZE: u64 = 16_384;

// The files that an opening finds in a directory.
fn found_in<F: FileSystem>(
    files: &mut F,
    alloc: Global,
    directory: &str,
) -> Result<DualPipesBuilder, Error>
    ensures directories { IfOk result (λ found. directories_in found ≡ directory.now ∷ []) }
    ensures append { IfOk result (λ found. IsFoundBy found Append (F.disk files.new)) }
    ensures rewrite { IfOk result (λ found. IsFoundBy found Rewrite (F.disk files.new)) }
    ensures only { OnlyMakes (directory.now ∷ []) (F.disk files.old) (F.disk files.new) }
    ensures corrupt { (fault : CorruptionFault) → result ≡ Err (Corruption fault) → ⊥ }
{
    let mut config = Config::default(alloc);
    config.dir = String::from_str(alloc, directory)?;
    let mut found = DualPipesBuilder::new(alloc, config);
    found.scan(files)?;
    Ok(found)
}

// The files of a queue that were found are cut by the mode.
fn repair_queue<F: FileSystem>(
    files: &mut F,
    found: &DualPipesBuilder,
    queue: LogQueue,
    mode: RecoveryMode,
) -> Result<(), Error>
    requires { IsFoundBy found.now queue (F.disk files.old) }
    ensures ok { OnOk result (AreWholeIn (directories_in found.now) queue (names_in found.now queue) (F.disk files.old) (F.disk files.new)) }
    ensures only { OnlyChanges (directories_in found.now) queue (names_in found.now queue) (F.disk files.old) (F.disk files.new) }
    ensures refused { AnyRefused mode (directories_in found.now) queue (names_in found.now queue) (F.disk files.old) → IsErr result }
    ensures corrupt { (fault : CorruptionFault) → result ≡ Err (Corruption fault) → AnyRefused mode (directories_in found.now) queue (names_in found.now queue) (F.disk files.old) }
{
    let config = RecoveryConfig {
        queue,
        mode,
        concurrency: 1,
        read_block_size: READ_BLOCK_SIZE,
    };
    let mut list = ItemList {
        items: Vec::new(found.alloc()),
    };
    found.recover_queue(files, &config, &mut list)?;
    Ok(())
}

/// The log files that an opening finds in a directory are cut by the mode where their whole records
/// end, and synced (own; what raft-engine's opening does before it replays). A file whose header is
/// broken is left without bytes. A fault that the mode refuses is `Corruption`; else memory is
/// missing, or a call on files was refused. Files before that one may be cut then.
pub fn repair_directory<F: FileSystem>(
    files: &mut F,
    alloc: Global,
    directory: &str,
    mode: RecoveryMode,
) -> Result<(), Error>
    ensures ok { OnOk result ((queue : LogQueue) → IsRepairedIn mode directory.now queue (F.disk files.old) (F.disk files.new)) }
    ensures kept { KeepsOutside directory.now (F.disk files.old) (F.disk files.new) }
    ensures corrupt { (fault : CorruptionFault) → result ≡ Err (Corruption fault) → HasRefusedIn mode directory.now (F.disk files.old) }
{
    let found = found_in(files, alloc, directory)?;
    repair_queue(files, &found, LogQueue::Rewrite, mode)?;
    repair_queue(files, &found, LogQueue::Append, mode)
}
