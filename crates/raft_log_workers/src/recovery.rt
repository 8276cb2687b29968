//! All files of a queue: read side by side, then merged and repaired in the order of their numbers.

ghost use Rattle.std.specs.Prelude.{◌≡◌, ◌++◌, List, length, map, string_bytes, Err, IfErr, IfOk, IsErr, OnErr};
ghost use Rattle.raft_log_disk.specs.Cause.{RefusesNoMore};
ghost use Rattle.raft_log_files.specs.declared.error.CorruptionFault.{CorruptionFault};
ghost use Rattle.raft_log_files.specs.declared.error.Error.TheVariants.{Corruption};
ghost use Rattle.raft_log_recovery.specs.Caused.{AreEachRefused};
ghost use Rattle.raft_log_recovery.specs.Replay.{Placed};
ghost use Rattle.raft_log_recovery.specs.Queue.{AnyRefused, AreLeft, AreNumbered, AreReadAlike, AreRecovered, AreReplayed, KeepsRefused, OnlyChanges};

use crate::settle::settle;
use crate::share::read_shares;
use raft_log_files::{Error, FileSystem, RecoveryConfig};
use raft_log_pipe::File;
use raft_log_records::FileId;
use raft_log_recovery::{FileName, MergeMachine, NewMachine};
use std::alloc::Global;
use std::thread::Threads;

/// Replays the files of these names, and repairs each. All are read before the first is repaired.
pub(crate) fn recover_each<
    F: FileSystem,
    M: MergeMachine + NewMachine + Send + Drop,
    R: Threads + Sync,
>(
    rt: &R,
    files: &mut F,
    alloc: Global,
    machine: &mut M,
    config: &RecoveryConfig,
    directories: &[String],
    names: &[FileName],
) -> Result<Vec<File>, Error>
    requires { AreNumbered (length directories.now) names.now }
    ensures ok { IfOk result (λ v. AreRecovered (map string_bytes directories.now) config.now.queue (F.disk files.old) (F.disk files.new) names.now v.items) }
    ensures replayed { IfOk result (λ v. (placed : List Placed) → M.has_replayed machine.old placed
        → (more : List Placed) × M.has_replayed machine.new (placed ++ more) × AreReplayed config.now.queue (F.disk files.new) v.items more) }
    ensures only { OnlyChanges (map string_bytes directories.now) config.now.queue names.now (F.disk files.old) (F.disk files.new) }
    ensures reads { AreReadAlike (map string_bytes directories.now) config.now.queue names.now (F.disk files.old) (F.disk files.new) }
    ensures err { OnErr result (AreLeft (map string_bytes directories.now) config.now.queue names.now (F.disk files.old) (F.disk files.new)) }
    ensures refused { AnyRefused config.now.mode (map string_bytes directories.now) config.now.queue names.now (F.disk files.old) → IsErr result }
    ensures kept { OnErr result (KeepsRefused config.now.mode (map string_bytes directories.now) config.now.queue names.now (F.disk files.old) (F.disk files.new)) }
    ensures corrupt { (f : CorruptionFault) → result ≡ Err (Corruption f) → AnyRefused config.now.mode (map string_bytes directories.now) config.now.queue names.now (F.disk files.old) }
    ensures later { RefusesNoMore (F.is_bounded files.old) (F.is_bounded files.new) (F.meter files.old) (F.meter files.new) }
    ensures cause { IfErr result (λ e. AreEachRefused (F.disk files.old) (map string_bytes directories.now) config.now.queue names.now
        (F.is_bounded files.old) (F.meter files.old) (F.meter files.new) e) }
{
    let shares = read_shares(rt, files, alloc, config, directories, names)?;
    let mut recovered = Vec::new(alloc);
    for share in shares {
        let name = share.name;
        let handle = share.fd;
        let id = FileId::new(config.queue, name.seq);
        let is_last = recovered.len() + 1 == names.len();
        let format = settle(files, machine, id, share, config, is_last)?;
        recovered.push(File {
            seq: name.seq,
            handle,
            format,
            path_id: name.path_id,
            reserved: false,
        })?;
    }
    Ok(recovered)
}
