//! Files of a queue that workers read side by side.

ghost use Rattle.std.specs.Prelude.{◌≡◌, [], ◌<◌, ℕ, Some, None, Err, IfOk, IfErr, length, map, string_bytes, slice_get};
ghost use Rattle.raft_log_disk.specs.Cause.{RefusesNoMore};
ghost use Rattle.raft_log_files.specs.declared.error.CorruptionFault.{CorruptionFault};
ghost use Rattle.raft_log_files.specs.declared.error.Error.TheVariants.{Corruption};
ghost use Rattle.raft_log_pipe.specs.Pipe.{id_of};
ghost use Rattle.raft_log_recovery.specs.Caused.{AreEachRefused};
ghost use Rattle.raft_log_recovery.specs.Queue.{AreNumbered, IsFileOf};
ghost use Rattle.raft_log_workers.specs.Reading.{IsReadAt, IsReadBy};

use raft_log_files::{Error, Fd, FileSystem, RecoveryConfig};
use raft_log_records::{FileId, LogQueue};
use raft_log_recovery::{FileName, NewMachine, ReadFile, ReplayMachine, open_file, replay_file};
use std::alloc::Global;
use std::thread::{Threads, for_each_mut};

/// A file that was opened, and what a worker makes of it.
#[derive(Drop)]
pub(crate) struct Share<M> {
    pub name: FileName,
    pub fd: Fd,
    /// Replays the file's batches, and nothing else.
    pub machine: M,
    /// What was read of the file, or why it wasn't; none before.
    pub read: Option<Result<ReadFile, Error>>,
}

/// Opens the files of these names in their order, with a new machine for each.
fn open_each<F: FileSystem, M: NewMachine + Drop>(
    files: &mut F,
    alloc: Global,
    directories: &[String],
    queue: LogQueue,
    names: &[FileName],
) -> Result<Vec<Share<M>>, Error>
    requires { AreNumbered (length directories.now) names.now }
    ensures count { IfOk result (λ v. length v.items ≡ length names.now) }
    ensures named { IfOk result (λ v. (place : ℕ) (share : _) → slice_get v.items place ≡ Some share → slice_get names.now place ≡ Some share.name) }
    ensures opened { IfOk result (λ v. (place : ℕ) (share : _) → slice_get v.items place ≡ Some share
        → IsFileOf (F.disk files.old) (map string_bytes directories.now) queue share.name share.fd.0) }
    ensures begun { IfOk result (λ v. (place : ℕ) (share : _) → slice_get v.items place ≡ Some share → M.has_replayed share.machine []) }
    ensures kept { F.disk files.new ≡ F.disk files.old }
    ensures corrupt { (f : CorruptionFault) → result ≡ Err (Corruption f) → ⊥ }
    ensures later { RefusesNoMore (F.is_bounded files.old) (F.is_bounded files.new) (F.meter files.old) (F.meter files.new) }
    ensures cause { IfErr result (λ e. AreEachRefused (F.disk files.old) (map string_bytes directories.now) queue names.now
        (F.is_bounded files.old) (F.meter files.old) (F.meter files.new) e) }
{
    let mut shares = Vec::new(alloc);
    for name in names {
        let fd = open_file(files, alloc, directories, queue, *name)?;
        shares.push(Share {
            name: *name,
            fd,
            machine: M::new_machine(alloc),
            read: None,
        })?;
    }
    Ok(shares)
}

/// Replays a file's batches into its machine.
fn read_share<F: FileSystem, M: ReplayMachine>(
    share: &mut Share<M>,
    files: &F,
    alloc: Global,
    config: &RecoveryConfig,
)
    ensures name { share.new.name ≡ share.old.name }
    ensures file { share.new.fd ≡ share.old.fd }
    ensures read { M.has_replayed share.old.machine [] → IsReadBy (M.has_replayed share.new.machine) (F.disk files.now) (F.meter files.now)
        (id_of config.now.queue share.old.name.seq) share.old.fd.0 share.new.read }
{
    let id = FileId::new(config.queue, share.name.seq);
    let read = replay_file(
        files,
        alloc,
        &mut share.machine,
        id,
        share.fd,
        config.read_block_size,
    );
    share.read = Some(read);
}

/// The same for each file, by so many workers at once: each reads some that follow one another. None
/// counts as one.
fn read_each<F: FileSystem, M: ReplayMachine + Send, R: Threads + Sync>(
    rt: &R,
    shares: &mut [Share<M>],
    files: &F,
    alloc: Global,
    config: &RecoveryConfig,
)
    ensures length { length shares.new ≡ length shares.old }
    ensures name { (place : ℕ) (old : _) (new : _) → slice_get shares.old place ≡ Some old → slice_get shares.new place ≡ Some new → new.name ≡ old.name }
    ensures file { (place : ℕ) (old : _) (new : _) → slice_get shares.old place ≡ Some old → slice_get shares.new place ≡ Some new → new.fd ≡ old.fd }
    ensures read { (place : ℕ) (old : _) (new : _) → slice_get shares.old place ≡ Some old → slice_get shares.new place ≡ Some new → M.has_replayed old.machine []
        → IsReadBy (M.has_replayed new.machine) (F.disk files.now) (F.meter files.now) (id_of config.now.queue old.name.seq) old.fd.0 new.read }
{
    let workers = config.concurrency.max(1);
    for_each_mut(
        rt,
        shares,
        workers,
        &|_, share: &mut Share<M>| { read_share(share, files, alloc, config) },
    );
}

/// Opens the files of these names, and reads them side by side.
pub(crate) fn read_shares<F: FileSystem, M: NewMachine + Send + Drop, R: Threads + Sync>(
    rt: &R,
    files: &mut F,
    alloc: Global,
    config: &RecoveryConfig,
    directories: &[String],
    names: &[FileName],
) -> Result<Vec<Share<M>>, Error>
    requires { AreNumbered (length directories.now) names.now }
    ensures count { IfOk result (λ v. length v.items ≡ length names.now) }
    ensures read { IfOk result (λ v. (place : ℕ) (share : _) → slice_get v.items place ≡ Some share
        → IsReadAt (M.has_replayed share.machine) (F.disk files.old) (F.meter files.new) (map string_bytes directories.now) config.now.queue names.now place share.name share.fd.0 share.read) }
    ensures kept { F.disk files.new ≡ F.disk files.old }
    ensures corrupt { (f : CorruptionFault) → result ≡ Err (Corruption f) → ⊥ }
    ensures later { RefusesNoMore (F.is_bounded files.old) (F.is_bounded files.new) (F.meter files.old) (F.meter files.new) }
    ensures cause { IfErr result (λ e. AreEachRefused (F.disk files.old) (map string_bytes directories.now) config.now.queue names.now
        (F.is_bounded files.old) (F.meter files.old) (F.meter files.new) e) }
{
    let mut shares = open_each(files, alloc, directories, config.queue, names)?;
    read_each(rt, &mut shares, files, alloc, config);
    Ok(shares)
}
