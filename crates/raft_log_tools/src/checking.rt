//! Holes in the entries of groups, as the log files of a directory have them.

ghost use Rattle.std.specs.Prelude.{◌≡◌, ◌⊎◌, ◌++◌, ◌∷◌, [], List, length, map, string_bytes, IfOk, IfErr, OnOk};
ghost use Rattle.std.specs.List.{flat_map};
ghost use Rattle.raft_log_records.specs.declared.file_id.LogQueue.TheVariants.{Append, Rewrite};
ghost use Rattle.raft_log_records.specs.declared.item.EntryIndex.{EntryIndex};
ghost use Rattle.raft_log_records.specs.Item.{Item};
ghost use Rattle.raft_log_disk.specs.Cause.{RefusesNoMore};
ghost use Rattle.raft_log_disk.specs.Disk.{IsIn};
ghost use Rattle.raft_log_pipe.specs.Caused.{IsCaused};
ghost use Rattle.raft_log_recovery.specs.Caused.{AnyUnreadable, IsMissing, IsRefusal};
ghost use Rattle.raft_log_recovery.specs.Queue.{AreNumbered};
ghost use Rattle.raft_log_recovery.specs.Replay.{Placed};
ghost use Rattle.raft_log_items.specs.Holes.{hole_in, written_by};
ghost use Rattle.raft_log_tools.specs.Checking.{AreItemsOf, AreTold, IsCheckFault, IsFileRefusal, first_hole, items_of_files};

use crate::directories::one_directory;
use crate::found::{found_files, open_to_read};
use crate::telling::told_by_both;
use raft_log_files::{ArgumentFault, Error, FileSystem};
use raft_log_items::ConsistencyChecker;
use raft_log_records::{FileId, LogQueue};
use raft_log_recovery::{FileName, NewMachine, ReplayMachine, replay_file};
use std::alloc::Global;

/// The bytes that a read of a file asks for at least.
const READ_BLOCK_SIZE: u64 = 16384;

/// Replays the batches of files into a machine, of each up to its first fault. The files stay as
/// they are, and a fault of one is no error here.
fn replay_each<F: FileSystem, M: ReplayMachine>(
    files: &mut F,
    alloc: Global,
    machine: &mut M,
    directories: &[String],
    queue: LogQueue,
    names: &[FileName],
) -> Result<(), Error>
    requires { AreNumbered (length directories.now) names.now }
    ensures replayed { OnOk result ((placed : List Placed) → M.has_replayed machine.old placed → (more : List Placed) × M.has_replayed machine.new (placed ++ more)
        × (flat_map (λ p. p.items) more ≡ items_of_files (F.disk files.old) (map string_bytes directories.now) queue names.now)) }
    ensures kept { F.disk files.new ≡ F.disk files.old }
    ensures later { RefusesNoMore (F.is_bounded files.old) (F.is_bounded files.new) (F.meter files.old) (F.meter files.new) }
    ensures cause { IfErr result (λ e. IsCaused (IsRefusal (F.is_bounded files.old) ⊥ (F.meter files.old) (F.meter files.new)
        ⊎ AnyUnreadable (map string_bytes directories.now) queue names.now (F.meter files.old))
        ⊥ ⊥ (IsMissing (F.disk files.old) (map string_bytes directories.now) queue names.now) e) }
{
    for name in names {
        let fd = open_to_read(files, alloc, directories, queue, *name)?;
        let id = FileId::new(queue, name.seq);
        replay_file(files, alloc, machine, id, fd, READ_BLOCK_SIZE)?;
    }
    Ok(())
}

/// The groups of which the files of a queue have a hole, rising, each with the last index before its
/// first one.
fn holes_of_queue<F: FileSystem>(
    files: &mut F,
    alloc: Global,
    directories: &[String],
    queue: LogQueue,
) -> Result<Vec<(u64, u64)>, Error>
    ensures ok { IfOk result (λ holes. (items : List (Item EntryIndex)) × AreItemsOf (F.disk files.old) (map string_bytes directories.now) queue items
        × AreTold (λ group. hole_in (written_by group items)) holes.items) }
    ensures kept { F.disk files.new ≡ F.disk files.old }
    ensures later { RefusesNoMore (F.is_bounded files.old) (F.is_bounded files.new) (F.meter files.old) (F.meter files.new) }
    ensures cause { IfErr result (λ e. IsFileRefusal (F.disk files.old) (map string_bytes directories.now) (F.is_bounded files.old) (F.meter files.old) (F.meter files.new) e) }
{
    let names = found_files(files, alloc, directories, queue)?;
    let mut checker = ConsistencyChecker::new_machine(alloc);
    replay_each(files, alloc, &mut checker, directories, queue, &names)?;
    Ok(checker.finish(alloc)?)
}

/// The groups whose entries have a hole, rising, each with the last index before its first one
/// (raft-engine's `Engine::consistency_check_with_file_system`). Where both queues tell of a group,
/// the rewrite queue's hole counts. The files are those that an opening finds in the directory; each
/// is read up to its first fault, which is no error, and stays as it is. What is missing before a
/// group's first entries and behind its last ones isn't seen. A path of no directory is
/// `InvalidArgument`; else memory is missing, or a call on a file was refused.
pub fn consistency_check<F: FileSystem>(
    files: &mut F,
    alloc: Global,
    directory: &str,
) -> Result<Vec<(u64, u64)>, Error>
    ensures directory { OnOk result (IsIn directory.now (F.disk files.old).directories) }
    ensures ok { IfOk result (λ holes. (rewrite : List (Item EntryIndex)) × (append : List (Item EntryIndex))
        × AreItemsOf (F.disk files.old) (directory.now ∷ []) Rewrite rewrite × AreItemsOf (F.disk files.old) (directory.now ∷ []) Append append
        × AreTold (first_hole rewrite append) holes.items) }
    ensures disk { F.disk files.new ≡ F.disk files.old }
    ensures later { RefusesNoMore (F.is_bounded files.old) (F.is_bounded files.new) (F.meter files.old) (F.meter files.new) }
    ensures cause { IfErr result (λ e. IsCheckFault (F.disk files.old) directory.now (F.is_bounded files.old) (F.meter files.old) (F.meter files.new) e) }
{
    if !files.is_dir(directory) {
        return Err(Error::InvalidArgument(ArgumentFault::NotADirectory));
    }
    let directories = one_directory(alloc, directory)?;
    let rewrite = holes_of_queue(files, alloc, &directories, LogQueue::Rewrite)?;
    let append = holes_of_queue(files, alloc, &directories, LogQueue::Append)?;
    Ok(told_by_both(alloc, &rewrite, &append)?)
}
