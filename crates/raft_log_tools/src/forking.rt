//! A copy of an engine's log files, which goes its own way.

ghost use Rattle.std.specs.Prelude.{◌≡◌, ◌≢◌, ◌↔◌, ◌++◌, [], true, IsTrue, length, map, string_bytes, Err, IfOk, IfErr, OnOk};
ghost use Rattle.raft_log_disk.specs.Disk.{IsIn, listed};
ghost use Rattle.raft_log_files.specs.Settings.{settings_of};
ghost use Rattle.raft_log_files.specs.declared.recovery.RecoveryMode.TheVariants.{TolerateAnyCorruption};
ghost use Rattle.raft_log_records.specs.declared.file_id.LogQueue.TheVariants.{Append, Rewrite};
ghost use Rattle.raft_log_recovery.specs.Caused.{IsMissing};
ghost use Rattle.raft_log_recovery.specs.Queue.{AreNumbered};
ghost use Rattle.raft_log_recovery.specs.Scan.{directories_of};
ghost use Rattle.raft_log_tools.specs.declared.error.ForkError.TheVariants.{RecyclesFiles, ToleratesAnyCorruption, TargetHasFiles, Log};
ghost use Rattle.raft_log_tools.specs.Forking.{AreCopied, IsForkOf, OnlyAdds, copy_paths};

use crate::copying::copy_file;
use crate::directories::all_directories;
use crate::error::ForkError;
use crate::found::found_files;
use raft_log_files::{Config, Error, FileSystem, RecoveryMode};
use raft_log_records::LogQueue;
use raft_log_recovery::FileName;
use std::alloc::Global;

/// The log files of a fork (raft-engine's `CopyDetails`).
#[derive(Debug, Drop)]
pub struct CopyDetails {
    /// The paths of the copies.
    pub copied: Vec<String>,
    /// The paths of links to files of the source: there are none, as files have no links here.
    pub symlinked: Vec<String>,
}

fn tolerates_any(mode: RecoveryMode) -> bool
    ensures { IsTrue result ↔ (mode ≡ TolerateAnyCorruption) }
{
    match mode {
        RecoveryMode::AbsoluteConsistency => false,
        RecoveryMode::TolerateTailCorruption => false,
        RecoveryMode::TolerateAnyCorruption => true,
    }
}

/// Refuses settings under which an engine isn't forked.
fn check_settings(source: &Config) -> Result<(), ForkError>
    ensures recycles { source.now.enable_log_recycle ≡ true → result ≡ Err RecyclesFiles }
    ensures tolerates { source.now.enable_log_recycle ≢ true → source.now.recovery_mode ≡ TolerateAnyCorruption → result ≡ Err ToleratesAnyCorruption }
{
    if source.enable_log_recycle {
        return Err(ForkError::RecyclesFiles);
    }
    if tolerates_any(source.recovery_mode) {
        return Err(ForkError::ToleratesAnyCorruption);
    }
    let mut config = source.clone()?;
    config.sanitize()?;
    Ok(())
}

/// Refuses a target that has files of these names.
fn check_target(names: &[String]) -> Result<(), ForkError>
    ensures { OnOk result (names.now ≡ []) }
{
    match names {
        [] => Ok(()),
        [_, ..] => Err(ForkError::TargetHasFiles),
    }
}

/// Makes a directory that isn't there.
fn make_directory<F: FileSystem>(files: &mut F, path: &str) -> Result<(), Error>
    ensures made { OnOk result (IsIn path.now (F.disk files.new).directories) }
    ensures adds { OnlyAdds (F.disk files.old) (F.disk files.new) }
    ensures names { (F.disk files.new).names ≡ (F.disk files.old).names }
{
    if files.is_dir(path) {
        return Ok(());
    }
    files.make_dir(path)?;
    Ok(())
}

/// The same of a part of a path: its last name may be empty.
fn make_parent<F: FileSystem>(files: &mut F, path: &str, name: &str) -> Result<(), Error>
    ensures adds { OnlyAdds (F.disk files.old) (F.disk files.new) }
    ensures names { (F.disk files.new).names ≡ (F.disk files.old).names }
{
    if name.is_empty() {
        return Ok(());
    }
    make_directory(files, path)
}

/// Makes a directory, and those that its path names on the way.
fn make_with_parents<F: FileSystem>(files: &mut F, alloc: Global, path: &str) -> Result<(), Error>
    ensures made { OnOk result (IsIn path.now (F.disk files.new).directories) }
    ensures adds { OnlyAdds (F.disk files.old) (F.disk files.new) }
    ensures names { (F.disk files.new).names ≡ (F.disk files.old).names }
{
    let mut parent = String::new(alloc);
    for name in path.split('/') {
        parent.push_str(name)?;
        make_parent(files, parent.as_str(), name)?;
        parent.push_str("/")?;
    }
    make_directory(files, path)
}

/// Copies log files that were found into a directory.
fn copy_each<F: FileSystem>(
    files: &mut F,
    alloc: Global,
    directories: &[String],
    queue: LogQueue,
    names: &[FileName],
    target: &str,
    copied: &mut Vec<String>,
) -> Result<(), ForkError>
    requires numbered { AreNumbered (length directories.now) names.now }
    requires there { IsMissing (F.disk files.old) (map string_bytes directories.now) queue names.now → ⊥ }
    ensures ok { OnOk result (AreCopied (F.disk files.old) (F.disk files.new) (map string_bytes directories.now) queue target.now names.now) }
    ensures paths { OnOk result (map string_bytes copied.new.items ≡ map string_bytes copied.old.items ++ copy_paths target.now queue names.now) }
    ensures adds { OnlyAdds (F.disk files.old) (F.disk files.new) }
{
    for name in names {
        let path = copy_file(files, alloc, directories, queue, *name, target)?;
        copied.push(path)?;
    }
    Ok(())
}

/// The same of both queues, and answers the paths of the copies.
fn copy_both<F: FileSystem>(
    files: &mut F,
    alloc: Global,
    directories: &[String],
    append: &[FileName],
    rewrite: &[FileName],
    target: &str,
) -> Result<Vec<String>, ForkError>
    requires append { AreNumbered (length directories.now) append.now }
    requires rewrite { AreNumbered (length directories.now) rewrite.now }
    requires append_there { IsMissing (F.disk files.old) (map string_bytes directories.now) Append append.now → ⊥ }
    requires rewrite_there { IsMissing (F.disk files.old) (map string_bytes directories.now) Rewrite rewrite.now → ⊥ }
    ensures append { OnOk result (AreCopied (F.disk files.old) (F.disk files.new) (map string_bytes directories.now) Append target.now append.now) }
    ensures rewrite { OnOk result (AreCopied (F.disk files.old) (F.disk files.new) (map string_bytes directories.now) Rewrite target.now rewrite.now) }
    ensures paths { IfOk result (λ v. map string_bytes v.items ≡ copy_paths target.now Append append.now ++ copy_paths target.now Rewrite rewrite.now) }
    ensures adds { OnlyAdds (F.disk files.old) (F.disk files.new) }
{
    let mut copied = Vec::new(alloc);
    copy_each(
        files,
        alloc,
        directories,
        LogQueue::Append,
        append,
        target,
        &mut copied,
    )?;
    copy_each(
        files,
        alloc,
        directories,
        LogQueue::Rewrite,
        rewrite,
        target,
        &mut copied,
    )?;
    Ok(copied)
}

/// Copies the log files of an engine into another directory, so that an engine that is opened there
/// has the same content and goes its own way (raft-engine's `Engine::fork`). The source must not be
/// open. Of each queue the files go that an opening finds in the source's directories; the target and
/// its parents are made if they aren't there. Each copy is synced: a crash leaves it whole.
///
/// Settings under which files are kept for reuse are `RecyclesFiles`, those that tolerate any
/// corruption `ToleratesAnyCorruption`, and others that `Config::sanitize` refuses its fault. A target
/// that has files is `TargetHasFiles`. Else memory is missing, or a call on files was refused: then
/// some copies may stand in the target, whole or in part, and are to be removed. In any case no file
/// changes that was there.
pub fn fork<F: FileSystem>(
    files: &mut F,
    alloc: Global,
    source: &Config,
    target: &str,
) -> Result<CopyDetails, ForkError>
    ensures recycles { source.now.enable_log_recycle ≡ true → (result ≡ Err RecyclesFiles) × (F.disk files.new ≡ F.disk files.old) }
    ensures tolerates { source.now.enable_log_recycle ≢ true → source.now.recovery_mode ≡ TolerateAnyCorruption
        → (result ≡ Err ToleratesAnyCorruption) × (F.disk files.new ≡ F.disk files.old) }
    ensures empty { OnOk result (listed (F.disk files.old).names target.now ≡ []) }
    ensures ok { IfOk result (λ details. IsForkOf (F.disk files.old) (F.disk files.new) (directories_of (settings_of source.now)) target.now (map string_bytes details.copied.items)) }
    ensures links { IfOk result (λ details. details.symlinked.items ≡ []) }
    ensures adds { OnlyAdds (F.disk files.old) (F.disk files.new) }
{
    check_settings(source)?;
    let directories = all_directories(alloc, source)?;
    let append = found_files(files, alloc, &directories, LogQueue::Append)?;
    let rewrite = found_files(files, alloc, &directories, LogQueue::Rewrite)?;
    let names = files.list(alloc, target)?;
    check_target(&names)?;
    make_with_parents(files, alloc, target)?;
    let copied = copy_both(files, alloc, &directories, &append, &rewrite, target)?;
    Ok(CopyDetails {
        copied,
        symlinked: Vec::new(alloc),
    })
}
