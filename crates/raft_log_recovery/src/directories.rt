//! The directories of the log, which an opening makes.

ghost use Rattle.std.specs.Prelude.{◌≡◌, ◌⊎◌, ◌∷◌, [], map, IfOk, OnOk, IfErr, IsErr, Err, string_bytes};
ghost use Rattle.raft_log_disk.specs.Cause.{NothingRefuses, RefusesNoMore};
ghost use Rattle.raft_log_disk.specs.Disk.{IsIn, IsFile};
ghost use Rattle.raft_log_files.specs.Settings.{settings_of};
ghost use Rattle.raft_log_files.specs.declared.error.Error.TheVariants.{Other};
ghost use Rattle.raft_log_files.specs.declared.error.OtherFault.TheVariants.{NotADirectory};
ghost use Rattle.raft_log_recovery.specs.Scan.{AllMade, AnyFile, IsMadeUnless, IsScanFault, OnlyMakes, directories_of};

use raft_log_files::{Config, Error, FileSystem, OtherFault};
use std::alloc::{AllocError, Global};

/// The main directory, then the spill directory where that is another one.
pub(crate) fn directories_in(alloc: Global, config: &Config) -> Result<Vec<String>, AllocError>
    ensures { IfOk result (λ v. map string_bytes v.items ≡ directories_of (settings_of config.now)) }
{
    let mut directories = Vec::new(alloc);
    directories.push(String::from_str(alloc, config.dir.as_str())?)?;
    if let Some(spill) = &config.spill_dir {
        if spill.as_str() != config.dir.as_str() {
            directories.push(String::from_str(alloc, spill.as_str())?)?;
        }
    }
    Ok(directories)
}

/// Makes a directory that isn't there. A path that is a file is `Other`.
fn make_directory<F: FileSystem>(files: &mut F, path: &str) -> Result<(), Error>
    ensures made { OnOk result (IsIn path.now (F.disk files.new).directories) }
    ensures only { OnlyMakes (path.now ∷ []) (F.disk files.old) (F.disk files.new) }
    ensures file { IsFile (F.disk files.old) path.now → result ≡ Err (Other NotADirectory) }
    ensures counted { OnOk result ((F.meter files.new).refusals ≡ (F.meter files.old).refusals) }
    ensures err { IfErr result (λ e. IsScanFault (path.now ∷ []) (F.disk files.old) (F.meter files.old) (F.meter files.new) e) }
    ensures later { RefusesNoMore (F.is_bounded files.old) (F.is_bounded files.new) (F.meter files.old) (F.meter files.new) }
    ensures taken { NothingRefuses (F.is_bounded files.old) (F.meter files.old) → IfErr result IsMadeUnless }
{
    if files.is_file(path) {
        return Err(Error::Other(OtherFault::NotADirectory));
    }
    if files.is_dir(path) {
        return Ok(());
    }
    match files.make_dir(path) {
        Ok(()) => Ok(()),
        Err(fault) => Err(Error::from(fault)),
    }
}

/// Makes the directories that aren't there, in their order.
pub(crate) fn make_directories<F: FileSystem>(files: &mut F, paths: &[String]) -> Result<(), Error>
    ensures made { OnOk result (AllMade (map string_bytes paths.now) (F.disk files.new)) }
    ensures only { OnlyMakes (map string_bytes paths.now) (F.disk files.old) (F.disk files.new) }
    ensures file { AnyFile (map string_bytes paths.now) (F.disk files.old) → IsErr result }
    ensures counted { OnOk result ((F.meter files.new).refusals ≡ (F.meter files.old).refusals) }
    ensures err { IfErr result (λ e. IsScanFault (map string_bytes paths.now) (F.disk files.old) (F.meter files.old) (F.meter files.new) e) }
    ensures later { RefusesNoMore (F.is_bounded files.old) (F.is_bounded files.new) (F.meter files.old) (F.meter files.new) }
    ensures taken { NothingRefuses (F.is_bounded files.old) (F.meter files.old) → IfErr result IsMadeUnless }
{
    match paths {
        [] => Ok(()),
        [first, rest @ ..] => {
            make_directory(files, first.as_str())?;
            make_directories(files, rest)
        }
    }
}
