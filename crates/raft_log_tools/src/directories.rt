//! The directories of an engine, and those that a fork makes.

ghost use Rattle.std.specs.Prelude.{◌≡◌, ◌∷◌, [], map, IfOk, string_bytes};
ghost use Rattle.raft_log_files.specs.Settings.{settings_of};
ghost use Rattle.raft_log_recovery.specs.Scan.{directories_of};

use raft_log_files::Config;
use std::alloc::{AllocError, Global};

/// The directories of an engine that has this one alone.
pub(crate) fn one_directory(alloc: Global, directory: &str) -> Result<Vec<String>, AllocError>
    ensures { IfOk result (λ v. map string_bytes v.items ≡ directory.now ∷ []) }
{
    let mut directories = Vec::new(alloc);
    directories.push(String::from_str(alloc, directory)?)?;
    Ok(directories)
}

/// The main directory of an engine with these settings, then its spill directory, if that is another.
pub(crate) fn all_directories(alloc: Global, config: &Config) -> Result<Vec<String>, AllocError>
    ensures { IfOk result (λ v. map string_bytes v.items ≡ directories_of (settings_of config.now)) }
{
    let mut directories = one_directory(alloc, config.dir.as_str())?;
    if let Some(spill) = &config.spill_dir
        && spill.as_str() != config.dir.as_str()
    {
        directories.push(spill.clone()?)?;
    }
    Ok(directories)
}
