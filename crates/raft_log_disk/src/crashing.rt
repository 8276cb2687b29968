//! A crash of the files in memory.

ghost use Rattle.std.specs.Prelude.{◌≡◌, ◌++◌, IsTrue, IfOk, IfErr, OnOk, Err, length, map};
ghost use Rattle.std.specs.String.{string_bytes};
ghost use Rattle.raft_log_disk.specs.declared.crash.CrashRefusal.TheVariants.{NotAnImage, ByChance, Memory};
ghost use Rattle.raft_log_disk.specs.Disk.{IsIn, AreBytes, settled};
ghost use Rattle.raft_log_disk.specs.Image.{chosen_of, bytes_of, NamesFiles, AreAmong};
ghost use Rattle.raft_log_disk.specs.Memory.{state_of, names_of};
ghost use Rattle.raft_log_disk.specs.Changes.{spans_of, undone};
ghost use Rattle.raft_log_disk.specs.Crashed.{AreImages, AreGenuine, AreCrashed, IsFileGenuine, chosen_in, paths_of, said_paths};

use crate::image::{is_genuine, is_image, kept_of};
use crate::lookup::is_same as is_same_text;
use crate::memory_file::{MemoryFile, Written};
use crate::name::id_of_path;
use crate::{CrashChoice, CrashRefusal, FileBytes};
use std::alloc::{AllocError, Global};

// The bytes that stand beside a path.
fn bytes_beside<'a>(all: &'a [FileBytes], path: &str) -> &'a [u8]
    ensures { result.now ≡ bytes_of all.now path.now }
{
    match all {
        [] => &[],
        [first, rest @ ..] => {
            if first.path.as_str() == path {
                &first.bytes
            } else {
                bytes_beside(rest, path)
            }
        }
    }
}

// What the choice leaves of a file, whose last sync or crash left `kept`.
fn chosen<'a>(file: &'a MemoryFile, kept: &'a [u8], choice: &'a CrashChoice) -> &'a [u8]
    requires { kept.now ≡ undone file.now.changes.items file.now.bytes.items }
    ensures { result.now ≡ chosen_of choice.now (string_bytes file.now.path) (state_of file.now) }
{
    match choice {
        CrashChoice::Least => {
            let (front, _) = kept.split_at(file.least.min(kept.len()));
            front
        }
        CrashChoice::Most => &file.bytes,
        CrashChoice::Bytes(all) => bytes_beside(all, file.path.as_str()),
    }
}

/// Whether a crash may leave of each file what is chosen.
pub fn check_images(
    alloc: Global,
    files: &[MemoryFile],
    choice: &CrashChoice,
) -> Result<(), CrashRefusal>
    ensures ok { OnOk result (AreImages choice.now files.now) }
    ensures refused { result ≡ Err NotAnImage → AreImages choice.now files.now → ⊥ }
    ensures only { result ≡ Err ByChance → ⊥ }
{
    match files {
        [] => Ok(()),
        [first, rest @ ..] => {
            let Ok(kept) = kept_of(alloc, first) else {
                return Err(CrashRefusal::Memory);
            };
            if !is_image(first, &kept, chosen(first, &kept, choice)) {
                return Err(CrashRefusal::NotAnImage);
            }
            check_images(alloc, rest, choice)
        }
    }
}

fn shows_genuine(
    alloc: Global,
    file: &MemoryFile,
    choice: &CrashChoice,
) -> Result<bool, CrashRefusal>
    ensures yes { IfOk result (λ b. IsTrue b → IsFileGenuine choice.now file.now) }
    ensures no { IfOk result (λ b. IsFileGenuine choice.now file.now → IsTrue b) }
    ensures memory { IfErr result (λ e. e ≡ Memory) }
{
    let Some(id) = id_of_path(file.path.as_bytes()) else {
        return Ok(true);
    };
    let Ok(kept) = kept_of(alloc, file) else {
        return Err(CrashRefusal::Memory);
    };
    let Ok(is_so) = is_genuine(alloc, id, file, &kept, chosen(file, &kept, choice)) else {
        return Err(CrashRefusal::Memory);
    };
    Ok(is_so)
}

/// Whether nothing passes by chance in what is chosen.
pub fn check_chance(
    alloc: Global,
    files: &[MemoryFile],
    choice: &CrashChoice,
) -> Result<(), CrashRefusal>
    ensures ok { OnOk result (AreGenuine choice.now files.now) }
    ensures refused { result ≡ Err ByChance → AreGenuine choice.now files.now → ⊥ }
    ensures only { result ≡ Err NotAnImage → ⊥ }
{
    match files {
        [] => Ok(()),
        [first, rest @ ..] => {
            if !shows_genuine(alloc, first, choice)? {
                return Err(CrashRefusal::ByChance);
            }
            check_chance(alloc, rest, choice)
        }
    }
}

fn is_named(files: &[MemoryFile], path: &str) -> bool
    ensures yes { IsTrue result → IsIn path.now (paths_of files.now) }
    ensures no { IsIn path.now (paths_of files.now) → IsTrue result }
{
    match files {
        [] => false,
        [first, rest @ ..] => is_same_text(path, first.path.as_str()) || is_named(rest, path),
    }
}

fn is_said(all: &[FileBytes], path: &str) -> bool
    ensures yes { IsTrue result → IsIn path.now (said_paths all.now) }
    ensures no { IsIn path.now (said_paths all.now) → IsTrue result }
{
    match all {
        [] => false,
        [first, rest @ ..] => is_same_text(path, first.path.as_str()) || is_said(rest, path),
    }
}

fn are_named(all: &[FileBytes], files: &[MemoryFile]) -> bool
    ensures yes { IsTrue result → AreAmong (said_paths all.now) (paths_of files.now) }
    ensures no { AreAmong (said_paths all.now) (paths_of files.now) → IsTrue result }
{
    match all {
        [] => true,
        [first, rest @ ..] => is_named(files, first.path.as_str()) && are_named(rest, files),
    }
}

fn are_said(files: &[MemoryFile], all: &[FileBytes]) -> bool
    ensures yes { IsTrue result → AreAmong (paths_of files.now) (said_paths all.now) }
    ensures no { AreAmong (paths_of files.now) (said_paths all.now) → IsTrue result }
{
    match files {
        [] => true,
        [first, rest @ ..] => is_said(all, first.path.as_str()) && are_said(rest, all),
    }
}

/// Whether an image that is said names each file once, and no other.
pub fn names_files(choice: &CrashChoice, files: &[MemoryFile]) -> bool
    ensures yes { IsTrue result → NamesFiles choice.now (names_of files.now) }
    ensures no { NamesFiles choice.now (names_of files.now) → IsTrue result }
{
    match choice {
        CrashChoice::Least => true,
        CrashChoice::Most => true,
        CrashChoice::Bytes(all) => {
            all.len() == files.len() && are_named(all, files) && are_said(files, all)
        }
    }
}

fn copy_writes(alloc: Global, to: &mut Vec<Written>, from: &[Written]) -> Result<(), AllocError>
    ensures { OnOk result (spans_of to.new.items ≡ spans_of to.old.items ++ spans_of from.now) }
{
    for write in from {
        let bytes = Vec::from_slice(alloc, &write.bytes)?;
        to.push(Written {
            at: write.at,
            bytes,
        })?;
    }
    Ok(())
}

// The bytes, once more.
fn copied(alloc: Global, bytes: &[u8]) -> Result<Vec<u8>, AllocError>
    ensures items { IfOk result (λ v. v.items ≡ bytes.now) }
    ensures fits { IfOk result (λ v. AreBytes v.items) }
{
    let copy = Vec::from_slice(alloc, bytes)?;
    Ok(copy)
}

fn crashed(alloc: Global, file: &MemoryFile, choice: &CrashChoice) -> Result<MemoryFile, AllocError>
    ensures path { IfOk result (λ f. string_bytes f.path ≡ string_bytes file.now.path) }
    ensures number { IfOk result (λ f. f.number ≡ file.now.number) }
    ensures state { IfOk result (λ f. state_of f ≡ settled (state_of file.now) (chosen_in choice.now file.now)) }
{
    let kept = kept_of(alloc, file)?;
    let bytes = copied(alloc, chosen(file, &kept, choice))?;
    let mut earlier = Vec::new(alloc);
    copy_writes(alloc, &mut earlier, &file.earlier)?;
    copy_writes(alloc, &mut earlier, &file.later)?;
    let brought = Vec::from_slice(alloc, &file.brought)?;
    let path = String::from_str(alloc, file.path.as_str())?;
    let len = bytes.len();
    Ok(MemoryFile {
        path,
        number: file.number,
        bytes,
        changes: Vec::new(alloc),
        least: len,
        greatest: len,
        earlier,
        later: Vec::new(alloc),
        brought,
        spare: Vec::new(alloc),
    })
}

/// The files as the choice leaves them.
pub fn crash_all(
    alloc: Global,
    files: &[MemoryFile],
    choice: &CrashChoice,
) -> Result<Vec<MemoryFile>, AllocError>
    ensures { IfOk result (λ v. AreCrashed choice.now files.now v.items) }
{
    let mut all = Vec::new(alloc);
    for file in files {
        let next = crashed(alloc, file, choice)?;
        all.push(next)?;
    }
    Ok(all)
}
