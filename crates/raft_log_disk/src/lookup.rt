//! Looking up files, paths and directories.

ghost use Rattle.std.specs.Prelude.{◌≡◌, ◌++◌, OnOk, option_to_list, ◌+◌, ◌-◌, length, take, drop, map, option_map, Option, IfOk, IsTrue, is_some};
ghost use Rattle.raft_log_disk.specs.Text.{has_slash, name_in};
ghost use Rattle.raft_log_disk.specs.Disk.{IsIn, HasDirectory, fd_of};
ghost use Rattle.raft_log_disk.specs.Memory.{are_rising, texts_of, names_of, place_of, place_of_path};

use crate::memory_file::MemoryFile;
use std::alloc::{AllocError, Global};

/// The place of the file of a number: the newest one's at once, others' by halving.
pub fn find_number(files: &[MemoryFile], number: u64) -> Option<usize>
    requires { IsTrue (are_rising (names_of files.now)) }
    ensures { result ≡ place_of files.now number 0 }
{
    match files {
        [.., newest] if newest.number == number => Some(files.len() - 1),
        _ => files.binary_search_by_key(&number, |file| file.number).ok(),
    }
}

/// The place of the file of a path.
pub fn find_path(files: &[MemoryFile], path: &str) -> Option<usize>
    ensures { result ≡ place_of_path files.now path.now 0 }
{
    for (i, file) in files.iter().enumerate() {
        if file.path.as_str() == path {
            return Some(i);
        }
    }
    None
}

/// Whether a file has this path.
pub fn has_path(files: &[MemoryFile], path: &str) -> bool
    ensures { result ≡ is_some (fd_of (names_of files.now) path.now) }
{
    match files {
        [] => false,
        [first, rest @ ..] => first.path.as_str() == path || has_path(rest, path),
    }
}

pub fn is_same(a: &str, b: &str) -> bool
    ensures yes { IsTrue result → a.now ≡ b.now }
    ensures no { a.now ≡ b.now → IsTrue result }
{
    a == b
}

/// Whether a text is among these.
pub fn has_text(texts: &[String], text: &str) -> bool
    ensures yes { IsTrue result → IsIn text.now (texts_of texts.now) }
    ensures no { IsIn text.now (texts_of texts.now) → IsTrue result }
{
    match texts {
        [] => false,
        [first, rest @ ..] => is_same(first.as_str(), text) || has_text(rest, text),
    }
}

fn is_in_subdirectory(name: &str) -> bool
    ensures { result ≡ has_slash name.now }
{
    name.as_bytes().contains(&b'/')
}

/// The name that a path has directly in a directory.
pub fn name_of<'a>(directory: &str, path: &'a str) -> Option<&'a str>
    ensures { option_map (λ name. name.now) result ≡ name_in directory.now path.now }
{
    let Some(rest) = path.strip_prefix(directory) else {
        return None;
    };
    let Some(name) = rest.strip_prefix('/') else {
        return None;
    };
    if is_in_subdirectory(name) {
        None
    } else {
        Some(name)
    }
}

/// Adds the name that a path has directly in a directory, if it has one.
pub fn push_name(
    names: &mut Vec<String>,
    alloc: Global,
    directory: &str,
    path: &str,
) -> Result<(), AllocError>
    ensures { OnOk result (texts_of names.new.items ≡ texts_of names.old.items ++ option_to_list (name_in directory.now path.now)) }
{
    let Some(name) = name_of(directory, path) else {
        return Ok(());
    };
    let name = String::from_str(alloc, name)?;
    names.push(name)?;
    Ok(())
}

/// Whether a directory that was made holds this path.
pub fn has_directory(directories: &[String], path: &str) -> bool
    ensures yes { IsTrue result → HasDirectory (texts_of directories.now) path.now }
    ensures no { HasDirectory (texts_of directories.now) path.now → IsTrue result }
{
    match directories {
        [] => false,
        [first, rest @ ..] => {
            name_of(first.as_str(), path).is_some() || has_directory(rest, path)
        }
    }
}

/// Up to `len` bytes from a place on.
pub fn slice_of(alloc: Global, bytes: &[u8], at: usize, len: usize) -> Result<Vec<u8>, AllocError>
    ensures { IfOk result (λ v. v.items ≡ take len (drop at bytes.now)) }
{
    if at > bytes.len() {
        return Ok(Vec::new(alloc));
    }
    let rest = &bytes[at..];
    Vec::from_slice(alloc, &rest[..len.min(rest.len())])
}
