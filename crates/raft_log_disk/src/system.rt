//! What a log asks of a file system.

ghost use Rattle.std.specs.Prelude.{◌≡◌, ◌⊎◌, ◌≤◌, ◌+◌, ◌-◌, List, ℕ, Option, Some, None, Bool, false, length, take, drop, map};
ghost use Rattle.std.specs.Prelude.{is_some, IsTrue, IfOk, IfErr, OnOk, OnErr, IsErr, IsErrOf};
ghost use Rattle.std.specs.Prelude.{◌↔◌, ◌++◌, replicate, min, ◌^◌, IsPermutation, IsSorted};
ghost use Rattle.std.specs.String.{string_bytes, string_cmp};
ghost use Rattle.raft_log_disk.specs.declared.fault.IoFault.TheVariants.{Memory, NotFound, Refused};
ghost use Rattle.raft_log_disk.specs.Disk.{Disk, IsIn, HasDirectory, LacksRoom, RefusedWrite, RefusedAllocate, RefusedTruncate, IsNoFile, IsFile};
ghost use Rattle.raft_log_disk.specs.Disk.{IsNoMove, IsNoNewFile, HasOneOf, Deletes, Renames, IsNamed};
ghost use Rattle.raft_log_disk.specs.Disk.{fd_of, listed, with_file, after_create, after_make_dir, after_write, after_truncate, after_allocate, after_sync, put, resized, filled};
ghost use Rattle.raft_log_disk.specs.Cause.{Meter, HasCause, HasReadCause, HasWriteCause, IsOneCall, IsPassedOver, UnlessRefused, spent};
ghost use Rattle.raft_log_disk.specs.Image.{HasImages};

use crate::{Fd, IoFault, Permission};
use std::alloc::Global;

/// Files in directories, named by paths (raft-engine's `FileSystem`). Names change at once. What
/// was written, allocated or cut is safe from a crash only after the file's next `sync`.
///
/// A call that is `Refused` may have taken effect in any part. After `Memory`, `NoSpace` and
/// `NotFound` the files are as before. A call that lacks room is never `Ok`.
///
/// Where what a call names is there, room is enough, no fuse is blown and the file system isn't
/// faulty, the call is `Ok` or `Memory`: each fault but `Memory` has its cause. Where nothing is set
/// to refuse (`NothingRefuses`) it stays so, whatever is called.
pub trait FileSystem: Send + Sync {
    /// What reads see, and what a crash may leave.
    ghost disk: { Self → Disk };

    /// The refusals so far, and those that are to come.
    ghost meter: { Self → Meter };

    /// The free bytes of a directory.
    ghost room: { Self → List ℕ → ℕ };

    /// That something is kept beside the file of a path.
    ghost has_metadata: { Self → List ℕ → Type 0 };

    /// That the bytes of some directory are bounded.
    ghost is_bounded: { Self → Type 0 };

    /// Makes an empty file, and opens it for writing. `NotFound`: its directory was not made.
    /// `Refused` too: no number is left, or the path is a directory.
    fn create(&mut self, path: &str) -> Result<Fd, IoFault>
        requires { fd_of (disk self.old).names path.now ≡ None }
        ensures ok { IfOk result (λ fd. (fd.0 ≡ (disk self.old).next) × (disk self.new ≡ after_create (disk self.old) path.now)) }
        ensures err { OnErr result ((disk self.new ≡ disk self.old) ⊎ (disk self.new ≡ after_create (disk self.old) path.now)) }
        ensures unchanged { UnlessRefused result (disk self.new ≡ disk self.old) }
        ensures cause { HasCause (HasDirectory (disk self.old).directories path.now → ⊥) ⊥ (meter self.old) (meter self.new) result }
        ensures call { IsOneCall (IsNoNewFile (disk self.old) path.now) (meter self.old) (meter self.new) result }
        ensures bound { is_bounded self.new → is_bounded self.old };

    /// The file of a path. `NotFound`: there is none.
    fn open(&mut self, path: &str, permission: Permission) -> Result<Fd, IoFault>
        ensures ok { IfOk result (λ fd. fd_of (disk self.old).names path.now ≡ Some fd.0) }
        ensures kept { disk self.new ≡ disk self.old }
        ensures cause { HasCause (fd_of (disk self.old).names path.now ≡ None) ⊥ (meter self.old) (meter self.new) result }
        ensures call { IsOneCall ⊥ (meter self.old) (meter self.new) result }
        ensures bound { is_bounded self.new → is_bounded self.old };

    /// Removes a file. `NotFound`: there is none.
    fn delete(&mut self, path: &str) -> Result<(), IoFault>
        ensures ok { OnOk result (Deletes (disk self.old) (disk self.new) path.now) }
        ensures err { OnErr result ((disk self.new ≡ disk self.old) ⊎ Deletes (disk self.old) (disk self.new) path.now) }
        ensures unchanged { UnlessRefused result (disk self.new ≡ disk self.old) }
        ensures cause { HasCause (fd_of (disk self.old).names path.now ≡ None) ⊥ (meter self.old) (meter self.new) result }
        ensures call { IsOneCall ⊥ (meter self.old) (meter self.new) result }
        ensures bound { is_bounded self.new → is_bounded self.old };

    /// Gives a file another path. `NotFound`: there is no such file, or the directory of the new
    /// path was not made. `Refused` too: the new path is a directory.
    fn rename(&mut self, from: &str, to: &str) -> Result<(), IoFault>
        requires { fd_of (disk self.old).names to.now ≡ None }
        ensures ok { OnOk result (Renames (disk self.old) (disk self.new) from.now to.now) }
        ensures err { OnErr result ((disk self.new ≡ disk self.old) ⊎ Renames (disk self.old) (disk self.new) from.now to.now) }
        ensures unchanged { UnlessRefused result (disk self.new ≡ disk self.old) }
        ensures cause { HasCause (IsNoMove (disk self.old) from.now to.now) ⊥ (meter self.old) (meter self.new) result }
        ensures call { IsOneCall (IsIn to.now (disk self.old).directories) (meter self.old) (meter self.new) result }
        ensures bound { is_bounded self.new → is_bounded self.old };

    /// Gives an old file the path of a new one (raft-engine's `reuse`): by default a `rename`.
    fn reuse(&mut self, from: &str, to: &str) -> Result<(), IoFault>
        requires { fd_of (disk self.old).names to.now ≡ None }
        ensures ok { OnOk result (Renames (disk self.old) (disk self.new) from.now to.now) }
        ensures err { OnErr result ((disk self.new ≡ disk self.old) ⊎ Renames (disk self.old) (disk self.new) from.now to.now) }
        ensures unchanged { UnlessRefused result (disk self.new ≡ disk self.old) }
        ensures cause { HasCause (IsNoMove (disk self.old) from.now to.now) ⊥ (meter self.old) (meter self.new) result }
        ensures call { IsOneCall (IsIn to.now (disk self.old).directories) (meter self.old) (meter self.new) result }
        ensures bound { is_bounded self.new → is_bounded self.old }
    {
        self.rename(from, to)
    }

    /// `reuse`, and then `open` for writing: two changing calls.
    fn reuse_and_open(&mut self, from: &str, to: &str) -> Result<Fd, IoFault>
        requires { fd_of (disk self.old).names to.now ≡ None }
        ensures ok { IfOk result (λ fd. Renames (disk self.old) (disk self.new) from.now to.now × (fd_of (disk self.new).names to.now ≡ Some fd.0)) }
        ensures err { OnErr result ((disk self.new ≡ disk self.old) ⊎ Renames (disk self.old) (disk self.new) from.now to.now) }
        ensures cause { HasCause (IsNoMove (disk self.old) from.now to.now) ⊥ (meter self.old) (meter self.new) result }
        ensures both { OnOk result ((meter self.new).calls_left ≡ spent (spent (meter self.old).calls_left)) }
        ensures some { OnErr result (((meter self.new).calls_left ≡ spent (meter self.old).calls_left)
            ⊎ ((meter self.new).calls_left ≡ spent (spent (meter self.old).calls_left))) }
        ensures blown { (meter self.old).calls_left ≡ Some 0 → IsErrOf result Refused }
        ensures stopped { IsIn to.now (disk self.old).directories → IsErr result }
        ensures why { IsErrOf result Refused → (spent (meter self.old).calls_left ≡ Some 0)
            ⊎ (IsTrue (meter self.old).is_faulty ⊎ IsIn to.now (disk self.old).directories) }
        ensures faulty { (meter self.new).is_faulty ≡ (meter self.old).is_faulty }
        ensures bound { is_bounded self.new → is_bounded self.old }
    {
        match self.reuse(from, to) {
            Ok(_) => self.open(to, Permission::ReadWrite),
            Err(fault) => Err(fault),
        }
    }

    /// Removes what a file system keeps beside the file of a path (raft-engine's metadata). By
    /// default there is nothing, and the call is passed over: it isn't counted as one.
    fn delete_metadata(&mut self, path: &str) -> Result<(), IoFault>
        ensures kept { disk self.new ≡ disk self.old }
        ensures fewer { (other : List ℕ) → has_metadata self.new other → has_metadata self.old other }
        ensures cause { HasCause ⊥ ⊥ (meter self.old) (meter self.new) result }
        ensures call { IsPassedOver (meter self.old) (meter self.new) result ⊎ IsOneCall ⊥ (meter self.old) (meter self.new) result }
        ensures bound { is_bounded self.new → is_bounded self.old }
    {
        let _ = path;
        Ok(())
    }

    /// Makes a directory, if it is not there. `Refused` too: a file has this path.
    fn make_dir(&mut self, path: &str) -> Result<(), IoFault>
        ensures ok { OnOk result (IsIn path.now (disk self.new).directories) }
        ensures dirs { (disk self.new ≡ disk self.old) ⊎ ((IsIn path.now (disk self.old).directories → ⊥) × (disk self.new ≡ after_make_dir (disk self.old) path.now)) }
        ensures unchanged { UnlessRefused result (OnErr result (disk self.new ≡ disk self.old)) }
        ensures cause { HasCause ⊥ ⊥ (meter self.old) (meter self.new) result }
        ensures call { IsOneCall (IsFile (disk self.old) path.now) (meter self.old) (meter self.new) result }
        ensures bound { is_bounded self.new → is_bounded self.old };

    /// Writes over what is there, and past the end. `NotFound`: no file has this number. `Refused`
    /// too: the file would reach 2^64 bytes.
    fn write_at(&mut self, fd: Fd, at: u64, bytes: &[u8]) -> Result<(), IoFault>
        requires { at ≤ length ((disk self.old).file fd.0).bytes }
        ensures ok { OnOk result (disk self.new ≡ with_file (disk self.old) fd.0 (after_write ((disk self.old).file fd.0) at bytes.now
            (put ((disk self.old).file fd.0).bytes at bytes.now))) }
        ensures err { OnErr result ((disk self.new ≡ disk self.old) ⊎ RefusedWrite (disk self.old) (disk self.new) fd.0 at bytes.now) }
        ensures unchanged { UnlessRefused result (disk self.new ≡ disk self.old) }
        ensures cause { HasWriteCause (IsNoFile (disk self.old) fd.0) (LacksRoom (room self.old) (disk self.old) fd.0
            (at + length bytes.now - length ((disk self.old).file fd.0).bytes)) (meter self.old) (meter self.new) result }
        ensures call { IsOneCall (2 ^ 64 ≤ at + length bytes.now) (meter self.old) (meter self.new) result }
        ensures bound { is_bounded self.new → is_bounded self.old };

    /// Cuts a file to a length in bytes, or fills it up to it with zeros.
    fn truncate(&mut self, fd: Fd, len: u64) -> Result<(), IoFault>
        ensures ok { OnOk result (disk self.new ≡ with_file (disk self.old) fd.0 (after_truncate ((disk self.old).file fd.0) len
            (resized ((disk self.old).file fd.0).bytes len))) }
        ensures err { OnErr result ((disk self.new ≡ disk self.old) ⊎ RefusedTruncate (disk self.old) (disk self.new) fd.0 len) }
        ensures unchanged { UnlessRefused result (disk self.new ≡ disk self.old) }
        ensures cause { HasCause (IsNoFile (disk self.old) fd.0) (LacksRoom (room self.old) (disk self.old) fd.0 (len - length
            ((disk self.old).file fd.0).bytes)) (meter self.old) (meter self.new) result }
        ensures call { IsOneCall ⊥ (meter self.old) (meter self.new) result }
        ensures bound { is_bounded self.new → is_bounded self.old };

    /// Makes room for bytes from a place on: where the file ends before, zeros stand there.
    /// `NotFound` and `Refused` as of `write_at`.
    fn allocate(&mut self, fd: Fd, at: u64, len: u64) -> Result<(), IoFault>
        requires { at ≤ length ((disk self.old).file fd.0).bytes }
        ensures ok { OnOk result (disk self.new ≡ with_file (disk self.old) fd.0 (after_allocate ((disk self.old).file fd.0) at len
            (filled ((disk self.old).file fd.0).bytes (at + len)))) }
        ensures err { OnErr result ((disk self.new ≡ disk self.old) ⊎ RefusedAllocate (disk self.old) (disk self.new) fd.0 at len) }
        ensures unchanged { UnlessRefused result (disk self.new ≡ disk self.old) }
        ensures cause { HasCause (IsNoFile (disk self.old) fd.0) (LacksRoom (room self.old) (disk self.old) fd.0
            (at + len - length ((disk self.old).file fd.0).bytes)) (meter self.old) (meter self.new) result }
        ensures call { IsOneCall (2 ^ 64 ≤ at + len) (meter self.old) (meter self.new) result }
        ensures bound { is_bounded self.new → is_bounded self.old };

    /// After it, a crash leaves of the file what a read gives.
    fn sync(&mut self, fd: Fd) -> Result<(), IoFault>
        ensures ok { OnOk result (disk self.new ≡ with_file (disk self.old) fd.0 (after_sync ((disk self.old).file fd.0))) }
        ensures err { OnErr result (disk self.new ≡ disk self.old) }
        ensures cause { HasCause (IsNoFile (disk self.old) fd.0) ⊥ (meter self.old) (meter self.new) result }
        ensures call { IsOneCall ⊥ (meter self.old) (meter self.new) result }
        ensures bound { is_bounded self.new → is_bounded self.old };

    /// Whether something is kept beside the file of a path: told only where it is so, by default
    /// never.
    fn exists_metadata(&self, path: &str) -> bool
        ensures { IsTrue result → has_metadata self.now path.now }
    {
        let _ = path;
        false
    }

    /// The names of the files in a directory, rising.
    fn list(&self, alloc: Global, directory: &str) -> Result<Vec<String>, IoFault>
        ensures names { IfOk result (λ v. IsPermutation (listed (disk self.now).names directory.now) (map string_bytes v.items)) }
        ensures rising { IfOk result (λ v. IsSorted string_cmp v.items) }
        ensures cause { IfErr result (λ e. e ≡ Memory) };

    /// Whether this is a directory that was made.
    fn is_dir(&self, path: &str) -> bool
        ensures yes { IsTrue result → IsIn path.now (disk self.now).directories }
        ensures no { IsIn path.now (disk self.now).directories → IsTrue result };

    /// Whether a file has this path. What is neither a file nor a directory is not there.
    fn is_file(&self, path: &str) -> bool
        ensures { result ≡ is_some (fd_of (disk self.now).names path.now) };

    /// The free bytes of a directory.
    fn available(&self, directory: &str) -> u64
        ensures { result ≡ room self.now directory.now };

    /// Up to `len` bytes of a file from a place on. `NotFound`: no file has this number.
    fn read_at(&self, alloc: Global, fd: Fd, at: u64, len: u64) -> Result<Vec<u8>, IoFault>
        ensures bytes { IfOk result (λ v. v.items ≡ take len (drop at ((disk self.now).file fd.0).bytes)) }
        ensures cause { HasReadCause (IsNoFile (disk self.now) fd.0) (HasOneOf (disk self.now) fd.0 (meter self.now).unreadable) result };

    /// The length of a file in bytes. `NotFound`: no file has this number.
    fn file_size(&self, fd: Fd) -> Result<u64, IoFault>
        ensures bytes { IfOk result (λ len. len ≡ length ((disk self.now).file fd.0).bytes) }
        ensures cause { HasReadCause (IsNoFile (disk self.now) fd.0) ⊥ result };

    /// Each file has a path and a number of its own.
    ghost is_named: { (files : Self) → IsNamed (disk files) };

    /// Where no directory is bounded, each has as many free bytes as a number can say.
    ghost has_room: { (files : Self) → (is_bounded files → ⊥) → (directory : List ℕ) → room files directory ≡ 2 ^ 64 - 1 };

    /// A file system as it reads is one of its images. Another is what was synced, as far as the
    /// least length since.
    ghost has_images: { (files : Self) → HasImages (disk files) };
}
