//! Laws of every file system, and of every disk.

ghost use Rattle.std.specs.Prelude.{◌≡◌, ◌≤◌, ◌^◌, ◌++◌, ◌∷◌, ℕ, List, Ok, Result, take};
ghost use Rattle.raft_log_disk.specs.Cause.{HasCause, HasWriteCause, IsOneCall, IsTaken, Meter, NothingRefuses};
ghost use Rattle.raft_log_disk.specs.declared.crash.CrashChoice.TheVariants.{Least, Most};
ghost use Rattle.raft_log_disk.specs.declared.fault.IoFault.{IoFault};
ghost use Rattle.raft_log_disk.specs.declared.format.LogFileFormat.{LogFileFormat};
ghost use Rattle.raft_log_disk.specs.Disk.{Disk, AreBytes, IsIn, IsFile, IsNamed, IsNoFile, LacksRoom, listed, with_file, after_sync};
ghost use Rattle.raft_log_disk.specs.Format.{IsSpellable, header_at, header_len, spelled_header};
ghost use Rattle.raft_log_disk.specs.Image.{Image, IsImage, IsImageOf};

use crate::FileSystem;

/// Each file has a path and a number of its own, and a crash may always leave what reads see, and
/// what was synced of each file as far as the least length since.
pub fn least_and_most_are_images<F: FileSystem>(files: &F)
    ensures named { IsNamed (F.disk files.now) }
    ensures least { IsImageOf Least (F.disk files.now) }
    ensures most { IsImageOf Most (F.disk files.now) }
{
    let _ = files;
}

/// After a sync each image has of the file what a read gives of it.
pub fn synced_file_is_left_as_read()
    ensures { (d : Disk) (fd : ℕ) (image : Image) → (IsNoFile d fd → ⊥) →
        IsImage (with_file d fd (after_sync (d.file fd))) image → image fd ≡ (d.file fd).bytes }
{}

/// Where nothing is set to refuse, a write and an allocation are refused only for want of memory,
/// for a file that isn't there, or for one that would reach 2^64 bytes.
pub fn writes_are_taken<F: FileSystem>(files: &F)
    ensures written { (d : Disk) (fd most bytes : ℕ) (new : Meter) (result : Result (Unit {0}) IoFault) → NothingRefuses (F.is_bounded files.now) (F.meter files.now) → bytes ≤ most
        → HasWriteCause (IsNoFile d fd) (LacksRoom (F.room files.now) d fd bytes) (F.meter files.now) new result → IsOneCall (2 ^ 64 ≤ most) (F.meter files.now) new result
        → IsTaken (IsNoFile d fd) (2 ^ 64 ≤ most) result }
    ensures allocated { (d : Disk) (fd most bytes : ℕ) (new : Meter) (result : Result (Unit {0}) IoFault) → NothingRefuses (F.is_bounded files.now) (F.meter files.now) → bytes ≤ most
        → HasCause (IsNoFile d fd) (LacksRoom (F.room files.now) d fd bytes) (F.meter files.now) new result → IsOneCall (2 ^ 64 ≤ most) (F.meter files.now) new result
        → IsTaken (IsNoFile d fd) (2 ^ 64 ≤ most) result }
{
    let _ = files;
}

/// What `list` names is a file: until a call deletes or renames it, `open` finds it.
pub fn listed_files_are_there()
    ensures { (d : Disk) (directory name : List ℕ) → IsIn name (listed d.names directory) → IsFile d (directory ++ 47 ∷ name) }
{}

/// A header that was written is read as it was, whatever follows, and a header that is read is
/// spelled so.
pub fn headers_are_read_as_written()
    ensures written { (f : LogFileFormat) (rest : List ℕ) → IsSpellable f → header_at (spelled_header f ++ rest) ≡ Ok f }
    ensures read { (bytes : List ℕ) (f : LogFileFormat) → AreBytes bytes → header_at bytes ≡ Ok f → take (header_len f.version) bytes ≡ spelled_header f }
    ensures spellable { (bytes : List ℕ) (f : LogFileFormat) → AreBytes bytes → header_at bytes ≡ Ok f → IsSpellable f }
{}
