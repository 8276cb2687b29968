//! CRC-32, the checksum of records.

mod register;
mod tables;

ghost use Rattle.std.specs.Prelude.{◌≡◌, ◌<◌, ◌++◌, ◌↔◌, ℕ, List, [], All, IsTrue, bit_xor};
ghost use Rattle.raft_log_records.specs.Checksum.{crc32_of, IsChangedRun};

use register::{take_all, take_bytes};
use std::marker::Model;

/// The CRC-32 of the bytes taken so far, so that bytes that lie apart are summed with no copy of
/// them (as crc32fast's `Hasher`).
#[derive(Drop)]
pub struct Checksum {
    /// Not complemented yet.
    register: u32,
}

impl Model for Checksum {
    ghost Value = { ℕ };

    ghost view = { λ checksum. bit_xor checksum.register 0xFFFF_FFFF };
}

impl Checksum {
    /// The checksum of no bytes.
    pub fn new() -> Self
        ensures { result ≡ crc32_of [] }
    {
        Checksum { register: u32::MAX }
    }

    /// Takes `bytes`, after those that it took before.
    pub fn update(&mut self, bytes: &[u8])
        ensures { (before : List ℕ) → self.old ≡ crc32_of before → self.new ≡ crc32_of (before ++ bytes.now) }
    {
        self.register = take_all(self.register, bytes);
    }

    /// The CRC-32 of all the bytes that it took.
    pub fn finish(self) -> u32
        ensures { result ≡ self }
    {
        self.register ^ u32::MAX
    }
}

impl Default for Checksum {
    ghost is_default = { λ checksum. checksum ≡ crc32_of [] };

    fn default() -> Self {
        Self::new()
    }
}

/// The CRC-32 of `bytes`, as raft-engine's `crc32`: reflected, polynomial EDB88320, the register
/// begins as all ones and is complemented at the end.
pub fn crc32(bytes: &[u8]) -> u32
    ensures { result ≡ crc32_of bytes.now }
{
    let mut checksum = Checksum::new();
    checksum.update(bytes);
    checksum.finish()
}

/// The same checksum with one table and a byte at a time: the plain program of the definition, which
/// is shorter to read and slower to run than [`crc32`].
#[tactic(auto, unfolding(crate::specs::Checksum::crc32_of))]
pub fn crc32_by_bytes(bytes: &[u8]) -> u32
    ensures { result ≡ crc32_of bytes.now }
{
    take_bytes(u32::MAX, bytes) ^ u32::MAX
}

/// Whether `bytes` have this checksum. Bytes that were changed in up to four neighbouring places
/// since it was made never do.
pub fn is_intact(bytes: &[u8], checksum: u32) -> bool
    ensures exact { IsTrue result ↔ (crc32_of bytes.now ≡ checksum) }
    ensures changed_run { (sent : List ℕ) → All (λ byte. byte < 256) sent → crc32_of sent ≡ checksum
        → IsChangedRun sent bytes.now → ¬ IsTrue result }
{
    crc32(bytes) == checksum
}
