//! The header of a log file.

ghost use Rattle.std.specs.Prelude.{◌≡◌, ◌≤◌, ◌+◌, IfOk, IsTrue, length, take, drop};
ghost use Rattle.std.specs.Int.{w64, from_be_bytes};
ghost use Rattle.raft_log_disk.specs.Text.{same_text};
ghost use Rattle.raft_log_disk.specs.Format.{magic, versioned, header_len};

use raft_log_records::Version;
use std::alloc::{AllocError, Global};
use thiserror::Error;

/// The text at the front of each log file.
const MAGIC: &[u8; 53] = b"RAFT-LOG-FILE-HEADER-9986AB3E47F320B394C8E84916EB0ED5";

/// The format of a log file (raft-engine's `LogFileFormat`).
#[derive(Clone, Copy, Debug, PartialEq, Eq)]
pub struct LogFileFormat {
    pub version: Version,
    /// Records begin at multiples of so many bytes; 0 where they follow one another. Version 1 has
    /// none.
    pub alignment: u64,
}

/// Why bytes have no header at their front.
#[derive(Clone, Copy, Debug, PartialEq, Eq, Error)]
pub enum HeaderFault {
    /// The bytes end before the header does.
    #[error("the bytes end before the header does")]
    CutShort,
    /// The text at the front is another one.
    #[error("the text at the front is another one")]
    NoHeader,
    /// The version is neither 1 nor 2.
    #[error("the version is neither 1 nor 2")]
    BadVersion,
}

fn u64_at(bytes: &[u8]) -> u64
    requires { 8 ≤ length bytes.now }
    ensures { result ≡ from_be_bytes w64 (take 8 bytes.now) }
{
    u64::from_be_bytes([
        bytes[0], bytes[1], bytes[2], bytes[3], bytes[4], bytes[5], bytes[6], bytes[7],
    ])
}

fn is_magic(text: &[u8]) -> bool
    ensures { result ≡ same_text text.now magic }
{
    text == MAGIC.as_slice()
}

fn of_version(version: u64, rest: &[u8]) -> Result<LogFileFormat, HeaderFault>
    ensures read { result ≡ versioned version rest.now }
    ensures within { IfOk result (λ f. header_len f.version ≤ 61 + length rest.now) }
{
    if version == 1 {
        Ok(LogFileFormat::new(Version::V1, 0))
    } else if version != 2 {
        Err(HeaderFault::BadVersion)
    } else if rest.len() < 8 {
        Err(HeaderFault::CutShort)
    } else {
        Ok(LogFileFormat::new(Version::V2, u64_at(rest)))
    }
}

impl LogFileFormat {
    ghost use Rattle.raft_log_disk.specs.Format.{IsSpellable, header_at, spelled_header};

    /// A format with records at multiples of `alignment` bytes.
    pub fn new(version: Version, alignment: u64) -> LogFileFormat
        ensures version { result.version ≡ version }
        ensures alignment { result.alignment ≡ alignment }
    {
        LogFileFormat { version, alignment }
    }

    /// The length of the longest header in bytes.
    pub fn max_encoded_len() -> usize
        ensures { result ≡ 69 }
    {
        69
    }

    /// The length of a version's header in bytes.
    pub fn encoded_len(version: Version) -> usize
        ensures { result ≡ header_len version }
    {
        match version {
            Version::V1 => 61,
            Version::V2 => 69,
        }
    }

    /// Whether a header can say this format: version 1 has no alignment.
    pub fn is_spellable(&self) -> bool
        ensures yes { IsTrue result → IsSpellable self.now }
        ensures no { IsSpellable self.now → IsTrue result }
    {
        let alignment = self.alignment;
        self.version == Version::V2 || alignment == 0
    }

    /// The header's bytes.
    pub fn encode(&self, alloc: Global) -> Result<Vec<u8>, AllocError>
        requires { IsSpellable self.now }
        ensures { IfOk result (λ v. v.items ≡ spelled_header self.now) }
    {
        let mut bytes = Vec::from_slice(alloc, MAGIC.as_slice())?;
        match self.version {
            Version::V1 => bytes.extend_from_slice(&1u64.to_be_bytes())?,
            Version::V2 => {
                bytes.extend_from_slice(&2u64.to_be_bytes())?;
                bytes.extend_from_slice(&self.alignment.to_be_bytes())?;
            }
        }
        Ok(bytes)
    }

    /// Reads the header at the front of some bytes.
    pub fn decode(bytes: &[u8]) -> Result<LogFileFormat, HeaderFault>
        ensures read { result ≡ header_at bytes.now }
        ensures within { IfOk result (λ f. header_len f.version ≤ length bytes.now) }
    {
        if bytes.len() < 61 {
            return Err(HeaderFault::CutShort);
        }
        let (text, behind) = bytes.split_at(53);
        if !is_magic(text) {
            return Err(HeaderFault::NoHeader);
        }
        let (_, rest) = bytes.split_at(61);
        of_version(u64_at(behind), rest)
    }
}
