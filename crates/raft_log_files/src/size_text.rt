//! Sizes as texts: digits, spaces at will, and a unit.

ghost use Rattle.std.specs.Prelude.{◌≡◌, ◌≤◌, Some, IfOk, IfSome, length, string_bytes};
ghost use Rattle.std.specs.List.{prefix_len};
ghost use Rattle.raft_log_files.specs.Size.{letter_bytes, ends_unit, unit_bytes, is_space, size_of, size_said, size_text};

use crate::number;
use raft_log_disk::number::digits_value;
use raft_log_records::ReadableSize;
use std::alloc::{AllocError, Global};

/// How many bytes a unit's letter stands for.
fn bytes_of_letter(letter: u8) -> Option<u64>
    ensures value { result ≡ letter_bytes letter }
    ensures some_bytes { IfSome result (λ n. 1 ≤ n) }
{
    match letter {
        b'K' => Some(1 << 10),
        b'M' => Some(1 << 20),
        b'G' => Some(1 << 30),
        b'T' => Some(1 << 40),
        b'P' => Some(1 << 50),
        _ => None,
    }
}

/// Whether a text may follow a unit's letter.
fn is_unit_end(text: &[u8]) -> bool
    ensures { result ≡ ends_unit text.now }
{
    text.is_empty() || text == b"B".as_slice() || text == b"iB".as_slice()
}

/// How many bytes a unit stands for.
fn bytes_of_unit(unit: &[u8]) -> Option<u64>
    ensures value { result ≡ unit_bytes unit.now }
    ensures some_bytes { IfSome result (λ n. 1 ≤ n) }
{
    let Some((letter, rest)) = unit.split_first() else {
        return Some(1);
    };
    if *letter == b'B' && rest.is_empty() {
        return Some(1);
    }
    if is_unit_end(rest) {
        bytes_of_letter(*letter)
    } else {
        None
    }
}

fn spaces_len(text: &[u8]) -> usize
    ensures value { result ≡ prefix_len is_space text.now }
    ensures within { result ≤ length text.now }
{
    let mut len = 0;
    for byte in text {
        if *byte != b' ' {
            return len;
        }
        len += 1;
    }
    len
}

/// The size that a text says, if it says one below 2^64 bytes.
pub fn parse_size(text: &[u8]) -> Option<ReadableSize>
    ensures { result ≡ size_said text.now }
{
    let (digits, behind) = text.split_at(number::digits_len(text));
    if digits.is_empty() {
        return None;
    }
    let (_, unit) = behind.split_at(spaces_len(behind));
    let unit = bytes_of_unit(unit)?;
    let count = digits_value(digits)?;
    Some(ReadableSize(count.checked_mul(unit)?))
}

/// A size of so many bytes as a text: its digits and `B`.
pub fn build_size(alloc: Global, bytes: u64) -> Result<String, AllocError>
    ensures text { IfOk result (λ text. string_bytes text ≡ size_text (size_of bytes)) }
    ensures says { size_said (size_text (size_of bytes)) ≡ Some (size_of bytes) }
{
    format!(in alloc; "{bytes}B")
}
