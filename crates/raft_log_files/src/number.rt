//! Digits at the front of a text, and digits that are written.

ghost use Rattle.std.specs.Prelude.{◌≡◌, ◌++◌, OnOk, string_bytes};
ghost use Rattle.std.specs.List.{prefix_len};
ghost use Rattle.raft_log_disk.specs.Name.{digits, is_digit};

use raft_log_disk::number::is_digit_byte;
use std::alloc::AllocError;

/// How many digits stand at the front of a text.
pub fn digits_len(text: &[u8]) -> usize
    ensures { result ≡ prefix_len is_digit text.now }
{
    let mut len = 0;
    for byte in text {
        if !is_digit_byte(*byte) {
            return len;
        }
        len += 1;
    }
    len
}

/// Writes the last `count` decimal digits of a number behind a text.
pub fn push_digits(text: &mut String, count: u32, number: u64) -> Result<(), AllocError>
    ensures { OnOk result (string_bytes text.new ≡ string_bytes text.old ++ digits count number) }
{
    if count == 0 {
        return Ok(());
    }
    push_digits(text, count - 1, number / 10)?;
    text.push(char::from(b'0' + (number % 10) as u8))
}
