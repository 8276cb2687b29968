//! Numbers in decimal digits.

ghost use Rattle.std.specs.Prelude.{◌≡◌, ◌^◌, IsTrue, Some, None, nat_lt, if◌then◌else◌};
ghost use Rattle.std.specs.List.{list_all};
ghost use Rattle.raft_log_disk.specs.Name.{is_digit, value_of};

/// Whether a byte is a decimal digit.
pub fn is_digit_byte(byte: u8) -> bool
    ensures { result ≡ is_digit byte }
{
    byte > b'/' && byte < b':'
}

/// Whether a text has no byte but decimal digits.
pub fn are_digits(text: &[u8]) -> bool
    ensures { result ≡ list_all is_digit text.now }
{
    for byte in text {
        if !is_digit_byte(*byte) {
            return false;
        }
    }
    true
}

/// The number that digits spell, if it is below 2^64.
pub fn digits_value(text: &[u8]) -> Option<u64>
    requires { IsTrue (list_all is_digit text.now) }
    ensures { result ≡ (if nat_lt (value_of text.now) (2 ^ 64) then Some (value_of text.now) else None) }
{
    let mut value: u64 = 0;
    for byte in text {
        value = value.checked_mul(10)?.checked_add(u64::from(*byte - b'0'))?;
    }
    Some(value)
}
