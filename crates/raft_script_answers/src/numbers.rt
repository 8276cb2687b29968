//! Numbers in a text.
ghost use Rattle.std.specs.Prelude.{◌≡◌, ◌++◌, OnOk, string_bytes};
ghost use Rattle.std.specs.Fmt.{decimal};
ghost use Rattle.raft_script_answers.specs.Answer.{number_or_dash};

use itoa::Buffer;
use std::alloc::AllocError;

/// The text, and the number behind it.
pub fn push_number(text: &mut String, number: u64) -> Result<(), AllocError>
    ensures { OnOk result (string_bytes text.new ≡ string_bytes text.old ++ decimal number) }
{
    let mut digits = Buffer::new();
    text.push_str(digits.format(number))
}

/// The text, and behind it a number, or `-` where there is none.
pub fn push_number_or_dash(text: &mut String, number: Option<u64>) -> Result<(), AllocError>
    ensures { OnOk result (string_bytes text.new ≡ string_bytes text.old ++ number_or_dash number) }
{
    match number {
        Some(number) => push_number(text, number),
        None => text.push_str("-"),
    }
}
