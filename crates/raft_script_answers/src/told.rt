//! What whoever proposed is told.
ghost use Rattle.std.specs.Prelude.{◌≡◌, ◌++◌, OnOk, string_bytes};
ghost use Rattle.raft_script_answers.specs.Answer.{full_text, number_or_dash, place_text, value_text};

use crate::numbers::{push_number, push_number_or_dash};
use std::alloc::AllocError;

// The text, and behind it a token and its place.
fn push_place(text: &mut String, token: u64, place: u64) -> Result<(), AllocError>
    ensures { OnOk result (string_bytes text.new ≡ string_bytes text.old ++ place_text token place) }
{
    push_number(text, token)?;
    text.push_str("@")?;
    push_number(text, place)
}

/// The text, and behind it a told answer that is this text (own). An `Err` is want of memory.
pub fn push_value(text: &mut String, token: u64, place: u64, value: &str) -> Result<(), AllocError>
    ensures { OnOk result (string_bytes text.new ≡ string_bytes text.old ++ value_text token place value.now) }
{
    text.push_str(" told ")?;
    push_place(text, token, place)?;
    text.push_str("=")?;
    text.push_str(value)
}

/// The same of a total, and `-` where the machine answered none (own).
pub fn push_total(
    text: &mut String,
    token: u64,
    place: u64,
    total: Option<u64>,
) -> Result<(), AllocError>
    ensures { OnOk result (string_bytes text.new ≡ string_bytes text.old ++ value_text token place (number_or_dash total)) }
{
    push_value(text, token, place, "")?;
    push_number_or_dash(text, total)
}

/// The text, and behind it that a command found no room (own). An `Err` is want of memory.
pub fn push_full(text: &mut String, token: u64, place: u64) -> Result<(), AllocError>
    ensures { OnOk result (string_bytes text.new ≡ string_bytes text.old ++ full_text token place) }
{
    text.push_str(" full ")?;
    push_place(text, token, place)
}
