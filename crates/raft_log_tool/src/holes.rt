//! The text of holes.
ghost use Rattle.std.specs.Prelude.{◌≡◌, ◌++◌, IfOk, OnOk, string_bytes};
ghost use Rattle.std.specs.List.{flat_map};
ghost use Rattle.raft_log_tool.specs.Lines.{hole_text, holes_text};

use raft_log_contents::push_named;
use std::alloc::{AllocError, Global};

// The text, and behind it the line of a group and of the last index before its first hole.
fn push_hole(text: &mut String, hole: &(u64, u64)) -> Result<(), AllocError>
    ensures { OnOk result (string_bytes text.new ≡ string_bytes text.old ++ hole_text hole.now) }
{
    push_named(text, "hole in group ", hole.0)?;
    push_named(text, " behind ", hole.1)?;
    text.push_str("\n")
}

// The text, and behind it a line for each hole.
fn push_holes(text: &mut String, holes: &[(u64, u64)]) -> Result<(), AllocError>
    ensures { OnOk result (string_bytes text.new ≡ string_bytes text.old ++ flat_map hole_text holes.now) }
{
    for hole in holes {
        push_hole(text, hole)?;
    }
    Ok(())
}

/// A line for each hole, or that there is none (own). The only error is want of memory.
pub fn text_of_holes(alloc: Global, holes: &[(u64, u64)]) -> Result<String, AllocError>
    ensures { IfOk result (λ text. string_bytes text ≡ holes_text holes.now) }
{
    match holes {
        [] => String::from_str(alloc, "no holes\n"),
        [_, ..] => {
            let mut text = String::new(alloc);
            push_holes(&mut text, holes)?;
            Ok(text)
        }
    }
}
