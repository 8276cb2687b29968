//! Reads a line.
ghost use Rattle.std.specs.Prelude.{◌≡◌, IfOk, IfErr};
ghost use Rattle.std.specs.Option.{option_map};
ghost use Rattle.raft_script_lines.specs.Words.{words_of, words_after};
ghost use Rattle.raft_script_lines.specs.Reading.{line_of, text_in, line_with, line_in, count_in, fuse_in};
ghost use Rattle.raft_script_lines.specs.Outcome.{Tells, SpellsOnly, IsWhyNot};

use crate::events::event_in;
use crate::no_event::{NoEvent, ReadLineError};
use crate::script_line::ScriptLine;
use crate::words::{
    first_word, has_empty_word, next_word, number_in, one_number, two_numbers, words_left,
};
use std::alloc::Global;
use std::str;

/// The longest line, in bytes, its newline not counted.
pub const LONGEST_LINE: usize = 65_536;

/// The most nodes of a cluster.
const MOST_NODES: u64 = 9;

/// What the bytes of a line say, their newline not among them (own). It is `Ok` just for the
/// spellings of a line. `NoEvent` has the first reason why the bytes are none; `Memory` says that
/// memory was refused, which lists, addresses, keys and values take.
pub fn read_line(alloc: Global, bytes: &[u8]) -> Result<ScriptLine, ReadLineError>
    ensures ok { IfOk result (SpellsOnly bytes.now) }
    ensures err { IfErr result (IsWhyNot bytes.now) }
{
    line_of(alloc, bytes)
}

fn line_of(alloc: Global, bytes: &[u8]) -> Result<ScriptLine, ReadLineError>
    ensures { Tells result (line_of bytes.now) }
{
    if bytes.len() > LONGEST_LINE {
        return Err(ReadLineError::NoEvent(NoEvent::TooLong));
    }
    match str::from_utf8(bytes) {
        Ok(text) => text_in(alloc, text),
        Err(_) => Err(ReadLineError::NoEvent(NoEvent::NotUtf8)),
    }
}

// An empty line and a comment are skipped.
fn text_in(alloc: Global, text: &str) -> Result<ScriptLine, ReadLineError>
    ensures { Tells result (text_in text.now) }
{
    if text.is_empty() || text.starts_with('#') {
        return Ok(ScriptLine::Skipped);
    }
    line_with(alloc, text)
}

fn line_with(alloc: Global, text: &str) -> Result<ScriptLine, ReadLineError>
    ensures { Tells result (line_with (words_of text.now)) }
{
    if has_empty_word(text) {
        return Err(ReadLineError::NoEvent(NoEvent::SpareSpace));
    }
    line_in(alloc, text)
}

fn line_in(alloc: Global, text: &str) -> Result<ScriptLine, ReadLineError>
    ensures { Tells result (line_in (words_of text.now)) }
{
    let (word, words) = first_word(text);
    match word {
        "nodes" => {
            let count = count_in(words)?;
            Ok(ScriptLine::Nodes { count })
        }
        "kv" => {
            let count = count_in(words)?;
            Ok(ScriptLine::Kv { count })
        }
        "now" => {
            let tick = one_number(words)?;
            Ok(ScriptLine::Now { tick })
        }
        "total" => {
            let (node, group) = two_numbers(words)?;
            Ok(ScriptLine::Total { node, group })
        }
        "fuse" => fuse_in(alloc, words),
        _ => {
            let event = event_in(alloc, text)?;
            Ok(ScriptLine::Happens(event))
        }
    }
}

// `COUNT`
fn count_in(words: Option<&str>) -> Result<u64, NoEvent>
    ensures { result ≡ count_in (words_after (option_map (λ text. text.now) words.entry)) }
{
    let count = one_number(words)?;
    if count == 0 || count > MOST_NODES {
        return Err(NoEvent::OutOfRange);
    }
    Ok(count)
}

// `K EVENT`
#[tactic(auto, using(crate::proofs::WordLemmas::some_words))]
fn fuse_in(alloc: Global, words: Option<&str>) -> Result<ScriptLine, ReadLineError>
    ensures { Tells result (fuse_in (words_after (option_map (λ text. text.now) words.entry))) }
{
    let (calls, words) = next_word(words)?;
    let event = words_left(words)?;
    let calls = number_in(calls)?;
    if calls == 0 {
        return Err(ReadLineError::NoEvent(NoEvent::OutOfRange));
    }
    let event = event_in(alloc, event)?;
    Ok(ScriptLine::Fuse { calls, event })
}
