//! Scripts whose lines are only counted.
use crate::broken::{Piecewise, Stubborn};
use crate::rows::{bytes_of, number_in};
use raft_script_session::{LineRunner, ScriptEnd, run_lines};
use std::alloc::{AllocError, Global};
use std::thread::Threads;

/// Answers each line by its length; `!` is no event, and `?` finds no memory.
#[derive(Drop)]
struct Lengths {
    alloc: Global,
}

impl LineRunner for Lengths {
    ghost runs = { λ old line text new. Unit {0} };

    fn run_line<R: Threads + Sync>(
        &mut self,
        _rt: &R,
        line: &[u8],
    ) -> Result<Option<String>, AllocError> {
        match line {
            b"!" => Ok(None),
            b"?" => Err(AllocError),
            _ => Ok(Some(format!(in self.alloc; "{}\n", line.len())?)),
        }
    }
}

/// How a script is read, and its answers are written: pieces of so many bytes, and so many bytes before
/// a call fails.
#[derive(Clone, Copy)]
struct How {
    piece: usize,
    read: usize,
    room: usize,
    notes_flushes: bool,
}

/// As it comes, and nothing fails.
const WHOLE: How = How {
    piece: usize::MAX,
    read: usize::MAX,
    room: usize::MAX,
    notes_flushes: false,
};

// `N READ ROOM`, and what follows.
fn pieces_in(words: &str) -> (How, &str) {
    let (piece, rest) = number_in(words);
    let (read, rest) = number_in(rest);
    let (room, rest) = number_in(rest);
    let notes_flushes = false;
    (
        How {
            piece,
            read,
            room,
            notes_flushes,
        },
        rest,
    )
}

// `N READ`, and what follows.
fn flushes_in(words: &str) -> (How, &str) {
    let (piece, rest) = number_in(words);
    let (read, rest) = number_in(rest);
    let notes_flushes = true;
    (
        How {
            piece,
            read,
            notes_flushes,
            ..WHOLE
        },
        rest,
    )
}

// How a row's script is read, and what follows.
fn how_in<'a>(verb: &str, words: &'a str) -> (How, &'a str) {
    match verb {
        "pieces" => pieces_in(words),
        "flushes" => flushes_in(words),
        "reads" => {
            let (piece, rest) = number_in(words);
            (How { piece, ..WHOLE }, rest)
        }
        _ => (WHOLE, words),
    }
}

// The bytes of `nodes 1`, a comment of so many bytes and what is to follow.
fn with_comment(alloc: Global, words: &str) -> Result<Vec<u8>, AllocError> {
    let (length, rest) = number_in(words);
    let mut script = b"nodes 1\n".to_vec(alloc)?;
    for _ in 0..length {
        script.push(b'#')?;
    }
    let rest = bytes_of(alloc, rest)?;
    script.extend_from_slice(rest.as_slice())?;
    Ok(script)
}

// The bytes of a row's script.
fn script_of(alloc: Global, verb: &str, words: &str) -> Result<Vec<u8>, AllocError> {
    match verb {
        "comment" | "reads" => with_comment(alloc, words),
        _ => bytes_of(alloc, words),
    }
}

// What a row says of its run: how it ended, and what was written or how much was read.
fn text_of(
    alloc: Global,
    verb: &str,
    end: ScriptEnd,
    reader: &Piecewise<'_>,
    written: &[u8],
) -> Result<String, AllocError> {
    if verb == "reads" {
        return format!(in alloc; "{end:?} {} of at most {}", reader.given, reader.most);
    }
    let text = str::from_utf8(written).unwrap_or("no UTF-8");
    format!(in alloc; "{end:?} {} {text:?}", end.status())
}

/// What the script of a row is answered by, and how it ends.
pub fn session<R: Threads + Sync>(rt: &R, alloc: Global, row: &str) -> Result<String, AllocError> {
    let (verb, words) = row.split_once(' ').unwrap_or((row, ""));
    let (how, rest) = how_in(verb, words);
    let script = script_of(alloc, verb, rest)?;
    let mut reader = Piecewise {
        bytes: script.as_slice(),
        piece: how.piece,
        left: how.read,
        interrupted: false,
        given: 0,
        most: 0,
    };
    let mut writer = Stubborn::new(alloc, how.piece, how.room, how.notes_flushes);
    let end = run_lines(rt, alloc, &mut Lengths { alloc }, &mut reader, &mut writer);
    text_of(alloc, verb, end, &reader, writer.bytes.as_slice())
}
