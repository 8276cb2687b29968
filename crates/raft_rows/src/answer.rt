//! What a row is answered.

use std::alloc::Global;
use std::{fmt, io};

/// The answer to a row.
#[derive(Drop)]
pub enum Answer {
    Word(&'static str),
    Text(String),
    /// Printed as text between quotes, with `\x0a` for the byte 10.
    Bytes(Vec<u8>),
    /// There was no memory for the row, and no call was made.
    NoMemory,
}

impl Answer {
    /// It takes no memory.
    pub fn truth(truth: bool) -> Answer {
        Answer::Word(if truth { "true" } else { "false" })
    }

    /// A value as `{:?}` prints it.
    pub fn shown(alloc: Global, value: &impl fmt::Debug) -> Answer {
        match format!(in alloc; "{value:?}") {
            Ok(text) => Answer::Text(text),
            Err(_) => Answer::Word("no memory to show"),
        }
    }

    /// A value as `{}` prints it.
    pub fn told(alloc: Global, value: &impl fmt::Display) -> Answer {
        match format!(in alloc; "{value}") {
            Ok(text) => Answer::Text(text),
            Err(_) => Answer::NoMemory,
        }
    }

    /// The bytes that a call told, or its error.
    pub fn bytes<E: fmt::Debug + Drop>(alloc: Global, told: Result<Vec<u8>, E>) -> Answer {
        match told {
            Ok(bytes) => Answer::Bytes(bytes),
            Err(error) => Answer::shown(alloc, &error),
        }
    }

    /// The same, where a call may have found nothing.
    pub fn found<E: fmt::Debug + Drop>(alloc: Global, told: Result<Option<Vec<u8>>, E>) -> Answer {
        match told {
            Ok(Some(bytes)) => Answer::Bytes(bytes),
            Ok(None) => Answer::Word("None"),
            Err(error) => Answer::shown(alloc, &error),
        }
    }

    /// Prints the row and its answer.
    pub(crate) fn print(&self, rt: &impl Print, row: &str) -> io::Result<()> {
        match self {
            Answer::Word(word) => println!(rt; "{row} -> {word}"),
            Answer::NoMemory => println!(rt; "{row} -> no memory"),
            Answer::Text(text) => println!(rt; "{row} -> {text}"),
            Answer::Bytes(bytes) => println!(rt;
                "{row} -> \"{}\"",
                bytes.as_slice().escape_ascii()
            ),
        }
    }
}
