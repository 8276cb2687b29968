//! What rows are made of.
use percent_encoding::percent_decode;
use std::alloc::{AllocError, Global};

/// The bytes that a row's text stands for: `|` stands for a newline and `%FF` for a byte.
pub fn bytes_of(alloc: Global, text: &str) -> Result<Vec<u8>, AllocError> {
    let mut bytes = Vec::new(alloc);
    percent_decode(text.as_bytes()).append_to(&mut bytes)?;
    for byte in bytes.iter_mut() {
        if *byte == b'|' {
            *byte = b'\n';
        }
    }
    Ok(bytes)
}

/// The number at the front of a text, and the text behind its space.
pub fn number_in(text: &str) -> (usize, &str) {
    let (word, rest) = text.split_once(' ').unwrap_or((text, ""));
    (word.parse().unwrap_or(usize::MAX), rest)
}
