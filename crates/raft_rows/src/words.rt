//! Numbers and bytes as words.

use std::alloc::{AllocError, Global};

/// The number that a word is. A word that is none is the greatest one, so that its row fails.
pub fn number(word: &str) -> u64 {
    word.parse().unwrap_or(u64::MAX)
}

/// The value of a hexadecimal digit, 0 of any other byte.
fn digit(byte: u8) -> u8 {
    match byte {
        b'0'..=b'9' => byte - b'0',
        b'a'..=b'f' => byte - b'a' + 10,
        _ => 0,
    }
}

/// The bytes of a text: quotes are none, and `\x0a` is the byte 10.
fn spelled(alloc: Global, text: &str) -> Result<Vec<u8>, AllocError> {
    let mut bytes = Vec::new(alloc);
    let mut rest = text.as_bytes();
    for _ in 0..text.len() {
        match rest {
            [] => break,
            [b'"', after @ ..] => rest = after,
            [b'\\', b'x', high, low, after @ ..] => {
                bytes.push((digit(*high) << 4) | digit(*low))?;
                rest = after;
            }
            [byte, after @ ..] => {
                bytes.push(*byte)?;
                rest = after;
            }
        }
    }
    Ok(bytes)
}

/// The bytes that a word says: `"ab\x00"` are three, and `"a"*3` are `aaa`.
pub fn bytes(alloc: Global, word: &str) -> Result<Vec<u8>, AllocError> {
    let (text, times) = word.rsplit_once('*').unwrap_or((word, ""));
    let part = spelled(alloc, text)?;
    match (part.as_slice(), times.parse::<u32>()) {
        ([byte], Ok(times)) => vec![in alloc; *byte; times as usize],
        _ => Ok(part),
    }
}
