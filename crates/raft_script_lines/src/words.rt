//! Words of a text, one after the other, and the numbers that they name.
ghost use Rattle.std.specs.Prelude.{◌≡◌, ◌≢◌, ◌<◌, ◌∷◌, ℕ, List, [], MatchOption, MatchResult, Some, None, codes, get_or, length};
ghost use Rattle.std.specs.Str.{bytes_eq};
ghost use Rattle.std.specs.List.{list_any};
ghost use Rattle.std.specs.Option.{option_map};
ghost use Rattle.raft_script_lines.specs.Words.{words_of, words_after, is_empty_word, number_of, numbers_of};
ghost use Rattle.raft_script_lines.specs.Reading.{key_in, number_in, one_number, two_numbers, three_numbers, numbers_in, value_in};
ghost use Rattle.raft_script_lines.specs.Outcome.{Tells};

use crate::id_list::IdList;
use crate::no_event::{NoEvent, ReadLineError};
use raft_values::Bytes;
use std::alloc::Global;

/// The most bytes of a key.
pub const LONGEST_KEY: usize = 255;

/// The most bytes of a value.
pub const LONGEST_VALUE: usize = 199;

// The place of the first space.
fn space_in(bytes: &[u8]) -> Option<usize>
    ensures { MatchOption result ((i : ℕ) → i < length bytes.now → get_or bytes.now i 0 ≢ 32)
        (λ place. (place < length bytes.now) × (get_or bytes.now place 0 ≡ 32) × ((i : ℕ) → i < place → get_or bytes.now i 0 ≢ 32)) }
{
    bytes.iter().position(|byte| *byte == b' ')
}

/// The first word, and the text behind the space that ends it (own).
pub fn first_word(text: &str) -> (&str, Option<&str>)
    ensures { words_of text.now ≡ result.0.now ∷ words_after (option_map
        (λ rest. rest.now) result.1) }
{
    match space_in(text.as_bytes()) {
        Some(place) => (&text[..place], Some(&text[place + 1..])),
        None => (text, None),
    }
}

/// Whether a space has no word before or behind it.
pub fn has_empty_word(text: &str) -> bool
    ensures { result ≡ list_any is_empty_word (words_of text.now) }
{
    let mut words = Some(text);
    while let Some(text) = words {
        let (word, rest) = first_word(text);
        if word.is_empty() {
            return true;
        }
        words = rest;
    }
    false
}

/// The next word, and the text behind it.
pub fn next_word(words: Option<&str>) -> Result<(&str, Option<&str>), NoEvent>
    ensures { MatchResult result
        (λ next. words_after (option_map (λ text. text.now) words.entry)
        ≡ next.0.now ∷ words_after (option_map (λ text. text.now) next.1))
        (λ why. (words_after (option_map (λ text. text.now) words.entry) ≡ [])
        × (why ≡ NoEvent.WrongCount)) }
{
    match words {
        Some(text) => Ok(first_word(text)),
        None => Err(NoEvent::WrongCount),
    }
}

/// The only word that is left.
pub fn last_word(words: Option<&str>) -> Result<&str, NoEvent>
    ensures { MatchResult result
        (λ word. words_after (option_map (λ text. text.now) words.entry) ≡ word.now ∷ [])
        (λ why. ((word : List ℕ) → words_after (option_map (λ text. text.now) words.entry)
        ≢ word ∷ []) × (why ≡ NoEvent.WrongCount)) }
{
    match next_word(words)? {
        (word, None) => Ok(word),
        (_, Some(_)) => Err(NoEvent::WrongCount),
    }
}

/// The text that is left.
pub fn words_left(words: Option<&str>) -> Result<&str, NoEvent>
    ensures { MatchResult result
        (λ left. words_after (option_map (λ text. text.now) words.entry) ≡ words_of left.now)
        (λ why. (words_after (option_map (λ text. text.now) words.entry) ≡ [])
        × (why ≡ NoEvent.WrongCount)) }
{
    words.ok_or(NoEvent::WrongCount)
}

/// The number that a word names.
pub fn number_in(word: &str) -> Result<u64, NoEvent>
    ensures { result ≡ number_in word.now }
{
    number_of(word).ok_or(NoEvent::NotANumber)
}

/// The number that a word names: decimal digits, at least one, below 2^64 (own). A sign is no
/// digit.
pub fn number_of(word: &str) -> Option<u64>
    ensures { result ≡ number_of word.now }
{
    if word.starts_with('+') {
        return None;
    }
    word.parse().ok()
}

/// The one number that is left.
pub fn one_number(words: Option<&str>) -> Result<u64, NoEvent>
    ensures { result ≡ one_number (words_after (option_map (λ text. text.now) words.entry)) }
{
    number_in(last_word(words)?)
}

/// The two numbers that are left.
pub fn two_numbers(words: Option<&str>) -> Result<(u64, u64), NoEvent>
    ensures { result ≡ two_numbers (words_after (option_map (λ text. text.now) words.entry)) }
{
    let (first, rest) = next_word(words)?;
    let second = last_word(rest)?;
    Ok((number_in(first)?, number_in(second)?))
}

/// The three numbers that are left.
pub fn three_numbers(words: Option<&str>) -> Result<(u64, u64, u64), NoEvent>
    ensures { result ≡ three_numbers (words_after (option_map (λ text. text.now) words.entry)) }
{
    let (first, rest) = next_word(words)?;
    let (second, rest) = next_word(rest)?;
    let third = last_word(rest)?;
    Ok((number_in(first)?, number_in(second)?, number_in(third)?))
}

/// The numbers that are left, each of them an id.
pub fn ids_in(alloc: Global, words: Option<&str>) -> Result<IdList, ReadLineError>
    ensures { Tells result (numbers_in (words_after (option_map (λ text. text.now) words.entry))) }
{
    let mut ids = IdList::new(alloc);
    let mut left = words;
    while let Some(text) = left {
        let (word, rest) = first_word(text);
        ids.push(number_in(word)?)?;
        left = rest;
    }
    Ok(ids)
}

/// The key that a word is.
pub fn key_in(alloc: Global, word: &str) -> Result<Bytes, ReadLineError>
    ensures { Tells result (key_in word.now) }
{
    if word.len() > LONGEST_KEY {
        return Err(ReadLineError::NoEvent(NoEvent::OutOfRange));
    }
    Ok(Bytes::from_slice(alloc, word.as_bytes())?)
}

fn is_dash(word: &str) -> bool
    ensures { result ≡ bytes_eq word.now (codes "-") }
{
    matches!(word, "-")
}

/// The value that a word is: `-` is none.
pub fn value_in(alloc: Global, word: &str) -> Result<Bytes, ReadLineError>
    ensures { Tells result (value_in word.now) }
{
    if word.len() > LONGEST_VALUE || is_dash(word) {
        return Err(ReadLineError::NoEvent(NoEvent::OutOfRange));
    }
    Ok(Bytes::from_slice(alloc, word.as_bytes())?)
}
