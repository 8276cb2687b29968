//! Two lists with the word `/` between them.
ghost use Rattle.std.specs.Prelude.{◌≡◌, MatchResult, Some, None, true, false};
ghost use Rattle.std.specs.Option.{option_map};
ghost use Rattle.raft_script_lines.specs.Words.{words_of, words_after};
ghost use Rattle.raft_script_lines.specs.Reading.{is_slash, before_slash, behind_slash, or_none, lacks_list, numbers_in};
ghost use Rattle.raft_script_lines.specs.Outcome.{Tells};

use crate::id_list::IdList;
use crate::no_event::{NoEvent, ReadLineError};
use crate::words::{first_word, number_in};
use std::alloc::Global;

fn is_slash(word: &str) -> bool
    ensures { result ≡ is_slash word.now }
{
    matches!(word, "/")
}

// What is behind the first `/`, if there is one: a text, or nothing.
fn behind_slash(text: &str) -> Option<Option<&str>>
    ensures { option_map (λ rest. words_after (option_map (λ text. text.now) rest)) result
        ≡ behind_slash (words_of text.now) }
{
    let mut words = Some(text);
    while let Some(text) = words {
        let (word, rest) = first_word(text);
        if is_slash(word) {
            return Some(rest);
        }
        words = rest;
    }
    None
}

/// The text of the second list, if there is a `/`. A list of no words is a wrong count.
#[tactic(auto, using(crate::proofs::WordLemmas::some_words, crate::proofs::WordLemmas::lists_there))]
pub fn second_list(lists: &str) -> Result<Option<&str>, NoEvent>
    ensures { MatchResult result
        (λ second. (lacks_list (words_of lists.now) ≡ false)
        × (or_none (behind_slash (words_of lists.now))
        ≡ words_after (option_map (λ text. text.now) second)))
        (λ why. (lacks_list (words_of lists.now) ≡ true) × (why ≡ NoEvent.WrongCount)) }
{
    let (first, _) = first_word(lists);
    if is_slash(first) {
        return Err(NoEvent::WrongCount);
    }
    match behind_slash(lists) {
        None => Ok(None),
        Some(None) => Err(NoEvent::WrongCount),
        Some(Some(second)) => Ok(Some(second)),
    }
}

/// The ids of the first list: up to a `/` or the end.
pub fn first_list(alloc: Global, lists: &str) -> Result<IdList, ReadLineError>
    ensures { Tells result (numbers_in (before_slash (words_of lists.now))) }
{
    let mut ids = IdList::new(alloc);
    let mut left = Some(lists);
    while let Some(text) = left {
        let (word, rest) = first_word(text);
        if is_slash(word) {
            return Ok(ids);
        }
        ids.push(number_in(word)?)?;
        left = rest;
    }
    Ok(ids)
}
