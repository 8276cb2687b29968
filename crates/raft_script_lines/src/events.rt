//! The events that lines name.
ghost use Rattle.std.specs.Prelude.{◌≡◌, Some, None};
ghost use Rattle.std.specs.Option.{option_map};
ghost use Rattle.raft_script_lines.specs.Words.{words_of, words_after};
ghost use Rattle.raft_script_lines.specs.Reading.{init_in, voters_in, addr_in, put_in, key_event_in, deliver_in, choice_in, crash_in, event_after, event_in};
ghost use Rattle.raft_script_lines.specs.Outcome.{Tells};

use crate::lists::{first_list, second_list};
use crate::no_event::{NoEvent, ReadLineError};
use crate::script_line::{CrashChoice, ScriptEvent};
use crate::verb::{Verb, WordOfKey, event_with_key, event_with_three, event_with_two, verb_in};
use crate::words::{
    first_word, ids_in, key_in, last_word, next_word, number_in, one_number, three_numbers,
    two_numbers, value_in, words_left,
};
use raft_values::Bytes;
use std::alloc::Global;

// `N G VOTERS.. [/ LEARNERS..]`
fn init_in(alloc: Global, words: Option<&str>) -> Result<ScriptEvent, ReadLineError>
    ensures { Tells result (init_in (words_after (option_map (λ text. text.now) words.entry))) }
{
    let (node, words) = next_word(words)?;
    let (group, words) = next_word(words)?;
    let lists = words_left(words)?;
    let second = second_list(lists)?;
    let node = number_in(node)?;
    let group = number_in(group)?;
    let voters = first_list(alloc, lists)?;
    let learners = ids_in(alloc, second)?;
    if voters.has_twice() || learners.has_twice() {
        return Err(ReadLineError::NoEvent(NoEvent::IdTwice));
    }
    Ok(ScriptEvent::Init {
        node,
        group,
        voters,
        learners,
    })
}

// `N G IDS..`
#[tactic(auto, using(crate::proofs::WordLemmas::some_words))]
fn voters_in(alloc: Global, words: Option<&str>) -> Result<ScriptEvent, ReadLineError>
    ensures { Tells result (voters_in (words_after (option_map (λ text. text.now) words.entry))) }
{
    let (node, words) = next_word(words)?;
    let (group, words) = next_word(words)?;
    let list = words_left(words)?;
    let node = number_in(node)?;
    let group = number_in(group)?;
    let ids = ids_in(alloc, Some(list))?;
    if ids.has_twice() {
        return Err(ReadLineError::NoEvent(NoEvent::IdTwice));
    }
    Ok(ScriptEvent::Voters { node, group, ids })
}

// `N G ID TEXT`
fn addr_in(alloc: Global, words: Option<&str>) -> Result<ScriptEvent, ReadLineError>
    ensures { Tells result (addr_in (words_after (option_map (λ text. text.now) words.entry))) }
{
    let (node, words) = next_word(words)?;
    let (group, words) = next_word(words)?;
    let (id, words) = next_word(words)?;
    let text = last_word(words)?;
    let node = number_in(node)?;
    let group = number_in(group)?;
    let id = number_in(id)?;
    let address = Bytes::from_slice(alloc, text.as_bytes())?;
    Ok(ScriptEvent::Addr {
        node,
        group,
        id,
        address,
    })
}

// `N G KEY VALUE`
fn put_in(alloc: Global, words: Option<&str>) -> Result<ScriptEvent, ReadLineError>
    ensures { Tells result (put_in (words_after (option_map (λ text. text.now) words.entry))) }
{
    let (node, words) = next_word(words)?;
    let (group, words) = next_word(words)?;
    let (key, words) = next_word(words)?;
    let value = last_word(words)?;
    let node = number_in(node)?;
    let group = number_in(group)?;
    let key = key_in(alloc, key)?;
    let value = value_in(alloc, value)?;
    Ok(ScriptEvent::Put {
        node,
        group,
        key,
        value,
    })
}

// `N G KEY`
fn key_event_in(
    alloc: Global,
    word: WordOfKey,
    words: Option<&str>,
) -> Result<ScriptEvent, ReadLineError>
    ensures { Tells result (key_event_in word (words_after (option_map (λ text. text.now) words.entry))) }
{
    let (node, words) = next_word(words)?;
    let (group, words) = next_word(words)?;
    let key = last_word(words)?;
    let node = number_in(node)?;
    let group = number_in(group)?;
    let key = key_in(alloc, key)?;
    Ok(event_with_key(word, node, group, key))
}

// `G NUMBER [CUT]`
#[tactic(auto, using(crate::proofs::WordLemmas::words_empty))]
fn deliver_in(words: Option<&str>) -> Result<ScriptEvent, NoEvent>
    ensures { result ≡ deliver_in (words_after (option_map (λ text. text.now) words.entry)) }
{
    let (group, words) = next_word(words)?;
    let (number, words) = next_word(words)?;
    let Some(cut) = words else {
        let group = number_in(group)?;
        let number = number_in(number)?;
        let cut = None;
        return Ok(ScriptEvent::Deliver { group, number, cut });
    };
    let cut = last_word(Some(cut))?;
    let group = number_in(group)?;
    let number = number_in(number)?;
    let cut = Some(number_in(cut)?);
    Ok(ScriptEvent::Deliver { group, number, cut })
}

fn choice_in(word: &str) -> Result<CrashChoice, NoEvent>
    ensures { result ≡ choice_in word.now }
{
    match word {
        "least" => Ok(CrashChoice::Least),
        "most" => Ok(CrashChoice::Most),
        _ => Err(NoEvent::UnknownChoice),
    }
}

// `N least` or `N most`
fn crash_in(words: Option<&str>) -> Result<ScriptEvent, NoEvent>
    ensures { result ≡ crash_in (words_after (option_map (λ text. text.now) words.entry)) }
{
    let (node, words) = next_word(words)?;
    let word = last_word(words)?;
    let node = number_in(node)?;
    let choice = choice_in(word)?;
    Ok(ScriptEvent::Crash { node, choice })
}

// What follows a verb.
fn event_after(alloc: Global, verb: Verb, words: Option<&str>) -> Result<ScriptEvent, ReadLineError>
    ensures { Tells result (event_after (Some verb)
        (words_after (option_map (λ text. text.now) words.entry))) }
{
    match verb {
        Verb::Two(word) => {
            let (first, second) = two_numbers(words)?;
            Ok(event_with_two(word, first, second))
        }
        Verb::Three(word) => {
            let (node, group, third) = three_numbers(words)?;
            Ok(event_with_three(word, node, group, third))
        }
        Verb::Key(word) => key_event_in(alloc, word, words),
        Verb::Put => put_in(alloc, words),
        Verb::Init => init_in(alloc, words),
        Verb::Addr => addr_in(alloc, words),
        Verb::Voters => voters_in(alloc, words),
        Verb::Deliver => Ok(deliver_in(words)?),
        Verb::Clean => {
            let node = one_number(words)?;
            Ok(ScriptEvent::Clean { node })
        }
        Verb::Crash => Ok(crash_in(words)?),
    }
}

/// The event that a text names: its verb, and what follows.
pub fn event_in(alloc: Global, text: &str) -> Result<ScriptEvent, ReadLineError>
    ensures { Tells result (event_in (words_of text.now)) }
{
    let (word, words) = first_word(text);
    match verb_in(word) {
        Some(verb) => event_after(alloc, verb, words),
        None => Err(ReadLineError::NoEvent(NoEvent::UnknownWord)),
    }
}
