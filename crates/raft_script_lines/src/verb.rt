//! The words that events begin with.
ghost use Rattle.std.specs.Prelude.{◌≡◌};
ghost use Rattle.raft_script_lines.specs.Reading.{event_with_key, event_with_two, event_with_three};
ghost use Rattle.raft_script_lines.specs.Verbs.{verb_of};

use crate::script_line::ScriptEvent;
use raft_values::Bytes;

/// Words with two numbers behind them (own).
#[derive(Clone, Copy, Debug, PartialEq, Eq)]
pub enum WordOfTwo {
    Add,
    Elect,
    Heartbeat,
    Snapshot,
    Reopen,
}

/// Words with three numbers behind them (own).
#[derive(Clone, Copy, Debug, PartialEq, Eq)]
pub enum WordOfThree {
    Propose,
    Lost,
    Purge,
}

/// Words with a node, a group and a key behind them (own).
#[derive(Clone, Copy, Debug, PartialEq, Eq)]
pub enum WordOfKey {
    Get,
    Drop,
}

/// The word that an event begins with (own).
#[derive(Clone, Copy, PartialEq, Eq)]
pub enum Verb {
    Two(WordOfTwo),
    Three(WordOfThree),
    Key(WordOfKey),
    Put,
    Init,
    Addr,
    Voters,
    Deliver,
    Clean,
    Crash,
}

/// The verb that a word is.
pub fn verb_in(word: &str) -> Option<Verb>
    ensures { result ≡ verb_of word.now }
{
    // Most lines deliver a frame or propose a command.
    match word {
        "deliver" => Some(Verb::Deliver),
        "propose" => Some(Verb::Three(WordOfThree::Propose)),
        "put" => Some(Verb::Put),
        "get" => Some(Verb::Key(WordOfKey::Get)),
        "drop" => Some(Verb::Key(WordOfKey::Drop)),
        "add" => Some(Verb::Two(WordOfTwo::Add)),
        "elect" => Some(Verb::Two(WordOfTwo::Elect)),
        "heartbeat" => Some(Verb::Two(WordOfTwo::Heartbeat)),
        "snapshot" => Some(Verb::Two(WordOfTwo::Snapshot)),
        "reopen" => Some(Verb::Two(WordOfTwo::Reopen)),
        "lost" => Some(Verb::Three(WordOfThree::Lost)),
        "purge" => Some(Verb::Three(WordOfThree::Purge)),
        "init" => Some(Verb::Init),
        "addr" => Some(Verb::Addr),
        "voters" => Some(Verb::Voters),
        "clean" => Some(Verb::Clean),
        "crash" => Some(Verb::Crash),
        _ => None,
    }
}

/// The event with this word and these two numbers.
pub fn event_with_two(word: WordOfTwo, first: u64, second: u64) -> ScriptEvent
    ensures { result ≡ event_with_two word first second }
{
    let (node, group) = (first, second);
    match word {
        WordOfTwo::Add => ScriptEvent::Add { node, group },
        WordOfTwo::Elect => ScriptEvent::Elect { node, group },
        WordOfTwo::Heartbeat => ScriptEvent::Heartbeat { node, group },
        WordOfTwo::Snapshot => ScriptEvent::Snapshot { node, group },
        WordOfTwo::Reopen => ScriptEvent::Reopen {
            node,
            workers: second,
        },
    }
}

/// The event with this word, for this group at this node, and the third number.
pub fn event_with_three(word: WordOfThree, node: u64, group: u64, third: u64) -> ScriptEvent
    ensures { result ≡ event_with_three word node group third }
{
    match word {
        WordOfThree::Propose => ScriptEvent::Propose {
            node,
            group,
            amount: third,
        },
        WordOfThree::Lost => ScriptEvent::Lost {
            node,
            group,
            peer: third,
        },
        WordOfThree::Purge => ScriptEvent::Purge {
            node,
            group,
            index: third,
        },
    }
}

/// The event with this word, for this group at this node, and the key.
pub fn event_with_key(word: WordOfKey, node: u64, group: u64, key: Bytes) -> ScriptEvent
    ensures { result ≡ event_with_key word node group key }
{
    match word {
        WordOfKey::Get => ScriptEvent::Get { node, group, key },
        WordOfKey::Drop => ScriptEvent::Drop { node, group, key },
    }
}
