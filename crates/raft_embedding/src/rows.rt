//! What becomes of a row.

use crate::calls::{call, fail, reset};
use crate::clock::Clock;
use crate::house::{House, Told, refused};
use crate::told::look;
use raft_rows::{Answer, Rows, bytes, number};
use std::alloc::{AllocError, Global};

impl House {
    // A call of the node.
    fn ask(&mut self, alloc: Global, id: u64, words: &[&str], text: &mut String) -> Option<Told> {
        let answered = call(alloc, self.node(id)?, words)?;
        Some(self.answered(id, &answered, text))
    }

    fn open(&mut self, id: u64, text: &mut String) -> Option<Told> {
        let opened = self.home(id)?.open();
        Some(self.opened(id, &opened, text))
    }

    // The clock of a group starts at the node.
    fn start(
        &mut self,
        alloc: Global,
        id: u64,
        group: u64,
        now: u64,
        text: &mut String,
    ) -> Option<Told> {
        self.home(id)?.clock = Some(Clock::start(alloc, id, group, now)?);
        Some(text.push_str("started"))
    }

    // What is due at the moment is asked of the node.
    fn tick(&mut self, id: u64, now: u64, text: &mut String) -> Option<Told> {
        Some(match self.home(id)?.tick(now)? {
            Ok(answers) => self.ticked(id, answers.as_slice(), text),
            Err(_) => Err(AllocError),
        })
    }

    // The peer's stream begins anew.
    fn reset(&mut self, id: u64, peer: u64, text: &mut String) -> Option<Told> {
        Some(match &reset(self.node(id)?, peer) {
            Ok(()) => text.push_str("reset"),
            Err(why) => refused(why, text),
        })
    }

    // What the peer sent the node doesn't come.
    fn lose(&mut self, id: u64, peer: u64, text: &mut String) -> Option<Told> {
        let lost = self.home(id)?.take(peer).len();
        Some(write!(text, "{lost} bytes lost"))
    }

    // What the peer sent the node, or another one, or what a row says comes to the node.
    fn take(&mut self, alloc: Global, id: u64, words: &[&str], text: &mut String) -> Option<Told> {
        let [peer, now, from @ ..] = words else {
            return None;
        };
        let (peer, now) = (number(peer), number(now));
        let stream = match *from {
            [] => self.home(id)?.take(peer),
            ["for", other] => self.home(number(other))?.take(peer),
            ["bytes", word] => bytes(alloc, word).ok()?,
            _ => return None,
        };
        Some(self.feed(id, peer, stream.as_slice(), now, text))
    }

    // What becomes of the node's files.
    fn touch(&mut self, id: u64, words: &[&str], text: &mut String) -> Option<Told> {
        let told = match *words {
            ["notes"] => match self.home(id)?.note() {
                Ok((files, len)) => write!(text, "{files} files, {len} bytes"),
                Err(fault) => write!(text, "{fault}"),
            },
            ["tears", parts] => match self.home(id)?.tear(number(parts) as usize) {
                Ok(word) => text.push_str(word),
                Err(fault) => write!(text, "{fault}"),
            },
            ["fuses", call] => {
                self.node(id)?.fuse(Some(number(call)));
                text.push_str("set")
            }
            _ => return None,
        };
        Some(told)
    }

    // What a row asks the node for.
    fn told(&mut self, alloc: Global, id: u64, words: &[&str], text: &mut String) -> Option<Told> {
        match *words {
            ["open"] => self.open(id, text),
            ["close"] => Some(text.push_str(self.home(id)?.close()?)),
            ["crash"] => Some(text.push_str(self.home(id)?.crash()?)),
            ["takes", ref words @ ..] => self.take(alloc, id, words, text),
            ["loses", peer] => self.lose(id, number(peer), text),
            ["resets", peer] => self.reset(id, number(peer), text),
            ["clock", group, now] => self.start(alloc, id, number(group), number(now), text),
            ["ticks", now] => self.tick(id, number(now), text),
            ["notes"] | ["tears" | "fuses", _] => self.touch(id, words, text),
            ["fails"] => Some(refused(&fail(self.node(id)?), text)),
            ["is" | "has" | "may" | "sees" | "knows" | "gets", ..] => {
                look(self.node(id)?, words, text)
            }
            _ => self.ask(alloc, id, words, text),
        }
    }
}

impl Rows for House {
    fn answer(&mut self, alloc: Global, words: &[&str]) -> Option<Answer> {
        let [id, words @ ..] = words else {
            return None;
        };
        let mut text = String::new(alloc);
        Some(match self.told(alloc, number(id), words, &mut text)? {
            Ok(()) => Answer::Text(text),
            Err(_) => Answer::Word("no memory behind the call"),
        })
    }
}
