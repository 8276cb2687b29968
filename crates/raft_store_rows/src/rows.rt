//! Which call the words of a row name.

use crate::calls::{between, ids, kept, loaded, store};
use crate::store::{Calls, Fault, Kept};
use crate::texts::{push_entries, push_fault, push_group, push_snapshot};
use raft_rows::{Answer, Rows, number};
use std::alloc::{AllocError, Global};

/// Whether there was memory for an answer.
type Told = Result<(), AllocError>;

// ---- readings

fn push_ids(store: &mut Kept, alloc: Global, text: &mut String) -> Told {
    match ids(store, alloc) {
        Ok(ids) => write!(text, "{ids:?}"),
        Err(why) => push_fault(text, &why),
    }
}

fn push_loaded(store: &mut Kept, alloc: Global, group: u64, text: &mut String) -> Told {
    match loaded(store, alloc, group) {
        Ok(loaded) => push_group(text, &loaded),
        Err(why) => push_fault(text, &why),
    }
}

fn push_between(
    store: &mut Kept,
    alloc: Global,
    group: u64,
    [prev, last]: [&str; 2],
    text: &mut String,
) -> Told {
    match between(store, alloc, group, prev, last) {
        Ok(entries) => push_entries(text, entries.as_slice()),
        Err(why) => push_fault(text, &why),
    }
}

fn push_kept(store: &mut Kept, alloc: Global, group: u64, text: &mut String) -> Told {
    match kept(store, alloc, group) {
        Ok(Some(snapshot)) => push_snapshot(text, &snapshot),
        Ok(None) => text.push_str("-"),
        Err(why) => push_fault(text, &why),
    }
}

fn push_stored(text: &mut String, stored: &Result<(), Fault>) -> Told {
    match stored {
        Ok(()) => text.push_str("ok"),
        Err(why) => push_fault(text, why),
    }
}

// A call of a group's part of the store.
fn ask_store(
    at: &mut Kept,
    alloc: Global,
    group: u64,
    words: &[&str],
    text: &mut String,
) -> Option<Told> {
    match *words {
        ["load"] => Some(push_loaded(at, alloc, group, text)),
        ["snapshot"] => Some(push_kept(at, alloc, group, text)),
        ["between", prev, last] => Some(push_between(at, alloc, group, [prev, last], text)),
        _ => {
            let stored = store(at, alloc, group, words)?;
            Some(push_stored(text, &stored))
        }
    }
}

impl Calls {
    // A new store, or one on another log.
    fn change(&mut self, alloc: Global, words: &[&str]) -> bool {
        match *words {
            ["begin-with", group, key, value] => self.begin_with(alloc, number(group), key, value),
            ["again"] => {
                self.reopen(alloc);
                true
            }
            _ => {
                *self = Calls::new(alloc);
                true
            }
        }
    }

    fn told(&mut self, alloc: Global, words: &[&str], text: &mut String) -> Option<Told> {
        match *words {
            ["groups"] => Some(push_ids(&mut self.store, alloc, text)),
            ["node" | "begin-with" | "again", ..] => {
                Some(text.push_str(if self.change(alloc, words) {
                    "ok"
                } else {
                    "failed"
                }))
            }
            [group, ref words @ ..] => {
                ask_store(&mut self.store, alloc, number(group), words, text)
            }
            [] => None,
        }
    }
}

impl Rows for Calls {
    fn answer(&mut self, alloc: Global, words: &[&str]) -> Option<Answer> {
        let mut text = String::new(alloc);
        Some(match self.told(alloc, words, &mut text)? {
            Ok(()) => Answer::Text(text),
            Err(_) => Answer::NoMemory,
        })
    }
}
