//! Which call the words of a row name.

use crate::alone::alone;
use crate::bench::counted;
use crate::calls::new_feeder;
use crate::changing::changed;
use crate::cutting::pieced;
use crate::entries::stored;
use crate::frames::{framed, streamed};
use crate::rooms::roomy;
use crate::snapshots::kept;
use raft_rows::{Answer, Rows, bytes};
use raft_wire::Feeder;
use std::alloc::{AllocError, Global};

/// What the calls are made on.
#[derive(Drop)]
pub struct Calls {
    feeder: Feeder,
    bytes: Vec<u8>,
    /// All bytes so far.
    all: Vec<u8>,
}

impl Calls {
    pub fn new(alloc: Global) -> Calls {
        Calls {
            feeder: new_feeder(alloc),
            bytes: Vec::new(alloc),
            all: Vec::new(alloc),
        }
    }

    /// Takes bytes, and puts them behind all others.
    fn take(&mut self, alloc: Global, word: &str) -> Result<(), AllocError> {
        let taken = bytes(alloc, word)?;
        self.all.extend_from_slice(&taken)?;
        self.bytes = taken;
        Ok(())
    }

    /// The answer to a row about the bytes.
    fn of_bytes(&self, alloc: Global, words: &[&str]) -> Option<Answer> {
        if let Some(answer) = framed(&self.bytes, alloc, words) {
            return Some(answer);
        }
        if let Some(answer) = stored(&self.bytes, alloc, words) {
            return Some(answer);
        }
        if let Some(answer) = alone(&self.bytes, alloc, words) {
            return Some(answer);
        }
        if let Some(answer) = kept(&self.bytes, alloc, words) {
            return Some(answer);
        }
        if let Some(answer) = changed(&self.bytes, alloc, words) {
            return Some(answer);
        }
        if let Some(answer) = roomy(&self.bytes, alloc, words) {
            return Some(answer);
        }
        pieced(&self.bytes, &self.all, alloc, words)
    }
}

impl Rows for Calls {
    fn answer(&mut self, alloc: Global, words: &[&str]) -> Option<Answer> {
        if let ["bytes", word] = *words {
            return Some(match self.take(alloc, word) {
                Ok(()) => Answer::Word("()"),
                Err(_) => Answer::NoMemory,
            });
        }
        if let Some(answer) = streamed(&mut self.feeder, alloc, words) {
            return Some(answer);
        }
        if let Some(answer) = counted(alloc, words) {
            return Some(answer);
        }
        self.of_bytes(alloc, words)
    }
}
