//! What steps told, as text.

use raft_log_engine::EngineFault;
use raft_log_files::{Error, IoFault};
use std::alloc::Global;
use std::{fmt, mem};

/// What a call of the files tells, as of an engine.
pub fn of_files<T: Drop>(told: Result<T, IoFault>) -> Result<T, EngineFault> {
    match told {
        Ok(value) => Ok(value),
        Err(fault) => Err(EngineFault::Log(Error::from(fault))),
    }
}

/// What the steps of a row told.
#[derive(Drop)]
pub struct Told {
    text: String,
    /// What the step told that is being taken.
    piece: String,
    /// What steps told that were taken for one number after the other, up to before the last one.
    rounds: String,
    /// What they told last, and how often in turn.
    last: String,
    count: u64,
    /// The step was refused.
    pub is_refused: bool,
    /// There was no memory for a text.
    pub lacks_memory: bool,
}

impl Told {
    pub fn new(alloc: Global) -> Told {
        Told {
            text: String::new(alloc),
            piece: String::new(alloc),
            rounds: String::new(alloc),
            last: String::new(alloc),
            count: 0,
            is_refused: false,
            lacks_memory: false,
        }
    }

    /// Forgets what steps told.
    pub fn begin(&mut self) {
        self.text.clear();
    }

    /// Forgets what the step told.
    pub fn begin_step(&mut self) {
        self.piece.clear();
        self.is_refused = false;
    }

    /// Keeps what the step told behind what the others did.
    pub fn keep(&mut self) {
        if self.piece.is_empty() {
            return;
        }
        let gap = if self.text.is_empty() { "" } else { ", " };
        if write!(self.text, "{gap}{}", self.piece).is_err() {
            self.lacks_memory = true;
        }
    }

    /// A word behind what the step told so far.
    pub fn word(&mut self, word: &str) -> bool {
        if self.piece.push_str(word).is_err() {
            self.lacks_memory = true;
        }
        true
    }

    /// A word with a value behind what the step told so far.
    pub fn show(&mut self, word: &str, value: &impl fmt::Debug) -> bool {
        if write!(self.piece, "{word} {value:?}").is_err() {
            self.lacks_memory = true;
        }
        true
    }

    /// The step was refused.
    pub fn refuse(&mut self, fault: EngineFault) -> bool {
        self.piece.clear();
        self.is_refused = true;
        self.show("Refused", &fault)
    }

    /// There was no memory for the step.
    pub fn lack_memory(&mut self) -> bool {
        self.refuse(EngineFault::Log(Error::Memory))
    }

    /// A word with what a call told, or why it was refused.
    pub fn value<T: fmt::Debug + Drop>(
        &mut self,
        word: &str,
        told: Result<T, EngineFault>,
    ) -> bool {
        match told {
            Ok(value) => self.show(word, &value),
            Err(fault) => self.refuse(fault),
        }
    }

    /// A word once a call was made, or why it was refused.
    pub fn done<T: Drop>(&mut self, word: &str, told: Result<T, EngineFault>) -> bool {
        match told {
            Ok(_) => self.word(word),
            Err(fault) => self.refuse(fault),
        }
    }

    /// Forgets what steps told that were taken again and again.
    pub fn begin_rounds(&mut self) {
        self.rounds.clear();
        self.last.clear();
        self.count = 0;
    }

    /// Keeps what they told last behind what they told before.
    fn keep_last(&mut self) {
        let gap = if self.rounds.is_empty() { "" } else { "; " };
        if write!(self.rounds, "{gap}{} x [{}]", self.count, self.last).is_err() {
            self.lacks_memory = true;
        }
    }

    /// Keeps what they told now.
    pub fn note_round(&mut self) {
        if self.count > 0 && self.last.as_str() == self.text.as_str() {
            self.count = self.count.saturating_add(1);
            return;
        }
        if self.count > 0 {
            self.keep_last();
        }
        self.count = 1;
        mem::swap(&mut self.last, &mut self.text);
    }

    /// What they told is told.
    pub fn end_rounds(&mut self) {
        self.keep_last();
        mem::swap(&mut self.text, &mut self.rounds);
    }

    /// All that was told.
    pub fn text(&self) -> &str {
        if self.lacks_memory {
            return "no memory";
        }
        self.text.as_str()
    }
}
