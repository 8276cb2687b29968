//! What the steps of a row work on.

use crate::told::Told;
use raft_log_engine::Engine;
use raft_log_files::{Config, MemoryFileSystem};
use raft_log_purge::PurgeHook;
use raft_log_records::LogBatch;
use raft_rows::number;
use std::alloc::Global;
use std::mem;

pub type MemoryEngine = Engine<MemoryFileSystem>;

/// An engine, or its files where it isn't open.
#[derive(Drop)]
pub enum Place {
    Open(MemoryEngine),
    Closed(MemoryFileSystem),
}

/// What steps need beside the engine.
#[derive(Drop)]
pub struct Desk {
    pub alloc: Global,
    pub told: Told,
    /// A batch that is being made.
    pub batch: LogBatch,
    /// Entries for it.
    pub entries: Vec<Vec<u8>>,
    /// Those of other writers.
    pub hooks: Vec<PurgeHook>,
    /// What `@` stands for.
    pub round: u64,
    /// The number of the last numbered batch that was told.
    pub written: u64,
    /// The bytes of the files that were told last, over all rounds.
    pub bytes: Vec<u8>,
}

impl Desk {
    fn new(alloc: Global) -> Desk {
        Desk {
            alloc,
            told: Told::new(alloc),
            batch: LogBatch::new(alloc),
            entries: Vec::new(alloc),
            hooks: Vec::new(alloc),
            round: 0,
            written: 0,
            bytes: Vec::new(alloc),
        }
    }

    /// The number that a word is, which is that of the round where the word is `@`.
    pub fn number(&self, word: &str) -> u64 {
        if word == "@" {
            return self.round;
        }
        number(word)
    }

    /// Lets the batch go, of which a call left something.
    pub fn drop_batch(&mut self) {
        self.batch = LogBatch::new(self.alloc);
    }
}

/// A row's engine, its settings, and how its steps are taken.
#[derive(Drop)]
pub struct Session {
    pub place: Place,
    pub config: Config,
    pub desk: Desk,
    /// How many workers open the engine; none but the thread that calls.
    pub workers: Option<usize>,
    /// A step that is refused is taken once more.
    pub is_patient: bool,
}

impl Session {
    pub fn new(alloc: Global) -> Session {
        Session {
            place: Place::Closed(MemoryFileSystem::new(alloc)),
            config: Config::default(alloc),
            desk: Desk::new(alloc),
            workers: None,
            is_patient: false,
        }
    }

    /// No files, and the settings by default, but that the directory is `main`.
    pub fn begin(&mut self, round: u64) {
        let alloc = self.desk.alloc;
        self.place = Place::Closed(MemoryFileSystem::new(alloc));
        self.config = Config::default(alloc);
        self.workers = None;
        self.is_patient = false;
        self.desk.told.begin();
        self.desk.drop_batch();
        self.desk.hooks.clear();
        self.desk.round = round;
        self.desk.written = 0;
        match String::from_str(alloc, "main") {
            Ok(directory) => self.config.dir = directory,
            Err(_) => self.desk.told.lacks_memory = true,
        }
    }

    /// What is there, taken out.
    pub fn take_place(&mut self) -> Place {
        let nothing = Place::Closed(MemoryFileSystem::new(self.desk.alloc));
        mem::replace(&mut self.place, nothing)
    }
}
