//! A node with counters, on files of its own.

use crate::clock::Clock;
use crate::counters::Counters;
use raft_log_engine::{EngineFault, LogFiles, MemoryLog, NotClosed, NotOpened as LogNotOpened};
use raft_log_files::{Config, FileBytes};
use raft_node::{Cause, Fault, Fed, Node, NotOpened, Opened, Outcome};
use raft_store::{Store, StoreFault};
use std::alloc::{AllocError, Global};
use std::collections::BTreeMap;

/// Where a node keeps its groups.
pub type Kept = Store<Counters, MemoryLog>;

/// A node of which each group has counters.
pub type CountersNode = Node<Counters, Kept>;

/// Why a node's storage fails.
type Failure = StoreFault<EngineFault>;

/// Why a call isn't done.
pub type Refused = Fault<Failure>;

/// What a call answers.
pub type Answered = Result<Outcome, Refused>;

/// What a piece of a stream did.
pub type Piece = Fed<Failure>;

/// A node where it is up, or else its files, if it had any; and by sender the bytes that are on their
/// way to it.
#[derive(Drop)]
pub struct Home {
    pub alloc: Global,
    id: u64,
    pub node: Option<CountersNode>,
    pub files: Option<LogFiles>,
    /// The bytes of its files, as they were noted.
    pub before: Vec<FileBytes>,
    coming: BTreeMap<u64, Vec<u8>>,
    /// The clock of one of its groups, once it was started.
    pub clock: Option<Clock>,
}

// No files yet.
fn new_files(alloc: Global) -> Result<LogFiles, AllocError> {
    let directory = String::from_str(alloc, "counters")?;
    let mut settings = Config::default(alloc);
    settings.dir = directory;
    Ok(LogFiles::new(alloc, settings))
}

// The node with all groups that its log has.
fn open_on(
    alloc: Global,
    id: u64,
    log: MemoryLog,
) -> Result<Opened<Counters, Kept>, NotOpened<Kept>> {
    Node::open(alloc, id, Store::new(alloc, log))
}

// The node is closed, and its files are left, also where that was refused.
fn close_node(node: CountersNode) -> Result<LogFiles, NotClosed<LogFiles>> {
    node.into_storage().into_log().close()
}

// The machine of a node stops, which leaves its files as they are.
fn crash_node(node: CountersNode) -> LogFiles {
    node.into_storage().into_log().into_files()
}

impl Home {
    pub fn new(alloc: Global, id: u64) -> Home {
        Home {
            alloc,
            id,
            node: None,
            files: None,
            before: Vec::new(alloc),
            coming: BTreeMap::new(alloc),
            clock: None,
        }
    }

    // ---- openings

    // No node is up, as this says.
    fn not_up(&self, cause: Cause<Failure>) -> Refused {
        Fault::Stopped {
            cause,
            unknown: Vec::new(self.alloc),
        }
    }

    // The files that are there, or new ones.
    fn take_files(&mut self) -> Result<LogFiles, AllocError> {
        match self.files.take() {
            Some(files) => Ok(files),
            None => new_files(self.alloc),
        }
    }

    // The log over the files.
    fn open_log(&mut self) -> Result<MemoryLog, Refused> {
        let Ok(files) = self.take_files() else {
            return Err(self.not_up(Cause::Unjudged));
        };
        match MemoryLog::open(self.alloc, files) {
            Ok(log) => Ok(log),
            Err(LogNotOpened { fault, files }) => {
                self.files = Some(files);
                Err(self.not_up(Cause::Storage(StoreFault::Log(fault))))
            }
        }
    }

    /// The node is opened on its files, or on new ones: what that did in each group.
    pub fn open(&mut self) -> Result<Vec<Outcome>, Refused> {
        let log = self.open_log()?;
        match open_on(self.alloc, self.id, log) {
            Ok(Opened { node, outcomes }) => {
                self.node = Some(node);
                Ok(outcomes)
            }
            Err(NotOpened { fault, storage }) => {
                self.files = Some(storage.into_log().into_files());
                Err(fault)
            }
        }
    }

    /// The node is closed; nothing where it isn't up.
    pub fn close(&mut self) -> Option<&'static str> {
        let (files, word) = match close_node(self.node.take()?) {
            Ok(files) => (files, "closed"),
            Err(NotClosed { files, .. }) => (files, "not closed"),
        };
        self.files = Some(files);
        Some(word)
    }

    /// The node's machine stops; nothing where it isn't up.
    pub fn crash(&mut self) -> Option<&'static str> {
        self.files = Some(crash_node(self.node.take()?));
        Some("crashed")
    }

    // ---- the clock

    /// What is due of the clock's group is asked of the node: what it answers; nothing where no clock
    /// runs, or the node isn't up.
    pub fn tick(&mut self, now: u64) -> Option<Result<Vec<Answered>, AllocError>> {
        let node = self.node.as_mut()?;
        Some(self.clock.as_mut()?.tick(node, now))
    }

    /// The clock hears of frames of the peer in its group.
    pub fn hear(&mut self, peer: u64, outcomes: &[Outcome], now: u64) {
        let (Some(clock), Some(node)) = (&mut self.clock, &self.node) else {
            return;
        };
        for outcome in outcomes {
            if outcome.group == clock.group {
                clock.timers.hear(node, peer, now);
            }
        }
    }

    // ---- streams

    /// These bytes are on their way to the node.
    pub fn send(&mut self, sender: u64, bytes: &[u8]) -> Result<(), AllocError> {
        if let Some(stream) = self.coming.get_mut(&sender) {
            return stream.extend_from_slice(bytes);
        }
        let stream = Vec::from_slice(self.alloc, bytes)?;
        self.coming.insert(sender, stream)?;
        Ok(())
    }

    /// All that is on its way from the sender, which is so no more.
    pub fn take(&mut self, sender: u64) -> Vec<u8> {
        match self.coming.remove(&sender) {
            Some(stream) => stream,
            None => Vec::new(self.alloc),
        }
    }
}
