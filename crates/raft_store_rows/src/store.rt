//! A store over a log in memory.

use raft_content_log::uses::put_key;
use raft_content_log::{PlainFault, PlainLog};
use raft_machines::AddingMachine;
use raft_rows::bytes;
use raft_store::{Store, StoreFault};
use std::alloc::Global;
use std::mem;

/// A node's groups, stored.
pub type Kept = Store<AddingMachine, PlainLog>;

/// Why the store refuses a call.
pub type Fault = StoreFault<PlainFault>;

/// What the rows speak of.
#[derive(Drop)]
pub struct Calls {
    pub store: Kept,
}

// A store that has nothing.
fn empty(alloc: Global) -> Kept {
    Store::new(alloc, PlainLog::new(alloc))
}

// A log that has one key of one group, or nothing where the key has no bytes.
fn log_with(alloc: Global, group: u64, key: &str, value: &str) -> Result<PlainLog, PlainFault> {
    let (key, value) = (bytes(alloc, key)?, bytes(alloc, value)?);
    let mut log = PlainLog::new(alloc);
    if key.is_empty() {
        return Ok(log);
    }
    match put_key(alloc, &mut log, group, key, value) {
        Ok(()) => Ok(log),
        Err(fault) => Err(fault),
    }
}

impl Calls {
    /// Nothing is stored.
    pub fn new(alloc: Global) -> Calls {
        Calls {
            store: empty(alloc),
        }
    }

    /// The store is opened again on its log.
    pub fn reopen(&mut self, alloc: Global) {
        let store = mem::replace(&mut self.store, empty(alloc));
        self.store = Store::new(alloc, store.into_log());
    }

    /// The log has one key of one group, and nothing else. Whether there was memory.
    pub fn begin_with(&mut self, alloc: Global, group: u64, key: &str, value: &str) -> bool {
        let Ok(log) = log_with(alloc, group, key, value) else {
            return false;
        };
        self.store = Store::new(alloc, log);
        true
    }
}
