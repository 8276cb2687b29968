//! A machine that counts by keys.
ghost use Rattle.std.specs.Prelude.{◌≡◌, IfOk, OnErr, OnOk};
ghost use Rattle.std.specs.Option.{option_to_list};
ghost use Rattle.raft_embedding.specs.Counters.{counted, counters, extended};

use raft_machines::StateMachine;
use raft_state::Bytes;
use std::alloc::{AllocError, Global};
use std::marker::Model;

/// How many counters there are at first: one for each key.
const FIRST: usize = 256;

/// How many counters come at once.
const MORE: usize = 65_536;

/// 256 counters of a byte each, which are all 0 at first. A command of two bytes, a key and an amount,
/// adds the amount to the key's counter, which stays at 255 once it is there, and is answered by the
/// count before. A command of one byte brings so many times 65,536 counters more, which no key names:
/// so a snapshot may get too long. That command and any other one are answered by no bytes; the others
/// change nothing. A snapshot is the counts by rising key. Counters that were restored are as many as
/// the snapshot has bytes.
#[derive(Drop)]
pub struct Counters {
    alloc: Global,
    counts: Vec<u8>,
}

impl Model for Counters {
    ghost use Rattle.std.specs.Prelude.{List, ℕ};

    ghost Value = { List ℕ };

    ghost view = { λ c. c.counts.items };
}

impl Counters {
    ghost use Rattle.std.specs.Prelude.{slice_get};

    /// The key's count, if it has a counter.
    pub fn get(&self, key: u8) -> Option<u8>
        ensures { result ≡ slice_get self.now key }
    {
        self.counts.get(key as usize).copied()
    }

    // The key's counter, if it has one, counts up, and stays at 255 once it is there.
    fn count(&mut self, key: u8, amount: u8)
        ensures { self.new ≡ counted self.old key amount }
    {
        if let Some(count) = self.counts.get_mut(key as usize) {
            *count = count.saturating_add(amount);
        }
    }

    // So many times more counters come behind those that there are.
    fn extend(&mut self, times: u8) -> Result<(), AllocError>
        ensures ok { OnOk result (self.new ≡ extended self.old times) }
        ensures err { OnErr result (self.new ≡ self.old) }
    {
        let more = vec![in self.alloc; 0; times as usize * MORE]?;
        self.counts.extend_from_slice(more.as_slice())
    }

    // The key's counter counts up; the answer is the count before.
    fn fetch_and_add(&mut self, key: u8, amount: u8) -> Result<Bytes, AllocError>
        ensures answer { IfOk result (λ a. a ≡ option_to_list (slice_get self.old key)) }
        ensures ok { OnOk result (self.new ≡ counted self.old key amount) }
        ensures err { OnErr result (self.new ≡ self.old) }
    {
        let Some(before) = self.get(key) else {
            return Ok(Bytes::new(self.alloc));
        };
        let answer = Bytes::from_slice(self.alloc, &[before])?;
        self.count(key, amount);
        Ok(answer)
    }
}

impl StateMachine for Counters {
    ghost rules = { counters };

    ghost state = { λ s. s };

    ghost restores = { λ s. Prim.search };

    ghost begins = { Prim.search };

    fn new(alloc: Global) -> Result<Self, AllocError> {
        let counts = vec![in alloc; 0; FIRST]?;
        Ok(Counters { alloc, counts })
    }

    fn apply(&mut self, _place: u64, command: &Bytes) -> Result<Bytes, AllocError> {
        match command.as_slice() {
            [key, amount] => self.fetch_and_add(*key, *amount),
            [times] => {
                self.extend(*times)?;
                Ok(Bytes::new(self.alloc))
            }
            _ => Ok(Bytes::new(self.alloc)),
        }
    }

    fn snapshot(&self) -> Result<Bytes, AllocError> {
        Bytes::from_slice(self.alloc, self.counts.as_slice())
    }

    fn restore(&mut self, bytes: &[u8]) -> Result<(), AllocError> {
        self.counts = Vec::from_slice(self.alloc, bytes)?;
        Ok(())
    }
}
