//! A machine that adds up its commands.
ghost use Rattle.std.specs.Prelude.{◌≡◌};
ghost use Rattle.raft_machines.specs.Adding.{adding, state_of_total};

use crate::StateMachine;
use raft_state::Bytes;
use std::alloc::{AllocError, Global};
use std::marker::Model;

/// A running total modulo 2^64 (own). A command of 8 bytes is a number, the greatest byte first, that is
/// added; the answer is the new total in 8 bytes. Any other command changes nothing and is
/// answered by no bytes. The snapshot is the total in 8 bytes; other bytes restore 0.
#[derive(Drop)]
pub struct AddingMachine {
    alloc: Global,
    total: u64,
}

impl Model for AddingMachine {
    ghost use Rattle.std.specs.Prelude.{ℕ};

    ghost Value = { ℕ };

    ghost view = { λ m. m.total };
}

impl AddingMachine {
    /// The total so far.
    pub fn total(&self) -> u64
        ensures { result ≡ self.now }
    {
        self.total
    }
}

impl StateMachine for AddingMachine {
    ghost rules = { adding };

    ghost state = { state_of_total };

    ghost begins = { Prim.search };

    ghost restores = { λ m. Prim.search };

    fn new(alloc: Global) -> Result<Self, AllocError> {
        Ok(AddingMachine { alloc, total: 0 })
    }

    fn apply(&mut self, _place: u64, command: &Bytes) -> Result<Bytes, AllocError> {
        let Ok(amount) = <[u8; 8]>::try_from(command.as_slice()) else {
            return Ok(Bytes::new(self.alloc));
        };
        let total = self.total.wrapping_add(u64::from_be_bytes(amount));
        let answer = Bytes::from_slice(self.alloc, &total.to_be_bytes())?;
        self.total = total;
        Ok(answer)
    }

    fn snapshot(&self) -> Result<Bytes, AllocError> {
        Bytes::from_slice(self.alloc, &self.total.to_be_bytes())
    }

    fn restore(&mut self, bytes: &[u8]) -> Result<(), AllocError> {
        self.total = match <[u8; 8]>::try_from(bytes) {
            Ok(total) => u64::from_be_bytes(total),
            Err(_) => 0,
        };
        Ok(())
    }
}
