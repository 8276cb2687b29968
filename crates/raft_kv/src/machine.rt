//! A machine that keeps values by keys.
ghost use Rattle.std.specs.Prelude.{◌≡◌, ◌==◌, IfOk, OnErr, OnOk};
ghost use Rattle.std.specs.Option.{option_map};
ghost use Rattle.std.specs.FinMap as finite;
ghost use Rattle.raft_wire.specs.declared.kv.KvCommand.TheVariants.{Put, Drop};
ghost use Rattle.raft_wire.specs.Kv.{IsKey, IsValue, FitsCommand};
ghost use Rattle.raft_kv.specs.Map.{IsWithin};
ghost use Rattle.raft_kv.specs.Machine.{after_command, answer_of, answer_to, is_full_for};
ghost use Rattle.raft_kv.specs.Machine.{kv, state_of};
ghost use Rattle.raft_kv.specs.Restoring.{first_again, state_again};

use crate::pairs::{MAX_KEYS, Pairs, pairs_bytes, pairs_in};
use crate::{KvCommand, read_kv};
use raft_machines::StateMachine;
use raft_state::Bytes;
use raft_wire::FrameError;
use std::alloc::{AllocError, Global};
use std::collections::BTreeMap;
use std::marker::Model;

/// Values by keys, of 4,096 keys at most (own). A command is the bytes of a `KvCommand`. A get is
/// answered by the byte 0 where the key has no value, and else by 1 and the value. A put and a drop
/// are answered so for the value that stood there before; a put of a new key into a full map changes
/// nothing, and is answered by the byte 2. Other bytes change nothing, and are answered by no bytes.
/// The snapshot is the count of keys in 4 bytes, the greatest first, and the pairs by rising key,
/// each key and value behind its length in 4 bytes; other bytes restore the empty map.
#[derive(Drop)]
pub struct KvMachine {
    alloc: Global,
    pairs: Pairs,
}

impl Model for KvMachine {
    ghost use Rattle.std.specs.FinMap as finite;
    ghost use Rattle.std.specs.Coded.{coded_list, coded_ℕ};
    ghost use Rattle.raft_kv.specs.Map.{IsTreeWithin, Map, map_of};

    ghost Value = { Map };

    ghost coded = { finite.code (coded_list coded_ℕ) (coded_list coded_ℕ) };

    ghost view = { λ m. map_of m.pairs };

    ghost invariant = { λ m. IsTreeWithin m.pairs };
}

impl KvMachine {
    /// The key's value, if it has one.
    pub fn get(&self, key: &[u8]) -> Option<&[u8]>
        ensures { option_map (λ v. v.now) result ≡ finite.get self.now key.now }
    {
        match self.pairs.get(key) {
            Some(value) => Some(value.as_slice()),
            None => None,
        }
    }

    /// The number of keys: 4,096 at most.
    pub fn len(&self) -> usize
        ensures len { result ≡ finite.len self.now }
        ensures within { IsWithin self.now }
    {
        self.pairs.len()
    }

    /// Whether there is no key.
    pub fn is_empty(&self) -> bool
        ensures { result ≡ (finite.len self.now == 0) }
    {
        self.len() == 0
    }

    // Whether there is no place for the key.
    fn is_full_for(&self, key: &[u8]) -> bool
        ensures { result ≡ is_full_for self.now key.now }
    {
        MAX_KEYS <= self.len() && self.get(key).is_none()
    }

    // The answer that tells the key's value.
    fn found(&self, key: &[u8]) -> Result<Bytes, AllocError>
        ensures { IfOk result (λ a. a ≡ answer_of (finite.get self.now key.now)) }
    {
        let mut answer = Vec::new(self.alloc);
        match self.get(key) {
            Some(value) => {
                answer.push(1)?;
                answer.extend_from_slice(value)?;
            }
            None => answer.push(0)?,
        }
        Bytes::from_slice(self.alloc, answer.as_slice())
    }

    fn put(&mut self, key: &[u8], value: &[u8]) -> Result<Bytes, AllocError>
        requires key { IsKey key.now }
        requires value { IsValue value.now }
        ensures answer { IfOk result (λ a. a ≡ answer_to self.old (Put key.now value.now)) }
        ensures ok { OnOk result (self.new ≡ after_command self.old (Put key.now value.now)) }
        ensures err { OnErr result (self.new ≡ self.old) }
    {
        if self.is_full_for(key) {
            return Bytes::from_slice(self.alloc, &[2]);
        }
        let answer = self.found(key)?;
        let key = Vec::from_slice(self.alloc, key)?;
        let value = Vec::from_slice(self.alloc, value)?;
        self.pairs.insert(key, value)?;
        Ok(answer)
    }

    fn remove(&mut self, key: &[u8]) -> Result<Bytes, AllocError>
        ensures answer { IfOk result (λ a. a ≡ answer_to self.old (Drop key.now)) }
        ensures ok { OnOk result (self.new ≡ after_command self.old (Drop key.now)) }
        ensures err { OnErr result (self.new ≡ self.old) }
    {
        let answer = self.found(key)?;
        self.pairs.remove(key);
        Ok(answer)
    }

    // Runs a command, and answers for it.
    fn run(&mut self, command: &KvCommand) -> Result<Bytes, AllocError>
        requires { FitsCommand command.now }
        ensures answer { IfOk result (λ a. a ≡ answer_to self.old command.now) }
        ensures ok { OnOk result (self.new ≡ after_command self.old command.now) }
        ensures err { OnErr result (self.new ≡ self.old) }
    {
        match command {
            KvCommand::Put { key, value } => self.put(key.as_slice(), value.as_slice()),
            KvCommand::Get { key } => self.found(key.as_slice()),
            KvCommand::Drop { key } => self.remove(key.as_slice()),
        }
    }
}

impl StateMachine for KvMachine {
    ghost rules = { kv };

    ghost state = { state_of };

    ghost begins = { first_again };

    ghost restores = { state_again };

    fn new(alloc: Global) -> Result<Self, AllocError> {
        let pairs = BTreeMap::new(alloc);
        Ok(KvMachine { alloc, pairs })
    }

    fn apply(&mut self, _place: u64, command: &Bytes) -> Result<Bytes, AllocError> {
        match read_kv(self.alloc, command.as_slice()) {
            Ok(command) => {
                let answer = self.run(&command)?;
                // The map is within its limits, and so its spelling is the state.
                let _pairs = &self.pairs;
                Ok(answer)
            }
            Err(FrameError::Memory) => Err(AllocError),
            Err(_) => Ok(Bytes::new(self.alloc)),
        }
    }

    fn snapshot(&self) -> Result<Bytes, AllocError> {
        let bytes = pairs_bytes(self.alloc, &self.pairs)?;
        Bytes::from_slice(self.alloc, bytes.as_slice())
    }

    fn restore(&mut self, bytes: &[u8]) -> Result<(), AllocError> {
        self.pairs = pairs_in(self.alloc, bytes)?;
        Ok(())
    }
}
