//! When requests left for peers: a leader's clock is told of it as their answers come.
ghost use Rattle.std.specs.Prelude.{◌≡◌, ℕ, None, OnOk, Some, cond};
ghost use Rattle.std.specs.Ordering.{is_eq, nat_cmp};
ghost use Rattle.raft_executor.specs.SendingTimes.{sent_at, time_after, noted_time};

use raft_commands::{Command, EngineOutput, RaftTypeConfig};
use raft_state::{BasicNode, Bytes};
use std::alloc::{AllocError, Global};
use std::collections::BTreeMap;

/// When the last request to each peer left a node, in ticks (own; openraft's replication task knows
/// it). No message has it, and no answer repeats it.
#[derive(Drop)]
pub struct SendingTimes {
    /// The moments by the peers, once a request has left.
    pub times: Option<BTreeMap<u64, u64>>,
}

impl SendingTimes {
    /// No request has left (own). Takes no memory.
    pub fn none() -> SendingTimes
        ensures { (peer : ℕ) → sent_at result peer ≡ None }
    {
        SendingTimes { times: None }
    }

    /// When the last request to the peer left, if one did (own).
    pub fn sent_at(&self, peer: u64) -> Option<u64>
        ensures { result ≡ sent_at self.now peer }
    {
        match &self.times {
            Some(times) => times.get(&peer).copied(),
            None => None,
        }
    }

    // A request to the peer leaves at this moment.
    fn note(&mut self, alloc: Global, peer: u64, moment: u64) -> Result<(), AllocError>
        ensures { OnOk result ((n : ℕ) → sent_at self.new n ≡ cond (is_eq (nat_cmp peer n)) (Some moment) (sent_at self.old n)) }
    {
        if let Some(times) = &mut self.times {
            times.insert(peer, moment)?;
            return Ok(());
        }
        let mut times = BTreeMap::new(alloc);
        times.insert(peer, moment)?;
        self.times = Some(times);
        Ok(())
    }

    // What the command sends leaves at this moment.
    fn note_command<C: RaftTypeConfig<NodeId = u64, Node = BasicNode, D = Bytes>>(
        &mut self,
        alloc: Global,
        command: &Command<C>,
        moment: u64,
    ) -> Result<(), AllocError>
        ensures { OnOk result ((n : ℕ) → sent_at self.new n ≡ noted_time n moment command.now (sent_at self.old n)) }
    {
        match command {
            Command::Replicate { target, .. } => self.note(alloc, *target, moment),
            _ => Ok(()),
        }
    }

    /// What the queue's commands send leaves at this moment, in ticks (own): of each peer that a
    /// request goes to, this is when the last one left. Where memory lacks, some are noted.
    pub fn note_sent<C: RaftTypeConfig<NodeId = u64, Node = BasicNode, D = Bytes>>(
        &mut self,
        alloc: Global,
        queue: &EngineOutput<C>,
        moment: u64,
    ) -> Result<(), AllocError>
        ensures { OnOk result ((n : ℕ) → sent_at self.new n ≡ time_after n moment queue.now.queue (sent_at self.old n)) }
    {
        let mut left = queue.iter_commands();
        while let Some(command) = left.next() {
            self.note_command(alloc, command, moment)?;
        }
        Ok(())
    }
}
