//! How far a script has come, and what its next line does.
ghost use Rattle.std.specs.Prelude.{◌≡◌, IfOk, string_bytes, None, [], List, ℕ};
ghost use Rattle.std.specs.List.{range_with_len};
ghost use Rattle.std.specs.Option.{option_map};
ghost use Rattle.raft_cluster_script.specs.Script.{AsksTotal, BeginsOnce, RunsLine, SetsNow, StepsSo, Takes, TakesFused, TakesLine, TakesSpoken};
ghost use Rattle.raft_cluster_script.specs.Either.{has_begun};
ghost use Rattle.raft_cluster_script.specs.Calls.{event_of, tokens_after};

use crate::answers::{outcome_text, total_at};
use crate::calls::{event_of, tokens_after};
use crate::fuse::happen_fused;
use raft_cluster::Cluster;
use raft_cluster_events::{ClusterEvent, ClusterNode};
use raft_script_lines::{ReadLineError, ScriptEvent, ScriptLine, read_line};
use raft_script_machines::ScriptMachine;
use raft_script_session::LineRunner;
use std::alloc::{AllocError, Global};
use std::marker::Model;
use std::thread::Threads;

/// The cluster of a script, and what was counted (own).
#[derive(Drop)]
pub struct Script<N: ClusterNode>
where
    N::Machine: ScriptMachine,
{
    alloc: Global,
    settings: N::Settings,
    cluster: Option<Cluster<N>>,
    tokens: u64,
    tick: u64,
}

impl<N: ClusterNode> Model for Script<N>
where
    N::Machine: ScriptMachine,
{
    ghost use Rattle.raft_cluster_script.specs.Script.{ScriptValue};

    ghost Value = { ScriptValue N };

    ghost view = { λ s. record { cluster = s.cluster; tokens = s.tokens; tick = s.tick } };
}

// The ids from 1 to this number.
fn ids_to(alloc: Global, count: u64) -> Result<Vec<u64>, AllocError>
    ensures { IfOk result (λ ids. ids.items ≡ range_with_len 1 count) }
{
    let mut ids = Vec::new(alloc);
    for id in 0..count {
        ids.push(id + 1)?;
    }
    Ok(ids)
}

// The event happens, and is answered by the text of its outcome.
fn happen_in<N: ClusterNode, R: Threads + Sync>(
    rt: &R,
    alloc: Global,
    cluster: &mut Cluster<N>,
    event: ClusterEvent,
) -> Result<String, AllocError>
where
    N::Machine: ScriptMachine,
    ensures { IfOk result (λ text. StepsSo N.acts N.Machine.speech cluster.old event (string_bytes text) cluster.new) }
{
    let at = cluster.history().len();
    cluster.step(rt, event)?;
    outcome_text::<N::Machine>(alloc, &cluster.history()[at].outcome)
}

impl<N: ClusterNode> Script<N>
where
    N::Machine: ScriptMachine,
{
    /// Before its first line there is no cluster.
    pub fn new(alloc: Global, settings: N::Settings) -> Script<N>
        ensures { result ≡ record { cluster = None; tokens = 0; tick = 0 } }
    {
        Script {
            alloc,
            settings,
            cluster: None,
            tokens: 0,
            tick: 0,
        }
    }

    // A cluster of so many nodes begins, unless there is one.
    fn begin<R: Threads + Sync>(&mut self, rt: &R, count: u64) -> Result<Option<String>, AllocError>
        ensures { IfOk result (λ text. BeginsOnce N.acts N.Machine.speech self.old self.old.cluster count (option_map string_bytes text) self.new) }
    {
        if self.cluster.is_some() {
            return Ok(None);
        }
        let ids = ids_to(self.alloc, count)?;
        let text = String::from_str(self.alloc, "ok\n")?;
        self.cluster = Some(Cluster::new(rt, self.alloc, ids.as_slice(), &self.settings)?);
        Ok(Some(text))
    }

    // It is that tick from now on, if there is a cluster.
    fn set_now(&mut self, tick: u64) -> Result<Option<String>, AllocError>
        ensures { IfOk result (λ text. SetsNow N.acts N.Machine.speech self.old self.old.cluster tick (option_map string_bytes text) self.new) }
    {
        if self.cluster.is_none() {
            return Ok(None);
        }
        let text = String::from_str(self.alloc, "ok\n")?;
        self.tick = tick;
        Ok(Some(text))
    }

    // The total of a group at a node, if there is a cluster.
    fn total(&self, node: u64, group: u64) -> Result<Option<String>, AllocError>
        ensures { IfOk result (λ text. AsksTotal N.acts N.Machine.speech self.now self.now.cluster node group (option_map string_bytes text) self.now) }
    {
        match &self.cluster {
            None => Ok(None),
            Some(cluster) => Ok(Some(total_at(self.alloc, cluster.node(node), group)?)),
        }
    }

    // An event of the cluster, if there is one and the line names one. So many tokens were taken then.
    fn happen<R: Threads + Sync>(
        &mut self,
        rt: &R,
        event: Option<ClusterEvent>,
        tokens: u64,
    ) -> Result<Option<String>, AllocError>
        ensures { IfOk result (λ text. Takes N.acts N.Machine.speech self.old self.old.cluster event tokens (option_map string_bytes text) self.new) }
    {
        match (&mut self.cluster, event) {
            (Some(cluster), Some(event)) => {
                let text = happen_in(rt, self.alloc, cluster, event)?;
                self.tokens = tokens;
                Ok(Some(text))
            }
            _ => Ok(None),
        }
    }

    // The same behind a fuse of its node's files, if it is for a node.
    fn happen_fused<R: Threads + Sync>(
        &mut self,
        rt: &R,
        event: Option<ClusterEvent>,
        first: u64,
        tokens: u64,
    ) -> Result<Option<String>, AllocError>
        ensures { IfOk result (λ text. TakesFused N.acts N.Machine.speech self.old self.old.cluster event first tokens (option_map string_bytes text) self.new) }
    {
        match (&mut self.cluster, event) {
            (Some(cluster), Some(event)) => {
                let text = happen_fused(rt, self.alloc, cluster, first, event)?;
                self.tokens = tokens;
                Ok(Some(text))
            }
            _ => Ok(None),
        }
    }

    // An event of a line, with a fuse.
    fn take_fused<R: Threads + Sync>(
        &mut self,
        rt: &R,
        first: u64,
        event: ScriptEvent,
    ) -> Result<Option<String>, AllocError>
        ensures { IfOk result (λ text. TakesFused N.acts N.Machine.speech self.old self.old.cluster
            (event_of N.Machine.speech.proposes self.old.tick (tokens_after self.old.tokens event) event) first
            (tokens_after self.old.tokens event) (option_map string_bytes text) self.new) }
    {
        let tokens = tokens_after(self.tokens, &event);
        let event = event_of::<N::Machine>(self.alloc, self.tick, tokens, event)?;
        self.happen_fused(rt, event, first, tokens)
    }

    // An event of a line.
    fn take_event<R: Threads + Sync>(
        &mut self,
        rt: &R,
        event: ScriptEvent,
    ) -> Result<Option<String>, AllocError>
        ensures { IfOk result (λ text. Takes N.acts N.Machine.speech self.old self.old.cluster
            (event_of N.Machine.speech.proposes self.old.tick (tokens_after self.old.tokens event) event)
            (tokens_after self.old.tokens event) (option_map string_bytes text) self.new) }
    {
        let tokens = tokens_after(self.tokens, &event);
        let event = event_of::<N::Machine>(self.alloc, self.tick, tokens, event)?;
        self.happen(rt, event, tokens)
    }

    // Runs a line.
    fn take<R: Threads + Sync>(
        &mut self,
        rt: &R,
        line: ScriptLine,
    ) -> Result<Option<String>, AllocError>
        ensures { IfOk result (λ text. TakesLine N.acts N.Machine.speech self.old line (option_map string_bytes text) self.new) }
    {
        match line {
            ScriptLine::Skipped => Ok(Some(String::new(self.alloc))),
            ScriptLine::Nodes { count } | ScriptLine::Kv { count } => self.begin(rt, count),
            ScriptLine::Now { tick } => self.set_now(tick),
            ScriptLine::Total { node, group } => self.total(node, group),
            ScriptLine::Happens(event) => self.take_event(rt, event),
            ScriptLine::Fuse { calls, event } => self.take_fused(rt, calls, event),
        }
    }

    /// Whether there is a cluster.
    pub(crate) fn has_begun(&self) -> bool
        ensures { result ≡ has_begun self.now }
    {
        self.cluster.is_some()
    }

    /// Runs a line. One that the machine's scripts don't have is no event.
    pub(crate) fn take_spoken<R: Threads + Sync>(
        &mut self,
        rt: &R,
        line: ScriptLine,
    ) -> Result<Option<String>, AllocError>
        ensures { IfOk result (λ text. TakesSpoken N.acts N.Machine.speech (N.Machine.speech.speaks line) self.old line (option_map string_bytes text) self.new) }
    {
        if !<N::Machine as ScriptMachine>::takes_line(&line) {
            return Ok(None);
        }
        self.take(rt, line)
    }
}

impl<N: ClusterNode> LineRunner for Script<N>
where
    N::Machine: ScriptMachine,
{
    ghost use Rattle.raft_cluster_script.specs.Script.{RunsLine};

    ghost runs = { RunsLine N.acts N.Machine.speech };

    fn run_line<R: Threads + Sync>(
        &mut self,
        rt: &R,
        line: &[u8],
    ) -> Result<Option<String>, AllocError> {
        match read_line(self.alloc, line) {
            Ok(line) => self.take_spoken(rt, line),
            Err(ReadLineError::NoEvent(_)) => Ok(None),
            Err(ReadLineError::Memory) => Err(AllocError),
        }
    }
}
