//! A script of nodes with one of two machines.
ghost use Rattle.std.specs.Prelude.{◌≡◌, IfOk, string_bytes};
ghost use Rattle.std.specs.Option.{option_map};
ghost use Rattle.raft_cluster_script.specs.Either.{RunsEitherLine, TakesBy, either_start, is_for_second};

use crate::script::Script;
use raft_cluster_events::ClusterNode;
use raft_script_lines::{ReadLineError, ScriptLine, read_line};
use raft_script_machines::ScriptMachine;
use raft_script_session::LineRunner;
use std::alloc::{AllocError, Global};
use std::marker::Model;
use std::thread::Threads;

/// A script for each of two machines, of which at most one begins (own).
#[derive(Drop)]
pub struct EitherScript<A: ClusterNode, B: ClusterNode>
where
    A::Machine: ScriptMachine,
    B::Machine: ScriptMachine,
{
    alloc: Global,
    first: Script<A>,
    second: Script<B>,
}

impl<A: ClusterNode, B: ClusterNode> Model for EitherScript<A, B>
where
    A::Machine: ScriptMachine,
    B::Machine: ScriptMachine,
{
    ghost use Rattle.raft_cluster_script.specs.Either.{EitherValue};

    ghost Value = { EitherValue A B };

    ghost view = { λ s. record { first = s.first; second = s.second } };
}

impl<A: ClusterNode, B: ClusterNode> EitherScript<A, B>
where
    A::Machine: ScriptMachine,
    B::Machine: ScriptMachine,
{
    /// Before its first line neither has begun.
    pub fn new(alloc: Global, settings: A::Settings, other: B::Settings) -> EitherScript<A, B>
        ensures { result ≡ either_start A.acts A.Machine.speech B.acts B.Machine.speech }
    {
        EitherScript {
            alloc,
            first: Script::new(alloc, settings),
            second: Script::new(alloc, other),
        }
    }

    // Whether the line is the second script's.
    fn is_for_second(&self, line: &ScriptLine) -> bool
        ensures { result ≡ is_for_second A.acts A.Machine.speech B.acts B.Machine.speech self.now line.now }
    {
        self.second.has_begun()
            || (!self.first.has_begun() && !<A::Machine as ScriptMachine>::takes_line(line))
    }

    // Runs a line.
    fn take<R: Threads + Sync>(
        &mut self,
        rt: &R,
        line: ScriptLine,
    ) -> Result<Option<String>, AllocError>
        ensures { IfOk result (λ text. TakesBy A.acts A.Machine.speech B.acts B.Machine.speech
            (is_for_second A.acts A.Machine.speech B.acts B.Machine.speech self.old line)
            self.old line (option_map string_bytes text) self.new) }
    {
        if self.is_for_second(&line) {
            self.second.take_spoken(rt, line)
        } else {
            self.first.take_spoken(rt, line)
        }
    }
}

impl<A: ClusterNode, B: ClusterNode> LineRunner for EitherScript<A, B>
where
    A::Machine: ScriptMachine,
    B::Machine: ScriptMachine,
{
    ghost use Rattle.raft_cluster_script.specs.Either.{RunsEitherLine};

    ghost runs = { RunsEitherLine A.acts A.Machine.speech B.acts B.Machine.speech };

    fn run_line<R: Threads + Sync>(
        &mut self,
        rt: &R,
        line: &[u8],
    ) -> Result<Option<String>, AllocError> {
        match read_line(self.alloc, line) {
            Ok(line) => self.take(rt, line),
            Err(ReadLineError::NoEvent(_)) => Ok(None),
            Err(ReadLineError::Memory) => Err(AllocError),
        }
    }
}
