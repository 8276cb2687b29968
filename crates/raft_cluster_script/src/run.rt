//! Runs a script.
ghost use Rattle.std.specs.Prelude.{IfSome};
ghost use Rattle.raft_cluster_script.specs.Script.{RunsScript};
ghost use Rattle.raft_cluster_script.specs.Either.{RunsEither};

use crate::either::EitherScript;
use crate::script::Script;
use raft_cluster_events::ClusterNode;
use raft_script_machines::ScriptMachine;
use raft_script_session::{ScriptEnd, run_lines};
use std::alloc::Global;
use std::io::{Read, Write};
use std::thread::Threads;

/// Runs the script that the reader gives on a cluster of such nodes, and writes its answers: each
/// line's before the next read waits (own). Lines, answers and statuses are described in
/// docs/SCRIPT.md.
pub fn run_script<N: ClusterNode, R: Read, W: Write, T: Threads + Sync>(
    rt: &T,
    alloc: Global,
    settings: N::Settings,
    reader: &mut R,
    writer: &mut W,
) -> ScriptEnd
where
    N::Machine: ScriptMachine,
    ensures { IfSome (R.remaining reader.old) (λ input. RunsScript N.acts N.Machine.speech input (W.contents writer.old) (W.contents writer.new) result) }
{
    let mut script: Script<N> = Script::new(alloc, settings);
    run_lines(rt, alloc, &mut script, reader, writer)
}

/// Runs the script that the reader gives on a cluster of nodes with one of two machines, and writes
/// its answers (own): the first machine's where that has the line by which it begins, or else the
/// second one's.
pub fn run_either_script<A: ClusterNode, B: ClusterNode, R: Read, W: Write, T: Threads + Sync>(
    rt: &T,
    alloc: Global,
    settings: (A::Settings, B::Settings),
    reader: &mut R,
    writer: &mut W,
) -> ScriptEnd
where
    A::Machine: ScriptMachine,
    B::Machine: ScriptMachine,
    ensures { IfSome (R.remaining reader.old) (λ input. RunsEither A.acts A.Machine.speech B.acts B.Machine.speech input (W.contents writer.old) (W.contents writer.new) result) }
{
    let mut script: EitherScript<A, B> = EitherScript::new(alloc, settings.0, settings.1);
    run_lines(rt, alloc, &mut script, reader, writer)
}
