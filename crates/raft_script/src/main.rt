//! Runs the script that standard input gives on nodes of files in memory, and prints its answers;
//! see docs/SCRIPT.md.
#![tactic(auto)]

use raft_cluster_script::{ScriptEnd, run_either_script};
use raft_kv::KvMachine;
use raft_log_files::Config;
use raft_machines::AddingMachine;
use raft_nodes_on_files::{FileNode, log_settings};
use std::alloc::Global;
use std::process::ExitCode;

// The settings of the nodes' logs.
fn settings(alloc: Global) -> Option<(Config, Config)> {
    let first = log_settings(alloc, "raft", 64, 256).ok()?;
    let second = log_settings(alloc, "raft", 64, 256).ok()?;
    Some((first, second))
}

fn main(rt: HostRuntime) -> ExitCode {
    let alloc = rt.alloc();
    let Some(settings) = settings(alloc) else {
        return ExitCode::from(ScriptEnd::Memory.status());
    };
    let end = run_either_script::<FileNode<AddingMachine>, FileNode<KvMachine>, _, _, _>(
        &rt,
        alloc,
        settings,
        &mut rt.stdin(),
        &mut rt.stdout(),
    );
    ExitCode::from(end.status())
}
