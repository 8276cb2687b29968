//! Runs sections of rows on nodes on files, and on nodes over logs in memory. What a section is, the
//! library raft_cluster_runs says.
#![tactic(auto)]

use raft_cluster_events::{ClusterEvent, ClusterNode};
use raft_cluster_runs::{NodeKind, RoundKind, print_sections};
use raft_listed_cluster::{ListedCluster, RoundRefusal};
use raft_log_files::Config;
use raft_machines::AddingMachine;
use raft_nodes_on_files::{FileNode, log_settings, run_on_files, run_round_on_files};
use raft_plain_nodes::{PlainNode, run_on_plain_logs};
use std::alloc::{AllocError, Global};
use std::io::{self, Read};
use std::thread::Threads;

/// Nodes on files.
struct OnFiles;

impl NodeKind for OnFiles {
    type Node = FileNode<AddingMachine>;

    fn settings(alloc: Global, file_size: u32, threshold: u32) -> Result<Config, AllocError> {
        log_settings(alloc, "raft", file_size, threshold)
    }

    fn run<R: Threads + Sync>(
        rt: &R,
        cluster: &mut ListedCluster<FileNode<AddingMachine>>,
        events: Vec<ClusterEvent>,
    ) -> usize {
        run_on_files(rt, cluster, events)
    }
}

impl RoundKind for OnFiles {
    fn run_round<R: Threads + Sync>(
        rt: &R,
        cluster: &mut ListedCluster<FileNode<AddingMachine>>,
        events: Vec<ClusterEvent>,
    ) -> Result<usize, RoundRefusal> {
        run_round_on_files(rt, cluster, events)
    }
}

/// Nodes over logs in memory.
struct InMemory;

impl NodeKind for InMemory {
    type Node = PlainNode<AddingMachine>;

    fn settings(_alloc: Global, _file_size: u32, _threshold: u32) -> Result<(), AllocError> {
        Ok(())
    }

    fn run<R: Threads + Sync>(
        rt: &R,
        cluster: &mut ListedCluster<PlainNode<AddingMachine>>,
        events: Vec<ClusterEvent>,
    ) -> usize {
        run_on_plain_logs(rt, cluster, events)
    }
}

fn main(rt: HostRuntime) -> io::Result<()> {
    let mut input = String::new(rt.alloc());
    rt.stdin().read_to_string(&mut input)?;
    print_sections::<OnFiles, InMemory, _>(&rt, rt.alloc(), input.as_str())
}
