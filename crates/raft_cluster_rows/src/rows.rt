//! Which call the words of a row name.

use crate::at_once::push_run;
use crate::lists::Lists;
use crate::toy_node::ToyNode;
use raft_cluster::Cluster;
use raft_cluster_script::Script;
use raft_gate_files::Gate;
use raft_rows::number;
use raft_script_session::LineRunner;
use std::alloc::{AllocError, Global};
use std::thread::Threads;

/// What the rows speak of.
#[derive(Drop)]
pub struct Clusters {
    pub alloc: Global,
    script: Script<ToyNode>,
    cluster: Cluster<ToyNode>,
    lists: Lists,
}

/// Whether there was memory for an answer.
type Told = Result<(), AllocError>;

fn cluster<R: Threads + Sync>(rt: &R, alloc: Global) -> Result<Cluster<ToyNode>, AllocError> {
    Cluster::new(rt, alloc, &[1, 2, 3], &None)
}

impl Clusters {
    pub fn new<R: Threads + Sync>(rt: &R, alloc: Global) -> Result<Clusters, AllocError> {
        match cluster(rt, alloc) {
            Ok(cluster) => Ok(Clusters {
                alloc,
                script: Script::new(alloc, None),
                cluster,
                lists: Lists::new(alloc),
            }),
            Err(refused) => Err(refused),
        }
    }

    // A line of the script, which may be no event.
    fn run_line<R: Threads + Sync>(&mut self, rt: &R, line: &str, text: &mut String) -> Told {
        match &self.script.run_line(rt, line.as_bytes())? {
            Some(answer) => text.push_str(answer.trim_end()),
            None => text.push_str("no event"),
        }
    }

    // A new cluster runs these events at once.
    fn at_once<R: Threads + Sync>(&mut self, rt: &R, lines: &str, text: &mut String) -> Told {
        self.cluster = cluster(rt, self.alloc)?;
        push_run(rt, self.alloc, &mut self.cluster, false, lines, text)
    }

    // A new cluster of two nodes, whose first writes look so often for each other.
    fn behind_gate<R: Threads + Sync>(&mut self, rt: &R, turns: u64, text: &mut String) -> Told {
        let gate = Gate::new(self.alloc, turns)?;
        gate.shut();
        self.cluster = Cluster::new(rt, self.alloc, &[1, 2], &Some(gate))?;
        text.push_str("none")
    }

    fn push_told<R: Threads + Sync>(&mut self, rt: &R, row: &str, text: &mut String) -> Told {
        match row.split_once(' ') {
            Some(("at-once", lines)) => self.at_once(rt, lines, text),
            Some((verb @ ("round" | "go-on"), lines)) => {
                let cluster = &mut self.cluster;
                push_run(rt, self.alloc, cluster, verb == "round", lines, text)
            }
            Some(("behind-gate", turns)) => self.behind_gate(rt, number(turns), text),
            Some((verb @ ("in" | "opens"), words)) => {
                self.lists.push_behind(verb == "opens", words, text)
            }
            None if row == "new" => {
                self.lists = Lists::new(self.alloc);
                text.push_str("none")
            }
            _ => self.run_line(rt, row, text),
        }
    }

    /// Behind a row its answer. An empty one and one that begins with `#` have none.
    pub fn push_answer<R: Threads + Sync>(&mut self, rt: &R, text: &mut String) -> Told {
        if text.is_empty() || text.as_str().starts_with('#') {
            return Ok(());
        }
        let row = String::from_str(self.alloc, text.as_str())?;
        text.push_str(" -> ")?;
        self.push_told(rt, row.as_str(), text)
    }
}
