//! Clusters of nodes that have no rules of groups: what the cluster itself does is seen. A row is one of
//! these:
//!
//! - a line of a script, of which the group of a reply is the tick;
//! - `at-once EVENT;EVENT`: events that a new cluster runs at once, each a line of a script, `fuse NODE`
//!   or `lift NODE`;
//! - `go-on EVENT;EVENT` and `round EVENT;EVENT`: the same of that cluster, in a round;
//! - `behind-gate TURNS`: a new cluster of two nodes whose first writes look so often for each other;
//! - `in GROUP OUTCOME NODE ..` and `opens GROUP OUTCOME NODE ..`: an event of a group, or an opening of
//!   the node, and what is heard of it, as `voters=1,2`, `leads=1-1-2:0-0-0`, `writes=ab` or
//!   `accepts=1-1-2`. Answered are the lists of groups 5 and 6;
//! - `new`: the lists begin anew.
#![tactic(auto)]

mod at_once;
mod lists;
mod rows;
mod toy_node;

use rows::Clusters;
use std::io;
use std::thread::Threads;

fn run<R: Input + Print + Threads + Sync>(rt: &R, clusters: &mut Clusters) -> io::Result<()> {
    for row in rt.lines(clusters.alloc) {
        let mut text = row?;
        clusters.push_answer(rt, &mut text)?;
        println!(rt; "{text}")?;
    }
    Ok(())
}

fn main(rt: HostRuntime) -> io::Result<()> {
    let mut clusters = Clusters::new(&rt, rt.alloc())?;
    run(&rt, &mut clusters)
}
