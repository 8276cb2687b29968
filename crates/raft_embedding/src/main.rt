//! Embeds nodes: three of them on files of their own, with a state machine of this program's. Each row
//! of the input is a call of a node, and the program prints what the node answers.
//!
//! A row begins with the node. These are the rows; the last word of a call is its moment, in ticks:
//!
//! - `1 open`, `1 close`, `1 crash`: the node is opened on its files, and closed, or its machine stops;
//! - `1 fuses 2`: its files refuse that changing call and each behind it; `1 notes`: the bytes of the files
//!   are noted; `1 tears 3`: a crash leaves those, and three quarters of what was written since then;
//! - `1 add 7`: it gets a group;
//! - `1 initialize 7 2 0`, `1 elect 7 0`, `1 heartbeat 7 5`, `1 lost 7 2 5`, `1 propose 7 a x 40 5`,
//!   `1 learner 7 3 c 41 5`, `1 snapshot 7 5`, `1 purge 7 3 5`: its calls;
//! - `1 takes 2 5`: what node 2 sent it comes as a stream, in pieces; `1 takes 2 5 for 3`: what node 2
//!   sent node 3; `1 takes 2 5 bytes "\xff"`: these bytes; `1 loses 2`: what it sent doesn't come;
//! - `1 clock 7 5`, `1 ticks 9`: a clock of the group starts, and what it asks for at that moment is called;
//! - `1 resets 2`, `1 fails`: the peer's stream begins anew; the node stops;
//! - `1 sees 7`, `1 knows 7 2`, `1 gets 7 a`, `1 is`: what it tells of the group, of a member of it, of
//!   the group's machine, of itself; `1 has`, `1 may 7`: which groups it has, and from which moment on
//!   an election of the group may be asked for.
#![tactic(auto)]

mod calls;
mod clock;
mod counters;
mod house;
mod node;
mod rows;
mod told;
mod torn;

use house::House;
use raft_rows::run;
use std::io;

fn main(rt: HostRuntime) -> io::Result<()> {
    run(&rt, &mut House::new(rt.alloc()))
}
