//! A log engine over files in memory, a row of text each: the steps that are taken, and what each
//! told.
//!
//! A row begins without files, and its steps are words: settings as `target:1024` or `mode:any`,
//! `open`, `stop:least`, calls as `get:7:a`, calls on the files where the engine isn't open, and
//! batches as `put:7:a:x+add:7:1:p,q`. Of a step behind `!` nothing is told. A row `each 1..5
//! STEPS` takes its steps anew for each of these numbers, which stands where they say `@`, and
//! tells how often in turn they told the same.
#![tactic(auto)]

mod batches;
mod bench;
mod cleaning;
mod entries;
mod files;
mod gates;
mod hooks;
mod life;
mod messages;
mod numbered;
mod reads;
mod rows;
mod session;
mod settings;
mod steps;
mod told;

use rows::answer_all;
use session::Session;
use std::io;

fn main(rt: HostRuntime) -> io::Result<()> {
    let mut session = Session::new(rt.alloc());
    answer_all(&rt, &mut session)
}
