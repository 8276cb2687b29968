//! Steps, taken one by one.

use crate::batches::write_words;
use crate::bench::work;
use crate::cleaning::clean;
use crate::entries::write_or_read;
use crate::files::change_files;
use crate::hooks::keep_files;
use crate::life::live;
use crate::numbered::count;
use crate::reads::read;
use crate::session::{Desk, MemoryEngine, Place, Session};
use crate::settings::set;
use std::thread::Threads;

/// A step on an open engine. Words that ask nothing are a batch that is written.
fn on_engine(engine: &mut MemoryEngine, desk: &mut Desk, word: &str, parts: &[&str]) -> bool {
    read(engine, desk, parts)
        || clean(engine, desk, parts)
        || count(engine, desk, parts)
        || write_or_read(engine, desk, parts)
        || work(engine, desk, parts)
        || write_words(engine, desk, word)
}

/// A step on an engine, or on files where it isn't open. `written` asks how many numbered batches
/// were told.
fn step<R: Threads + Sync>(rt: &R, at: &mut Session, word: &str, parts: &[&str]) -> bool {
    if word == "written" {
        return at.desk.told.show("Told", &at.desk.written);
    }
    if set(at, parts) || live(rt, at, parts) || keep_files(&mut at.desk, parts) {
        return true;
    }
    match &mut at.place {
        Place::Open(engine) => on_engine(engine, &mut at.desk, word, parts),
        Place::Closed(files) => change_files(files, &mut at.desk, &at.config, parts),
    }
}

/// Takes a step, and once more if it is refused and the row is patient.
fn take_patiently<R: Threads + Sync>(rt: &R, at: &mut Session, word: &str, parts: &[&str]) {
    at.desk.told.begin_step();
    step(rt, at, word, parts);
    if at.is_patient && at.desk.told.is_refused {
        at.desk.told.begin_step();
        step(rt, at, word, parts);
    }
}

/// Takes the step that a word says, and keeps what it told, but where the word begins with `!`.
pub fn take<R: Threads + Sync>(rt: &R, at: &mut Session, word: &str) {
    let said = word.strip_prefix('!').unwrap_or(word);
    let parts: Result<Vec<&str>, _> = said.split(':').collect(at.desk.alloc);
    match parts {
        Ok(parts) => take_patiently(rt, at, said, &parts),
        Err(_) => at.desk.told.lacks_memory = true,
    }
    if !word.starts_with('!') {
        at.desk.told.keep();
    }
}
