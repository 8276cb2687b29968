//! Which call the words of a row name.

use crate::benches::counted;
use crate::engines::{NumberedEngine, begin, new_engine, seen};
use crate::events::happened;
use crate::handlers::handled;
use crate::lists::{listed, stated};
use crate::memberships::answered;
use crate::progress::{Values, progressed};
use crate::sent::told_of_sent;
use crate::storages::{kept, known_of};
use crate::texts::{judged, told_of, told_of_entry};
use raft_group_storage::PlainGroups;
use raft_rows::{Answer, Rows};
use raft_state::LogIdList;
use raft_stored_group::StoredGroup;
use std::alloc::Global;

/// What the calls are made on.
#[derive(Drop)]
pub struct Calls {
    list: LogIdList<u64>,
    values: Option<Values>,
    engine: NumberedEngine,
    many: PlainGroups,
    only: StoredGroup,
}

impl Calls {
    pub fn new(alloc: Global) -> Calls {
        Calls {
            list: LogIdList::default(alloc),
            values: None,
            engine: new_engine(alloc),
            many: PlainGroups::new(alloc),
            only: StoredGroup::new(alloc),
        }
    }
}

// The answer to a row of which nothing is kept.
fn plain(alloc: Global, topic: &str, words: &[&str]) -> Option<Answer> {
    match (topic, words) {
        ("text", [name]) => told_of(alloc, name),
        ("text", ["entry", word]) => told_of_entry(alloc, word),
        ("sent", [name]) => told_of_sent(alloc, name),
        ("command", [count]) => judged(alloc, count),
        ("bench", words) => Some(counted(alloc, words)),
        ("members", words) => answered(alloc, words),
        _ => None,
    }
}

// The answer to a row about an engine.
fn of_engine(
    engine: &mut NumberedEngine,
    alloc: Global,
    topic: &str,
    words: &[&str],
) -> Option<Answer> {
    match topic {
        "engine" => begin(engine, alloc, words),
        "event" => happened(engine, alloc, words),
        "handler" => handled(engine, alloc, words),
        "known" => stated(&mut engine.state.state, alloc, words),
        "see" => seen(engine, alloc, words),
        _ => plain(alloc, topic, words),
    }
}

impl Rows for Calls {
    fn answer(&mut self, alloc: Global, words: &[&str]) -> Option<Answer> {
        let [topic, words @ ..] = words else {
            return None;
        };
        match *topic {
            "list" => listed(&mut self.list, alloc, words),
            "progress" => progressed(&mut self.values, alloc, words),
            "many" => kept(&mut self.many, alloc, words),
            "only" => kept(&mut self.only, alloc, words),
            "stored" => known_of(&self.only, alloc, words),
            topic => of_engine(&mut self.engine, alloc, topic, words),
        }
    }
}
