//! The answers to lines.
use crate::entry_texts::{EntriesText, PayloadText};
use crate::fault::Fault;
use crate::hostile::HostileWorld;
use crate::message_texts::{MessageText, kind_of};
use crate::nodes::Nodes;
use crate::patience::run_patiently;
use crate::reading::{read_event, read_ids, read_target};
use crate::world_texts::{MarkText, MemberText};
use raft_executor::GroupMessage;
use raft_log_records::crc32;
use raft_world::World;
use std::alloc::{AllocError, Global};

/// A world that answers lines.
#[derive(Drop)]
pub struct Answering {
    alloc: Global,
    ids: Vec<u64>,
    nodes: Nodes,
    // Whether an event is asked for once more where it found no memory.
    is_patient: bool,
    // How many events there were, and the number of the next message in its turn.
    count: u64,
    next: u64,
    // The last answer, and the text of which it has the checksum alone.
    told: String,
    text: String,
}

// The messages from a number on.
fn sent_from(nodes: &Nodes, number: usize) -> &[GroupMessage] {
    nodes.messages().get(number..).unwrap_or(&[])
}

// What was sent from a number on, and all nodes.
fn put_world(text: &mut String, nodes: &Nodes, ids: &[u64], sent: usize) -> Result<(), AllocError> {
    for message in sent_from(nodes, sent) {
        write!(text, "{}", MessageText(message))?;
    }
    for id in ids {
        if let Some(member) = nodes.member(*id) {
            write!(text, "{}", MemberText(member))?;
        }
    }
    Ok(())
}

// The kinds of the messages from a number on, with their addressees.
fn put_kinds(text: &mut String, nodes: &Nodes, sent: usize) -> Result<(), AllocError> {
    for message in sent_from(nodes, sent) {
        write!(text, " {}>{}", kind_of(&message.body), message.addressee)?;
    }
    Ok(())
}

impl Answering {
    /// Before the first line there are no nodes.
    pub fn new(alloc: Global) -> Result<Answering, AllocError> {
        Ok(Answering {
            alloc,
            ids: Vec::new(alloc),
            nodes: Nodes::World(World::new(alloc, &[])?),
            is_patient: false,
            count: 0,
            next: 0,
            told: String::new(alloc),
            text: String::new(alloc),
        })
    }

    /// The last answer.
    pub fn told(&self) -> &str {
        self.told.as_str()
    }

    // Another world.
    fn begin(&mut self, line: &str, kind: &str) -> Result<(), Fault> {
        self.is_patient = kind == "patient";
        self.ids = read_ids(self.alloc, line)?;
        self.nodes = match kind {
            "hostile" => Nodes::Hostile(HostileWorld::new(self.alloc, &self.ids)?),
            _ => Nodes::World(World::new(self.alloc, &self.ids)?),
        };
        self.count = 0;
        self.next = 0;
        writeln!(self.told, "{line}")?;
        Ok(())
    }

    // What was sent from a number on and all nodes become the text, and its checksum is told.
    fn tell(&mut self, sent: usize) -> Result<(), AllocError> {
        self.text.clear();
        put_world(&mut self.text, &self.nodes, &self.ids, sent)?;
        let mark = MarkText(self.nodes.mark());
        write!(self.told, "{} {mark}", self.count)?;
        put_kinds(&mut self.told, &self.nodes, sent)?;
        writeln!(self.told, " {:08x}", crc32(self.text.as_bytes()))
    }

    fn run(&mut self, line: &str) -> Result<(), Fault> {
        let world = match &mut self.nodes {
            Nodes::World(world) => world,
            Nodes::Hostile(world) => return world.run(line, self.count),
        };
        let planned = [read_event(self.alloc, line, self.next, self.count)?];
        if self.is_patient {
            return run_patiently(self.alloc, world, &self.ids, &planned);
        }
        match world.run(&planned) {
            1 => Ok(()),
            _ => Err(Fault::Memory),
        }
    }

    fn happen(&mut self, line: &str) -> Result<(), Fault> {
        self.count = self.count.saturating_add(1);
        let sent = self.nodes.messages().len();
        self.run(line)?;
        if !self.is_patient {
            self.tell(sent)?;
        }
        Ok(())
    }

    // The next message is delivered, if there is one.
    fn deliver(&mut self, line: &str) -> Result<(), Fault> {
        let end = self.nodes.messages().len() as u64;
        self.happen(line)?;
        self.next = self.next.saturating_add(1).min(end);
        Ok(())
    }

    // A node stands for election, unless it leads.
    fn lead(&mut self, line: &str) -> Result<(), Fault> {
        let target = read_target(line)?;
        if self
            .nodes
            .member(target)
            .is_some_and(|member| member.is_leading())
        {
            return Ok(());
        }
        self.happen(line)
    }

    // The group's list becomes the text, and its checksum is told.
    fn list(&mut self) -> Result<(), AllocError> {
        let list = self.nodes.list()?;
        self.text.clear();
        writeln!(self.text, "{}", EntriesText(&list))?;
        let sum = crc32(self.text.as_bytes());
        writeln!(self.told, "list {} {sum:08x}", list.len())
    }

    // The last entry of the group's list.
    fn last(&mut self) -> Result<(), AllocError> {
        let list = self.nodes.list()?;
        match list.last() {
            None => writeln!(self.told, "last -"),
            Some(entry) => writeln!(self.told, "last {}", PayloadText(&entry.payload)),
        }
    }

    fn answer_once(&mut self, line: &str) -> Result<(), Fault> {
        self.told.clear();
        match line.split_whitespace().next() {
            None | Some("#") => Ok(()),
            Some(kind @ ("world" | "patient" | "hostile")) => self.begin(line, kind),
            Some("list") => Ok(self.list()?),
            Some("last") => Ok(self.last()?),
            Some("show") => Ok(self.told.push_str(self.text.as_str())?),
            Some("next") => self.deliver(line),
            Some("lead") => self.lead(line),
            Some(_) => self.happen(line),
        }
    }

    /// Answers a line: an empty line and a comment by nothing. A patient world is asked once more
    /// where it found no memory.
    pub fn answer(&mut self, line: &str) -> Result<(), Fault> {
        match self.answer_once(line) {
            Err(Fault::Memory) if self.is_patient => self.answer_once(line),
            answer => answer,
        }
    }
}
