//! A node without groups' rules: it answers each call by a fixed frame, token or refusal.
ghost use Rattle.std.specs.Prelude.{◌≡◌, None};

use raft_cluster_events::{
    ClusterNode, CrashChoice, CrashRefusal, GroupCommand, Leading, NodeError, NodeFrame,
    NodeOutcome, NodeRefusal, Sequence, Stop, StopCause,
};
use raft_gate_files::{Gate, GateFiles};
use raft_group_step::GroupCall;
use raft_log_disk::FileSystem;
use raft_machines::{AddingMachine, UnknownTokens, Untold};
use raft_state::Bytes;
use std::alloc::{AllocError, Global};
use std::thread::Threads;

/// The length of its frames, in bytes.
const FRAME: usize = 3;

/// It has no machine. An election sends a frame of three bytes to each of nodes 1 to 3, a
/// frame that is whole is answered by one to its sender, and a lost request stops it. A crash that
/// leaves the most is refused by chance where the last purge was up to place 6, as no image for 7, and
/// for want of memory for 10. A cleaning of node 2 names groups 7 and 12. Behind a fuse an election or
/// a cleaning stops it, until the fuse is lifted. With a gate it has a file behind it, writes there where it
/// gets a group, and refuses that where the write met no other node's.
#[derive(Drop)]
pub struct ToyNode {
    alloc: Global,
    pub id: u64,
    is_up: bool,
    held: usize,
    purged: u64,
    is_fused: bool,
    /// The group that it leads, and with what; nothing unless it is set.
    pub group: u64,
    pub leading: Option<Leading>,
    files: Option<GateFiles>,
}

// Whether a first write to these files met that of another node.
fn meets(files: &mut GateFiles) -> bool {
    if files.make_dir("main").is_err() || files.is_file("main/log") {
        return false;
    }
    let Ok(file) = files.create("main/log") else {
        return false;
    };
    files.write_at(file, 0, b"abc").is_ok() && files.met() == Some(true)
}

// The files behind a gate, if there is one.
fn files_behind(alloc: Global, gate: &Option<Gate>) -> Result<Option<GateFiles>, AllocError> {
    match gate {
        Some(gate) => Ok(Some(GateFiles::new(alloc, gate.again()?))),
        None => Ok(None),
    }
}

// What a call did that found memory.
fn done<T>(made: Result<T, AllocError>, alloc: Global) -> Result<T, NodeError> {
    match made {
        Ok(made) => Ok(made),
        Err(_) => Err(NodeError::Stopped(Stop {
            cause: StopCause::Memory,
            unsaid: None,
            unknown: Sequence::new(alloc),
        })),
    }
}

// An outcome with a frame to each of these nodes.
fn frames_to(alloc: Global, group: u64, peers: &[u64]) -> Result<NodeOutcome, AllocError> {
    let mut frames = Sequence::new(alloc);
    for peer in peers {
        let bytes = Bytes::from_slice(alloc, b"abc")?;
        frames.push(NodeFrame {
            peer: *peer,
            bytes,
            accepts: None,
        })?;
    }
    Ok(NodeOutcome {
        group,
        frames,
        told: Sequence::new(alloc),
        unknown: Sequence::new(alloc),
    })
}

impl ToyNode {
    pub fn new(alloc: Global, id: u64) -> ToyNode
        ensures { result.id ≡ id }
    {
        ToyNode {
            alloc,
            id,
            is_up: true,
            held: 0,
            purged: 0,
            is_fused: false,
            group: 0,
            leading: None,
            files: None,
        }
    }

    fn stop(&self, group: u64, token: u64) -> Result<Stop, AllocError> {
        let mut unknown = Sequence::new(self.alloc);
        let place = token;
        let mut tokens = Vec::new(self.alloc);
        tokens.push(Untold { token, place })?;
        unknown.push(UnknownTokens { group, tokens })?;
        Ok(Stop {
            cause: StopCause::Io,
            unsaid: None,
            unknown,
        })
    }

    // The groups that hold old files back.
    fn holding(&self) -> Result<Sequence<u64>, AllocError> {
        let mut groups = Sequence::new(self.alloc);
        if self.id == 2 {
            groups.push(7)?;
            groups.push(12)?;
        }
        Ok(groups)
    }

    fn stopped(&self, group: u64, token: u64) -> NodeError {
        match self.stop(group, token) {
            Ok(stop) => NodeError::Stopped(stop),
            Err(_) => NodeError::Refused(NodeRefusal::Failed),
        }
    }
}

impl ClusterNode for ToyNode {
    type Machine = AddingMachine;

    type Settings = Option<Gate>;

    ghost acts = { record {
      id = λ n. n.id;
      is_up = λ n. n.is_up;
      begins = λ id n. Unit {0};
      adds = λ old group answered new. Unit {0};
      asks = λ old group call now answered new. Unit {0};
      feeds = λ old peer piece now answered new. Unit {0};
      resets = λ old peer answered new. Unit {0};
      cleans = λ old answered new. Unit {0};
      fails = λ old stop new. Unit {0};
      fuses = λ old first_refused new. Unit {0};
      crashes = λ old choice new. Unit {0};
      refuses = λ old choice why. Unit {0};
      reopens = λ old workers answered new. Unit {0};
      closes = λ old new. Unit {0};
      machine_of = λ n group. None;
      applied_of = λ n group. None;
      leads = λ n group told. Unit {0};
    } };

    ghost states = { record {
      may_be = λ n group states. Unit {0};
      spells = λ group message bytes. Unit {0};
    } };

    fn begin<R: Threads + Sync>(
        _rt: &R,
        alloc: Global,
        id: u64,
        settings: &Option<Gate>,
    ) -> Result<Self, AllocError> {
        let mut node = ToyNode::new(alloc, id);
        node.files = files_behind(alloc, settings)?;
        Ok(node)
    }

    fn id(&self) -> u64 {
        self.id
    }

    fn is_up(&self) -> bool {
        self.is_up
    }

    fn add_group(&mut self, group: u64) -> Result<NodeOutcome, NodeError> {
        if let Some(files) = &mut self.files {
            if !meets(files) {
                return Err(NodeError::Refused(NodeRefusal::Failed));
            }
        }
        done(frames_to(self.alloc, group, &[]), self.alloc)
    }

    fn ask(
        &mut self,
        group: u64,
        call: &GroupCommand,
        _now: u64,
    ) -> Result<NodeOutcome, NodeError> {
        match call {
            GroupCall::Elect if self.is_fused => Err(self.stopped(group, self.id)),
            GroupCall::Elect => done(frames_to(self.alloc, group, &[1, 2, 3]), self.alloc),
            GroupCall::Lost { peer } => Err(self.stopped(group, *peer)),
            GroupCall::TriggerPurge { place } => {
                self.purged = *place;
                done(frames_to(self.alloc, group, &[]), self.alloc)
            }
            GroupCall::Heartbeat => {
                let leader = Some(self.id);
                Err(NodeError::Refused(NodeRefusal::NotLeader { leader }))
            }
            _ => done(frames_to(self.alloc, group, &[]), self.alloc),
        }
    }

    fn feed(
        &mut self,
        peer: u64,
        piece: &[u8],
        now: u64,
    ) -> Result<Option<NodeOutcome>, NodeError> {
        self.held = self.held.saturating_add(piece.len());
        if self.held < FRAME {
            return Ok(None);
        }
        self.held = 0;
        let outcome = done(frames_to(self.alloc, now, &[peer]), self.alloc)?;
        Ok(Some(outcome))
    }

    fn reset_peer(&mut self, _peer: u64) -> Result<(), NodeError> {
        self.held = 0;
        Ok(())
    }

    fn clean_files(&mut self) -> Result<Sequence<u64>, NodeError> {
        if self.is_fused {
            return Err(self.stopped(7, self.id));
        }
        done(self.holding(), self.alloc)
    }

    fn fail(&mut self) -> Stop {
        Stop {
            cause: StopCause::Memory,
            unsaid: None,
            unknown: Sequence::new(self.alloc),
        }
    }

    fn fuse(&mut self, first_refused: Option<u64>) {
        self.is_fused = first_refused.is_some();
    }

    fn crash(&mut self, choice: &CrashChoice) -> Result<(), CrashRefusal> {
        match (choice, self.purged) {
            (CrashChoice::Most, 6) => Err(CrashRefusal::ByChance),
            (CrashChoice::Most, 7) => Err(CrashRefusal::NotAnImage),
            (CrashChoice::Most, 10) => Err(CrashRefusal::Memory),
            _ => {
                self.is_up = false;
                Ok(())
            }
        }
    }

    fn reopen<R: Threads + Sync>(
        &mut self,
        _rt: &R,
        _workers: u64,
    ) -> Result<Sequence<NodeOutcome>, Stop> {
        self.is_up = true;
        Ok(Sequence::new(self.alloc))
    }

    fn close(&mut self) {
        self.is_up = false;
    }

    fn machine(&self, _group: u64) -> Option<&AddingMachine> {
        None
    }

    fn applied(&self, _group: u64) -> Option<u64> {
        None
    }

    fn leading(&self, group: u64) -> Option<Leading> {
        if group == self.group {
            self.leading
        } else {
            None
        }
    }
}
