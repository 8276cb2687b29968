//! The homes of three nodes, and what their events do. Answers are written behind a text.

use crate::calls::feed;
use crate::node::{Answered, CountersNode, Home, Piece, Refused};
use crate::told::{Done, Why};
use raft_node::Outcome;
use std::alloc::{AllocError, Global};

/// A stream comes in pieces of so many bytes.
const PIECE: usize = 50;

/// The homes of three nodes, 1, 2 and 3, at the addresses a, b and c.
#[derive(Drop)]
pub struct House {
    a: Home,
    b: Home,
    c: Home,
}

/// Whether there was memory for an answer.
pub type Told = Result<(), AllocError>;

/// Why a call isn't done.
pub fn refused(why: &Refused, text: &mut String) -> Told {
    write!(text, "{}", Why(why))
}

impl House {
    pub fn new(alloc: Global) -> House {
        House {
            a: Home::new(alloc, 1),
            b: Home::new(alloc, 2),
            c: Home::new(alloc, 3),
        }
    }

    /// The node's home, if there is one.
    pub fn home(&mut self, id: u64) -> Option<&mut Home> {
        match id {
            1 => Some(&mut self.a),
            2 => Some(&mut self.b),
            3 => Some(&mut self.c),
            _ => None,
        }
    }

    /// The node, if it is up.
    pub fn node(&mut self, id: u64) -> Option<&mut CountersNode> {
        self.home(id)?.node.as_mut()
    }

    // What an event of a node did, and its frames are under way.
    fn done(&mut self, id: u64, outcome: &Outcome, text: &mut String) -> Told {
        for frame in outcome.frames.as_slice() {
            if let Some(home) = self.home(frame.addressee) {
                home.send(id, frame.bytes.as_slice())?;
            }
        }
        write!(text, "{}", Done(outcome))
    }

    fn all_done(&mut self, id: u64, outcomes: &[Outcome], text: &mut String) -> Told {
        for outcome in outcomes {
            text.push_str("; ")?;
            self.done(id, outcome, text)?;
        }
        Ok(())
    }

    /// What a call of a node answered.
    pub fn answered(&mut self, id: u64, answered: &Answered, text: &mut String) -> Told {
        match answered {
            Ok(outcome) => self.done(id, outcome, text),
            Err(why) => refused(why, text),
        }
    }

    /// What the node answered to all that its clock asked for.
    pub fn ticked(&mut self, id: u64, answers: &[Answered], text: &mut String) -> Told {
        write!(text, "{} due", answers.len())?;
        for answered in answers {
            text.push_str("; ")?;
            self.answered(id, answered, text)?;
        }
        Ok(())
    }

    /// What an opening of a node answered.
    pub fn opened(
        &mut self,
        id: u64,
        opened: &Result<Vec<Outcome>, Refused>,
        text: &mut String,
    ) -> Told {
        match opened {
            Ok(outcomes) => {
                text.push_str("open")?;
                self.all_done(id, outcomes.as_slice(), text)
            }
            Err(why) => refused(why, text),
        }
    }

    // What a piece of a stream did. Whether the stream goes on.
    fn fed(&mut self, id: u64, fed: &Piece, text: &mut String) -> Result<bool, AllocError> {
        self.all_done(id, fed.outcomes.as_slice(), text)?;
        let Some(why) = &fed.fault else {
            return Ok(true);
        };
        text.push_str("; ")?;
        refused(why, text)?;
        Ok(false)
    }

    // A piece of the peer's stream comes. Whether the stream goes on.
    fn feed_piece(
        &mut self,
        id: u64,
        peer: u64,
        piece: &[u8],
        now: u64,
        text: &mut String,
    ) -> Result<bool, AllocError> {
        let Some(node) = self.node(id) else {
            return Ok(false);
        };
        let fed = feed(node, peer, piece, now);
        if let Some(home) = self.home(id) {
            home.hear(peer, fed.outcomes.as_slice(), now);
        }
        self.fed(id, &fed, text)
    }

    /// These bytes come to the node as the peer's, in pieces, up to the first frame that it refuses.
    pub fn feed(&mut self, id: u64, peer: u64, stream: &[u8], now: u64, text: &mut String) -> Told {
        write!(text, "{} bytes", stream.len())?;
        for piece in stream.chunks(PIECE) {
            if !self.feed_piece(id, peer, piece, now, text)? {
                break;
            }
        }
        Ok(())
    }
}
