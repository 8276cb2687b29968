//! Frames out of a stream that comes in pieces.
ghost use Rattle.std.specs.Prelude.{◌≡◌, ◌≤◌, ◌<◌, ◌+◌, ◌*◌, ◌++◌, ℕ, List, [], Some, None, Ok, Err, OnOk, OnErr};
ghost use Rattle.std.specs.Prelude.{take, drop, get_or, length, min, max, vec_len, vec_capacity, IsTrue, ◌↔◌, ◌⊎◌};
ghost use Rattle.raft_wire.specs.Reader.{Gives, all_of};
ghost use Rattle.raft_wire.specs.Frames.{rest_at};
ghost use Rattle.raft_wire.specs.Stream.{length_in, fault_of_length, front, idle_room, longest_frame, whole_of};
ghost use Rattle.raft_wire.specs.Stream.{fresh, Answers, IsSpelledSo, IsIdleSmall, HoldsRightly};
ghost use Rattle.raft_wire.specs.Wanted.{IsWanted, HeldAfter, Takes, IfFrame};

use crate::error::{FrameError, FrameFault};
use crate::frame::Frame;
use crate::reading::frame_of;
use std::alloc::{AllocError, Global};
use std::marker::Model;

/// Behind its length a frame has at least so many bytes.
pub const MIN_FRAME_LEN: u32 = 25;

/// Behind its length a frame has at most so many bytes.
pub const MAX_FRAME_LEN: u32 = 17_825_788;

/// A feeder that holds nothing has memory for at most so many bytes.
pub const MAX_IDLE_ROOM: usize = 65_536;

/// The length of a frame takes so many bytes.
const LENGTH_LEN: usize = 4;

// What a piece brings to the bytes that are held.
enum Wanted {
    // No frame is whole yet. The next to be whole has so many bytes: a frame, or its length.
    More(usize),
    // The length is wrong, and ends behind so many bytes of the piece.
    Fault(FrameFault, usize),
    // A frame ends behind so many bytes of the piece.
    Frame(usize),
}

// A byte of the stream: what is held, and the piece.
fn byte_in(held: &[u8], piece: &[u8], at: usize) -> u8
    requires { at < length held.now + length piece.now }
    ensures { result ≡ get_or (held.now ++ piece.now) at 0 }
{
    if at < held.len() {
        held[at]
    } else {
        piece[at - held.len()]
    }
}

// The length field, once its four bytes are there.
#[tactic(auto, using(crate::proofs::Streams::four_bytes))]
fn length_of(held: &[u8], piece: &[u8]) -> Option<u32>
    ensures { result ≡ length_in (held.now ++ piece.now) }
{
    if held.len() < LENGTH_LEN && piece.len() < LENGTH_LEN - held.len() {
        return None;
    }
    Some(u32::from_be_bytes([
        byte_in(held, piece, 0),
        byte_in(held, piece, 1),
        byte_in(held, piece, 2),
        byte_in(held, piece, 3),
    ]))
}

fn fault_of_length(len: u32) -> Option<FrameFault>
    ensures { result ≡ fault_of_length len }
{
    if len < MIN_FRAME_LEN {
        Some(FrameFault::CutShort)
    } else if MAX_FRAME_LEN < len {
        Some(FrameFault::TooLong)
    } else {
        None
    }
}

// What the piece brings to the bytes that are held, of which less than a frame of this length.
fn frame_brought(held: &[u8], piece: &[u8], len: u32) -> Wanted
    requires waits { front held.now ≡ None }
    requires len { length_in (held.now ++ piece.now) ≡ Some len }
    requires right { fault_of_length len ≡ None }
    ensures { IsWanted held.now piece.now result }
{
    let whole = LENGTH_LEN + len as usize;
    let used = whole - held.len();
    if piece.len() < used {
        return Wanted::More(whole);
    }
    Wanted::Frame(used)
}

// What the piece brings to the bytes that are held, which are less than a frame.
fn brought_by(held: &[u8], piece: &[u8]) -> Wanted
    requires { front held.now ≡ None }
    ensures { IsWanted held.now piece.now result }
{
    match length_of(held, piece) {
        None => Wanted::More(LENGTH_LEN),
        Some(len) => match fault_of_length(len) {
            Some(fault) => Wanted::Fault(fault, LENGTH_LEN - held.len()),
            None => frame_brought(held, piece, len),
        },
    }
}

// ---- memory

// For how many bytes memory is taken where so many are needed, of so many in the end. It follows what
// has come, since a length alone is soon sent: up to 65,536 bytes are taken at once, and else less than
// a quarter of the whole or just a quarter, until a quarter has come.
fn room_for(needed: usize, whole: usize) -> usize
    requires needed { needed ≤ whole }
    requires whole { whole ≤ longest_frame + 4 }
    ensures enough { needed ≤ result }
    ensures within { result ≤ max idle_room (min (4 * needed) whole) }
    ensures whole { whole ≤ 4 * needed → result ≡ whole }
    ensures quarter { (result ≡ whole) ⊎ (4 * result ≤ whole) }
{
    if whole <= MAX_IDLE_ROOM || whole <= 4 * needed {
        return whole;
    }
    if whole <= 16 * needed || whole <= 4 * MAX_IDLE_ROOM {
        return whole / 4;
    }
    if needed <= MAX_IDLE_ROOM / 4 {
        return MAX_IDLE_ROOM;
    }
    4 * needed
}

// Whether room for so many bytes serves so many, of so many in the end: once a quarter has come, the
// whole frame is to have its block, so that no block of more than a quarter is ever moved.
fn serves(room: usize, needed: usize, whole: usize) -> bool
    requires { needed ≤ longest_frame + 4 }
    ensures { IsTrue result ↔ ((needed ≤ room) × ((whole ≤ room) ⊎ (4 * needed < whole))) }
{
    needed <= room && (whole <= room || 4 * needed < whole)
}

// Makes room for so many more bytes, of so many in the end. What the block before doesn't use goes
// first: it may be one of an earlier frame.
fn make_room(held: &mut Vec<u8>, more: usize, whole: usize) -> Result<(), AllocError>
    requires more { vec_len held.old + more ≤ whole }
    requires whole { whole ≤ longest_frame + 4 }
    ensures items { held.new.items ≡ held.old.items }
    ensures len { vec_len held.new ≡ vec_len held.old }
    ensures room { OnOk result (vec_len held.new + more ≤ vec_capacity held.new) }
    ensures early { OnOk result ((whole ≤ vec_capacity held.new) ⊎ (4 * (vec_len held.old + more) < whole)) }
    ensures err { OnErr result (vec_capacity held.new ≤ vec_capacity held.old) }
    ensures within { vec_capacity held.new
        ≤ max (vec_capacity held.old) (max idle_room (min (4 * (vec_len held.old + more)) whole)) }
{
    let needed = held.len() + more;
    if serves(held.capacity(), needed, whole) {
        return Ok(());
    }
    held.shrink_to_fit();
    held.reserve_exact(room_for(needed, whole) - held.len())
}

// Holds the piece too, of so many bytes in the end.
fn hold(held: &mut Vec<u8>, piece: &[u8], whole: usize) -> Result<(), AllocError>
    requires more { length (held.old.items ++ piece.now) ≤ whole }
    requires whole { whole ≤ longest_frame + 4 }
    requires idle { IsIdleSmall held.old.items (vec_capacity held.old) }
    ensures ok { OnOk result (held.new.items ≡ held.old.items ++ piece.now) }
    ensures err { OnErr result (held.new.items ≡ held.old.items) }
    ensures idle { IsIdleSmall held.new.items (vec_capacity held.new) }
{
    if piece.is_empty() {
        return Ok(());
    }
    make_room(held, piece.len(), whole)?;
    held.extend_from_slice(piece)
}

// Holds nothing more, and gives back memory past what an idle feeder has.
fn let_go(held: &mut Vec<u8>)
    ensures items { held.new.items ≡ [] }
    ensures room { vec_capacity held.new ≤ idle_room }
{
    held.clear();
    if MAX_IDLE_ROOM < held.capacity() {
        held.shrink_to_fit();
    }
}

// ---- frames

// Reads the frame that is held and these bytes, of which the first four are its length.
fn read_held(held: &mut Vec<u8>, bytes: &[u8]) -> Result<Frame, FrameError>
    requires length { 4 ≤ length (held.old.items ++ bytes.now) }
    requires whole { length (held.old.items ++ bytes.now) ≤ longest_frame + 4 }
    requires idle { IsIdleSmall held.old.items (vec_capacity held.old) }
    ensures held { HeldAfter held.old.items result held.new.items }
    ensures read { Gives (λ x. x) result (all_of rest_at (drop 4 (held.old.items ++ bytes.now))) }
    ensures idle { IsIdleSmall held.new.items (vec_capacity held.new) }
    // Where nothing is held the bytes are read where they are.
    ensures in_place { held.old.items ≡ [] → held.new ≡ held.old }
{
    let alloc: Global = *held.allocator();
    if held.is_empty() {
        return frame_of(alloc, &bytes[LENGTH_LEN..]);
    }
    let before = held.len();
    hold(held, bytes, before + bytes.len())?;
    let read = frame_of(alloc, &held[LENGTH_LEN..]);
    match read {
        Err(FrameError::Memory) => {
            held.truncate(before);
            held.shrink_to_fit();
        }
        _ => let_go(held),
    }
    read
}

/// What a feeder made of a piece.
#[derive(Drop)]
pub struct Fed {
    /// How many bytes of the piece were taken.
    pub used: usize,
    /// The frame that is whole now, or none yet; else why the stream is refused.
    pub frame: Result<Option<Frame>, FrameError>,
}

/// Takes a stream piece by piece, and gives its frames one by one (own).
///
/// It holds the bytes of one frame that isn't whole yet, at most `MAX_FRAME_LEN` + 3, and whether the
/// stream has failed. While it holds nothing it has memory for at most `MAX_IDLE_ROOM` bytes. While it
/// holds some it has taken memory for four times as many at most, or for `MAX_IDLE_ROOM`, and never
/// for more than the frame needs. Where a block is moved, both together are at most a quarter more
/// than the frame and `MAX_IDLE_ROOM`. Contracts see what it holds, whether the stream has failed, and
/// for how many bytes it has memory. Its errors are those of `feed`.
#[derive(Drop)]
pub struct Feeder {
    held: Vec<u8>,
    failed: bool,
}

impl Model for Feeder {
    ghost use Rattle.std.specs.Prelude.{vec_capacity};
    ghost use Rattle.raft_wire.specs.Stream.{FeederValue, HoldsRightly};

    ghost Value = { FeederValue };

    ghost view = { λ a. record { feeding = record { held = a.held.items; failed = a.failed }; room = vec_capacity a.held } };

    ghost invariant = { λ a. HoldsRightly a.held.items (vec_capacity a.held) };
}

// What feeding a piece answers and leaves held, where the stream hasn't failed.
fn take_piece(held: &mut Vec<u8>, piece: &[u8]) -> Fed
    requires waits { front held.old.items ≡ None }
    requires idle { IsIdleSmall held.old.items (vec_capacity held.old) }
    ensures taken { Takes held.old.items piece.now result.used result.frame held.new.items }
    ensures idle { IsIdleSmall held.new.items (vec_capacity held.new) }
    ensures in_place { held.old.items ≡ [] → IfFrame result.frame (held.new ≡ held.old) }
{
    match brought_by(held.as_slice(), piece) {
        Wanted::More(whole) => match hold(held, piece, whole) {
            Ok(()) => Fed {
                used: piece.len(),
                frame: Ok(None),
            },
            Err(_) => Fed {
                used: 0,
                frame: Err(FrameError::Memory),
            },
        },
        Wanted::Fault(fault, used) => {
            let_go(held);
            Fed {
                used,
                frame: Err(FrameError::Fault(fault)),
            }
        }
        Wanted::Frame(used) => take_frame(held, piece, used),
    }
}

// Reads the frame that ends behind so many bytes of the piece.
fn take_frame(held: &mut Vec<u8>, piece: &[u8], used: usize) -> Fed
    requires waits { front held.old.items ≡ None }
    requires frame { front (held.old.items ++ piece.now) ≡ Some (all_of rest_at (drop 4 (held.old.items ++ take used piece.now)), length held.old.items + used) }
    requires within { used ≤ length piece.now }
    requires length { 4 ≤ length (held.old.items ++ take used piece.now) }
    requires whole { length (held.old.items ++ take used piece.now) ≤ longest_frame + 4 }
    requires idle { IsIdleSmall held.old.items (vec_capacity held.old) }
    ensures taken { Takes held.old.items piece.now result.used result.frame held.new.items }
    ensures idle { IsIdleSmall held.new.items (vec_capacity held.new) }
    ensures in_place { held.old.items ≡ [] → held.new ≡ held.old }
{
    match read_held(held, &piece[..used]) {
        Ok(frame) => Fed {
            used,
            frame: Ok(Some(frame)),
        },
        Err(FrameError::Fault(fault)) => Fed {
            used,
            frame: Err(FrameError::Fault(fault)),
        },
        Err(error) => Fed {
            used: 0,
            frame: Err(error),
        },
    }
}

impl Feeder {
    /// A feeder at the beginning of a stream. Takes no memory.
    pub fn new(alloc: Global) -> Feeder
        ensures { result ≡ record { feeding = fresh; room = 0 } }
    {
        Feeder {
            held: Vec::new(alloc),
            failed: false,
        }
    }

    /// Takes the next piece of the stream up to the end of the first frame in it, and answers that
    /// frame; where none is whole, it takes the piece and answers none. The first fault of a frame is
    /// answered (`Fault`) once the frame is whole, or once its length is there and wrong; from then on
    /// each piece is answered by `StreamFailed`, until `reset`. Without memory (`Memory`) nothing of
    /// the piece is taken and the feeder holds what it held before. It never holds a whole frame, and a
    /// frame that lies whole in the piece is read there.
    pub fn feed(&mut self, piece: &[u8]) -> Fed
        ensures answers { Answers self.old.feeding piece.now result.used result.frame self.new.feeding }
        ensures spelled { IsSpelledSo self.old.feeding.held piece.now result.used result.frame }
        ensures holds { HoldsRightly self.new.feeding.held self.new.room }
        ensures in_place { self.old.feeding.held ≡ [] → IfFrame result.frame (self.new.room ≡ self.old.room) }
    {
        if self.failed {
            return Fed {
                used: 0,
                frame: Err(FrameError::StreamFailed),
            };
        }
        let fed = take_piece(&mut self.held, piece);
        if matches!(fed.frame, Err(FrameError::Fault(_))) {
            self.failed = true;
        }
        fed
    }

    /// Whether the stream has failed.
    pub fn failed(&self) -> bool
        ensures { result ≡ self.now.feeding.failed }
    {
        self.failed
    }

    /// For how many bytes the feeder has memory.
    pub fn room(&self) -> usize
        ensures room { result ≡ self.now.room }
        ensures holds { HoldsRightly self.now.feeding.held self.now.room }
    {
        self.held.capacity()
    }

    /// Begins a new stream.
    pub fn reset(&mut self)
        ensures fresh { self.new.feeding ≡ fresh }
        ensures room { self.new.room ≤ idle_room }
    {
        let_go(&mut self.held);
        self.failed = false;
    }
}
