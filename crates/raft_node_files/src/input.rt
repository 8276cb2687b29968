//! The input of a node's script, without the lines that it doesn't take.
ghost use Rattle.std.specs.Prelude.{◌≤◌, length};

use crate::end::End;
use raft_node_script::{NodeLineError, read_node_line};
use raft_script_lines::{LONGEST_LINE, NoEvent};
use raft_script_machines::ScriptMachine;
use std::alloc::{AllocError, Global};
use std::io::{self, BufRead, BufReader, Error, ErrorKind, Read};
use std::marker::PhantomData;

/// A line has at most so many bytes, with its newline.
const MOST_BYTES: u64 = LONGEST_LINE as u64 + 1;

// Why the script of this node takes no such line; none where it takes it.
fn fault_of_line<M: ScriptMachine>(
    alloc: Global,
    id: u64,
    line: &[u8],
) -> Result<Option<NodeLineError>, AllocError> {
    match read_node_line::<M>(alloc, id, 0, 0, line) {
        Ok(_) => Ok(None),
        Err(NodeLineError::Memory) => Err(AllocError),
        Err(why) => Ok(Some(why)),
    }
}

/// The lines of the input that the script of a node with such machines takes, one at each read (own).
/// One that it doesn't take is told on standard error with its number, counted from 1. An empty line
/// stands in its place: the script counts it, and passes it over.
#[derive(Drop)]
pub struct KnownLines<M: ScriptMachine, R: Read + Drop> {
    rt: HostRuntime,
    id: u64,
    input: BufReader<R>,
    lines: u64,
    line: Vec<u8>,
    /// How many bytes of the line were handed out.
    given: usize,
    /// How the program ends, where no more can be read.
    pub end: Option<End>,
    of: PhantomData<M>,
}

impl<M: ScriptMachine, R: Read + Drop> KnownLines<M, R> {
    /// The input of the script of the node with this id. The only error is want of memory.
    pub fn new(rt: HostRuntime, id: u64, input: R) -> io::Result<KnownLines<M, R>> {
        Ok(KnownLines {
            rt,
            id,
            input: BufReader::new(rt.alloc(), input)?,
            lines: 0,
            line: Vec::new(rt.alloc()),
            given: 0,
            end: None,
            of: PhantomData,
        })
    }

    // The next line with its newline, or as much of a longer one as a line may have.
    fn read_piece(&mut self) -> io::Result<()> {
        self.line.clear();
        self.input
            .by_ref()
            .take(MOST_BYTES)
            .read_until(b'\n', &mut self.line)?;
        Ok(())
    }

    // Why the script doesn't take the line. Of one that is too long the rest is passed over.
    fn fault(&mut self) -> io::Result<Option<NodeLineError>> {
        if let Some(line) = self.line.as_slice().strip_suffix(b"\n") {
            return Ok(fault_of_line::<M>(self.rt.alloc(), self.id, line)?);
        }
        if self.line.len() > LONGEST_LINE {
            self.input.skip_until(b'\n')?;
            return Ok(Some(NodeLineError::NoEvent(NoEvent::TooLong)));
        }
        Ok(fault_of_line::<M>(self.rt.alloc(), self.id, self.line.as_slice())?)
    }

    // The next line that is handed out; without a byte at the end of the input.
    fn read_line(&mut self) -> io::Result<()> {
        self.given = 0;
        self.read_piece()?;
        if self.line.is_empty() {
            return Ok(());
        }
        self.lines = self.lines.saturating_add(1);
        if let Some(why) = self.fault()? {
            let number = self.lines;
            let _ = eprintln!(&self.rt; "raft: line {number} isn't understood: {why}");
            self.line.clear();
            self.line.push(b'\n')?;
        }
        Ok(())
    }

    // The bytes of the line that weren't handed out come next.
    fn hand_out(&mut self, buf: &mut [u8]) -> usize
        ensures { result ≤ length buf.new }
    {
        let Some(rest) = self.line.get(self.given..) else {
            return 0;
        };
        let count = rest.len().min(buf.len());
        buf[..count].copy_from_slice(&rest[..count]);
        self.given += count;
        count
    }

    // The input can't be read on.
    fn note(&mut self, why: &Error) {
        if why.kind() == ErrorKind::OutOfMemory {
            self.end = Some(End::Memory);
        } else {
            let _ = eprintln!(&self.rt; "raft: the input can't be read: {why}");
            self.end = Some(End::Input);
        }
    }
}

impl<M: ScriptMachine, R: Read + Drop> Read for KnownLines<M, R> {
    fn read(&mut self, buf: &mut [u8]) -> io::Result<usize> {
        if self.given >= self.line.len() {
            if let Err(why) = self.read_line() {
                self.note(&why);
                return Err(why);
            }
        }
        Ok(self.hand_out(buf))
    }
}
