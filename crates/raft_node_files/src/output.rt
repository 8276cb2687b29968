//! The answers of a node's script.

use crate::end::End;
use std::io::{Error, ErrorKind, Result, Write};

/// What the answer of an opening that was refused begins with.
const REFUSED: &[u8] = b"refused ";

/// The answers of a node's script, the first one that of its opening (own). Where that is a refusal
/// it is written, and no other one behind it.
#[derive(Drop)]
pub struct Answers<W: Write + Drop> {
    rt: HostRuntime,
    output: W,
    has_begun: bool,
    /// How the program ends, where no more can be written.
    pub end: Option<End>,
}

impl<W: Write + Drop> Answers<W> {
    /// Nothing is answered yet.
    pub fn new(rt: HostRuntime, output: W) -> Answers<W> {
        Answers {
            rt,
            output,
            has_begun: false,
            end: None,
        }
    }

    // The first answer may end the program.
    fn begin(&mut self, text: &[u8]) {
        if !self.has_begun {
            self.has_begun = true;
            if text.starts_with(REFUSED) {
                self.end = Some(End::Opening);
            }
        }
    }

    // An answer can't be written, unless the call was only interrupted.
    fn note(&mut self, why: &Error) {
        if why.kind() != ErrorKind::Interrupted {
            let _ = eprintln!(&self.rt; "raft: no answer can be written: {why}");
            self.end = Some(End::Output);
        }
    }
}

impl<W: Write + Drop> Write for Answers<W> {
    fn write(&mut self, text: &[u8]) -> Result<usize> {
        self.begin(text);
        match self.output.write(text) {
            Ok(count) => Ok(count),
            Err(why) => {
                self.note(&why);
                Err(why)
            }
        }
    }

    fn flush(&mut self) -> Result<()> {
        if let Err(why) = self.output.flush() {
            self.note(&why);
            return Err(why);
        }
        match self.end {
            None => Ok(()),
            Some(_) => Err(ErrorKind::NotConnected.into()),
        }
    }
}
