//! A script that is read in pieces.
ghost use Rattle.std.specs.Prelude.{◌≡◌, ◌∷◌, [], ◌+◌, ◌^◌, ◌<◌, ◌≢◌, ℕ, length, IfErr, OnOk};
ghost use Rattle.raft_script_session.specs.Reading.{first, IsOpen, WritesAndTakes, WritesAndStops, WritesAll, StopsAtEnd};
ghost use Rattle.raft_script_session.specs.Output.{RefusesLine, EndsLine, AnswersLine, StopsAt};

use crate::end::Stop;
use crate::output::write_out;
use crate::runner::LineRunner;
use raft_script_lines::LONGEST_LINE;
use std::alloc::Global;
use std::io::Write;
use std::marker::Model;
use std::thread::Threads;

const NEWLINE: u8 = b'\n';

/// How many lines have ended, and the bytes of the line that has not (own).
#[derive(Drop)]
pub struct Reading {
    alloc: Global,
    lines: u64,
    pending: Vec<u8>,
}

impl Model for Reading {
    ghost use Rattle.raft_script_session.specs.Reading.{ReadingValue};

    ghost Value = { ReadingValue };

    ghost view = { λ r. record { lines = r.lines; pending = r.pending.items } };
}

impl Reading {
    /// Before the first byte.
    pub fn new(alloc: Global) -> Reading
        ensures { result ≡ first }
    {
        Reading {
            alloc,
            lines: 0,
            pending: Vec::new(alloc),
        }
    }

    /// Runs the open line and writes its answer.
    fn end_line<S: LineRunner, W: Write, R: Threads + Sync>(
        &mut self,
        rt: &R,
        script: &mut S,
        writer: &mut W,
    ) -> Result<(), Stop>
        requires { self.old.lines < 2 ^ 63 }
        ensures ok { OnOk result (EndsLine S.runs (W.contents writer.old) (W.contents writer.new)
            script.old self.old script.new self.new) }
        ensures err { IfErr result (StopsAt S.runs (W.contents writer.old) (W.contents writer.new)
            script.old self.old.lines self.old.pending) }
    {
        answer_line(
            rt,
            self.alloc,
            script,
            self.lines + 1,
            self.pending.as_slice(),
            writer,
        )?;
        self.lines += 1;
        self.pending.clear();
        Ok(())
    }

    /// Takes in a byte that is no newline.
    fn keep<S: LineRunner, W: Write>(
        &mut self,
        script: &S,
        byte: u8,
        writer: &mut W,
    ) -> Result<(), Stop>
        requires other { byte ≢ NEWLINE }
        requires open_line { IsOpen self.old.pending }
        requires room { self.old.lines < 2 ^ 63 }
        ensures ok { OnOk result (WritesAndTakes S.runs (W.contents writer.old)
            (W.contents writer.new) script.now self.old (byte ∷ []) script.now self.new) }
        ensures err { IfErr result (WritesAndStops S.runs (W.contents writer.old)
            (W.contents writer.new) script.now self.old (byte ∷ [])) }
    {
        if self.pending.push(byte).is_err() {
            return Err(Stop::Memory);
        }
        if self.pending.len() > LONGEST_LINE {
            let number = self.lines + 1;
            return Err(refuse_line(self.alloc, number, writer));
        }
        Ok(())
    }

    /// Takes in a byte, and answers the line that it ends.
    fn take<S: LineRunner, W: Write, R: Threads + Sync>(
        &mut self,
        rt: &R,
        script: &mut S,
        byte: u8,
        writer: &mut W,
    ) -> Result<(), Stop>
        requires open_line { IsOpen self.old.pending }
        requires room { self.old.lines < 2 ^ 63 }
        ensures ok { OnOk result (WritesAndTakes S.runs (W.contents writer.old)
            (W.contents writer.new) script.old self.old (byte ∷ []) script.new self.new) }
        ensures err { IfErr result (WritesAndStops S.runs (W.contents writer.old)
            (W.contents writer.new) script.old self.old (byte ∷ [])) }
    {
        if byte == NEWLINE {
            self.end_line(rt, script, writer)
        } else {
            self.keep(script, byte, writer)
        }
    }

    /// Takes in bytes, and answers each line that they end.
    pub fn feed<S: LineRunner, W: Write, R: Threads + Sync>(
        &mut self,
        rt: &R,
        script: &mut S,
        piece: &[u8],
        writer: &mut W,
    ) -> Result<(), Stop>
        requires open_line { IsOpen self.old.pending }
        requires room { self.old.lines + length piece.now < 2 ^ 63 }
        ensures ok { OnOk result (WritesAndTakes S.runs (W.contents writer.old)
            (W.contents writer.new) script.old self.old piece.now script.new self.new) }
        ensures err { IfErr result (WritesAndStops S.runs (W.contents writer.old)
            (W.contents writer.new) script.old self.old piece.now) }
    {
        for byte in piece {
            self.take(rt, script, *byte, writer)?;
        }
        Ok(())
    }

    /// The input is at its end: what is open is a line, if it isn't empty.
    pub fn finish<S: LineRunner, W: Write, R: Threads + Sync>(
        &mut self,
        rt: &R,
        script: &mut S,
        writer: &mut W,
    ) -> Result<(), Stop>
        requires open_line { IsOpen self.old.pending }
        requires room { self.old.lines < 2 ^ 63 }
        ensures ok { OnOk result (WritesAll S.runs (W.contents writer.old)
            (W.contents writer.new) script.old self.old script.new) }
        ensures err { IfErr result (StopsAtEnd S.runs (W.contents writer.old)
            (W.contents writer.new) script.old self.old) }
    {
        if self.pending.is_empty() {
            return Ok(());
        }
        self.end_line(rt, script, writer)
    }
}

/// Runs the line with this number and writes its answer.
fn answer_line<S: LineRunner, W: Write, R: Threads + Sync>(
    rt: &R,
    alloc: Global,
    script: &mut S,
    number: u64,
    line: &[u8],
    writer: &mut W,
) -> Result<(), Stop>
    ensures ok { OnOk result (AnswersLine S.runs (W.contents writer.old) (W.contents writer.new)
        script.old line.now script.new) }
    ensures err { (count : ℕ) → number ≡ count + 1 → IfErr result (StopsAt S.runs
        (W.contents writer.old) (W.contents writer.new) script.old count line.now) }
{
    match script.run_line(rt, line) {
        Ok(Some(text)) => write_out(writer, text.as_bytes()),
        Ok(None) => Err(refuse_line(alloc, number, writer)),
        Err(_) => Err(Stop::Memory),
    }
}

/// Writes that the line with this number is no event, and answers how the script stops.
fn refuse_line<W: Write>(alloc: Global, number: u64, writer: &mut W) -> Stop
    ensures { RefusesLine number (W.contents writer.old) (W.contents writer.new) result }
{
    let Ok(text) = format!(in alloc; "line {number}\n") else {
        return Stop::Memory;
    };
    match write_out(writer, text.as_bytes()) {
        Ok(()) => Stop::NoEvent(number),
        Err(stop) => stop,
    }
}
