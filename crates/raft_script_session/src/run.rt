//! Runs a script from a reader to a writer.
ghost use Rattle.std.specs.Prelude.{◌≡◌, ◌<◌, ◌≤◌, length, IfSome, IfErr, OnOk};
ghost use Rattle.raft_script_session.specs.End.{end_of};
ghost use Rattle.raft_script_session.specs.Reading.{first};
ghost use Rattle.raft_script_session.specs.Run.{Answers, WritesText, StopsIn};

use crate::end::{ScriptEnd, Stop};
use crate::reading::Reading;
use crate::runner::LineRunner;
use std::alloc::Global;
use std::io::{ErrorKind, Read, Write};
use std::thread::Threads;

/// The most bytes of one read.
const READ_BYTES: usize = 65_536;

/// An input that doesn't end within so many reads is given up.
const MOST_READS: u64 = 1 << 40;

/// Runs the lines that the reader gives, and writes their answers: each line's before the next read
/// waits (own). A read that was interrupted is tried again, and so is a write.
pub fn run_lines<S: LineRunner, R: Read, W: Write, T: Threads + Sync>(
    rt: &T,
    alloc: Global,
    script: &mut S,
    reader: &mut R,
    writer: &mut W,
) -> ScriptEnd
    ensures { IfSome (R.remaining reader.old) (λ input. Answers S.runs script.old input
        (W.contents writer.old) (W.contents writer.new) script.new result) }
{
    end_of(read_lines(rt, alloc, script, reader, writer))
}

fn end_of(run: Result<(), Stop>) -> ScriptEnd
    ensures { result ≡ end_of run }
{
    match run {
        Ok(()) => ScriptEnd::Done,
        Err(Stop::NoEvent(number)) => ScriptEnd::NoEvent(number),
        Err(Stop::Memory) => ScriptEnd::Memory,
        Err(Stop::Fault) => ScriptEnd::Fault,
    }
}

/// Makes room for a read, and runs the script.
fn read_lines<S: LineRunner, R: Read, W: Write, T: Threads + Sync>(
    rt: &T,
    alloc: Global,
    script: &mut S,
    reader: &mut R,
    writer: &mut W,
) -> Result<(), Stop>
    ensures ok { OnOk result (IfSome (R.remaining reader.old) (λ input. WritesText S.runs script.old
        input (W.contents writer.old) (W.contents writer.new) script.new)) }
    ensures err { IfErr result (λ stop. IfSome (R.remaining reader.old) (λ input. StopsIn S.runs
        script.old input (W.contents writer.old) (W.contents writer.new) stop)) }
{
    let Ok(mut buffer) = vec![in alloc; 0u8; READ_BYTES] else {
        return Err(Stop::Memory);
    };
    let mut reading = Reading::new(alloc);
    read_all(rt, script, &mut reading, &mut buffer, reader, writer)
}

/// Reads to the end of the input, and runs its lines.
fn read_all<S: LineRunner, R: Read, W: Write, T: Threads + Sync>(
    rt: &T,
    script: &mut S,
    reading: &mut Reading,
    buffer: &mut [u8],
    reader: &mut R,
    writer: &mut W,
) -> Result<(), Stop>
    requires first { reading.old ≡ first }
    requires nonempty { 0 < length buffer.old }
    requires small { length buffer.old ≤ READ_BYTES }
    ensures ok { OnOk result (IfSome (R.remaining reader.old) (λ input. WritesText S.runs script.old
        input (W.contents writer.old) (W.contents writer.new) script.new)) }
    ensures err { IfErr result (λ stop. IfSome (R.remaining reader.old) (λ input. StopsIn S.runs
        script.old input (W.contents writer.old) (W.contents writer.new) stop)) }
{
    for _ in 0..MOST_READS {
        match reader.read(buffer) {
            Ok(0) => return reading.finish(rt, script, writer),
            Ok(n) => reading.feed(rt, script, &buffer[..n], writer)?,
            Err(e) => {
                if e.kind() != ErrorKind::Interrupted {
                    return Err(Stop::Fault);
                }
            }
        }
    }
    Err(Stop::Fault)
}
