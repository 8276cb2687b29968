//! Writes answers, whole or a front of them.
ghost use Rattle.std.specs.Prelude.{◌≡◌, OnOk, IfErr};
ghost use Rattle.std.specs.Io.KnownBytes.{Appends};
ghost use Rattle.raft_script_session.specs.Lines.{AppendsFront};

use crate::end::Stop;
use std::io::{ErrorKind, Write};

/// Writes the text, and flushes it so that it is out before the next read waits. An `Err` is
/// `Fault`, and leaves a front of the text written.
pub fn write_out<W: Write>(writer: &mut W, text: &[u8]) -> Result<(), Stop>
    ensures ok { OnOk result (Appends (W.contents writer.old) (W.contents writer.new) text.now) }
    ensures fault { IfErr result (λ stop. stop ≡ Stop.Fault) }
    ensures err { IfErr result (λ _. AppendsFront (W.contents writer.old)
        (W.contents writer.new) text.now) }
{
    write_bytes(writer, text)?;
    match writer.flush() {
        Ok(()) => Ok(()),
        Err(_) => Err(Stop::Fault),
    }
}

/// Writes the text. A writer that was interrupted is asked again.
fn write_bytes<W: Write>(writer: &mut W, text: &[u8]) -> Result<(), Stop>
    ensures ok { OnOk result (Appends (W.contents writer.old) (W.contents writer.new) text.now) }
    ensures fault { IfErr result (λ stop. stop ≡ Stop.Fault) }
    ensures err { IfErr result (λ _. AppendsFront (W.contents writer.old)
        (W.contents writer.new) text.now) }
{
    let mut rest = text;
    for _ in 0..u64::MAX {
        if rest.is_empty() {
            return Ok(());
        }
        match writer.write(rest) {
            Ok(0) => return Err(Stop::Fault),
            Ok(n) => rest = &rest[n..],
            Err(e) => {
                if e.kind() != ErrorKind::Interrupted {
                    return Err(Stop::Fault);
                }
            }
        }
    }
    Err(Stop::Fault)
}
