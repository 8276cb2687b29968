//! Scans of a group's keys.
ghost use Rattle.std.specs.Prelude.{◌≡◌, true, map, Err, IfErr, OnOk};
ghost use Rattle.std.specs.Fn.{CalledAtTwo};
ghost use Rattle.std.specs.Map.Iter.{deref_pair};
ghost use Rattle.std.specs.Option.{option_copied};
ghost use Rattle.raft_log_engine.specs.Left.{answers_on};
ghost use Rattle.raft_log_engine.specs.Reads.{IsTableFault};
ghost use Rattle.raft_log_engine.specs.Scanning.{CalledUntilFalse, CalledWith, IsMessage, Pair, ReadsUntilFalse};
ghost use Rattle.raft_log_engine.specs.declared.fault.EngineFault.TheVariants.{Stopped};
ghost use Rattle.raft_log_memtables.specs.Scan.{Scans};

use crate::engine::Engine;
use crate::fault::EngineFault;
use raft_log_files::FileSystem;
use raft_log_records::Message;
use std::alloc::{AllocError, Global};

/// Hands keys with their values to a callback, until it answers false.
fn visit<C: FnMut(&[u8], &[u8]) -> bool>(mut callback: C, pairs: &[(&[u8], &[u8])])
    requires { C.IsAlwaysCallable callback }
    ensures { (last : C) × CalledUntilFalse (λ f p r g. CalledAtTwo C.FnMut f p.0 p.1 r g) callback (map deref_pair pairs.now) last }
{
    for (key, value) in pairs {
        if !callback(key, value) {
            return;
        }
    }
}

/// Hands keys to a callback with the messages that their values are, until it answers false. Values
/// that are no message are passed over.
fn visit_messages<S: Message, C: FnMut(&[u8], S) -> bool>(
    alloc: Global,
    mut callback: C,
    pairs: &[(&[u8], &[u8])],
) -> Result<(), AllocError>
    requires { C.IsAlwaysCallable callback }
    ensures { OnOk result ((last : C) × ReadsUntilFalse (IsMessage S.fits S.bytes) (CalledWith C.FnMut) callback (map deref_pair pairs.now) last) }
{
    for (key, value) in pairs {
        let Some(message) = S::parse(alloc, value)? else {
            continue;
        };
        if !callback(key, message) {
            return Ok(());
        }
    }
    Ok(())
}

impl<F: FileSystem + Drop> Engine<F> {
    /// Hands the keys of a group to a callback, with their values, until it answers false
    /// (raft-engine's `scan_raw_messages`): from `start` on, up to `end`, which is left out; without
    /// a start from the least key on, and without an end to the greatest. They rise, or fall where
    /// `reverse` is asked for. Where memory runs out the callback isn't called.
    pub fn scan_raw_messages<C: FnMut(&[u8], &[u8]) -> bool>(
        &self,
        group: u64,
        start: Option<&[u8]>,
        end: Option<&[u8]>,
        reverse: bool,
        callback: C,
    ) -> Result<(), EngineFault>
        requires { C.IsAlwaysCallable callback }
        ensures called { OnOk result ((pairs : _) × Scans (answers_on F.disk self.now group).value (option_copied start.entry) (option_copied end.entry) reverse pairs
            × ((last : C) × CalledUntilFalse (λ f p r g. CalledAtTwo C.FnMut f p.0 p.1 r g) callback pairs last)) }
        ensures stopped { self.now.is_stopped ≡ true → result ≡ Err Stopped }
        ensures err { IfErr result (λ e. IsTableFault self.now.is_stopped e) }
    {
        if self.is_stopped {
            return Err(EngineFault::Stopped);
        }
        let pairs = self.traced.tables.scan(group, start, end, reverse)?;
        visit(callback, &pairs);
        Ok(())
    }

    /// The same with the messages that the values are (raft-engine's `scan_messages`). A value that
    /// is no message of the type is passed over. Memory may run out behind some calls.
    pub fn scan_messages<S: Message, C: FnMut(&[u8], S) -> bool>(
        &self,
        group: u64,
        start: Option<&[u8]>,
        end: Option<&[u8]>,
        reverse: bool,
        callback: C,
    ) -> Result<(), EngineFault>
        requires { C.IsAlwaysCallable callback }
        ensures called { OnOk result ((pairs : _) × Scans (answers_on F.disk self.now group).value (option_copied start.entry) (option_copied end.entry) reverse pairs
            × ((last : C) × ReadsUntilFalse (IsMessage S.fits S.bytes) (CalledWith C.FnMut) callback pairs last)) }
        ensures stopped { self.now.is_stopped ≡ true → result ≡ Err Stopped }
        ensures err { IfErr result (λ e. IsTableFault self.now.is_stopped e) }
    {
        if self.is_stopped {
            return Err(EngineFault::Stopped);
        }
        let pairs = self.traced.tables.scan(group, start, end, reverse)?;
        visit_messages(self.alloc, callback, &pairs)?;
        Ok(())
    }
}
