//! Traces as an opening makes them of the files it finds.

ghost use Rattle.std.specs.Prelude.{◌≡◌, ℕ, false, is_some, IfOk, OnOk, OnErr};
ghost use Rattle.std.specs.BTreeMap.{get, keys};
ghost use Rattle.std.specs.Ordering.{eq_by_cmp, nat_cmp};
ghost use Rattle.std.specs.Set.{is_member};
ghost use Rattle.raft_log_covers.specs.Kept.{new_trace, with_trace};
ghost use Rattle.raft_log_traces.specs.Alike.{AreAlike, IsAlike};
ghost use Rattle.raft_log_traces.specs.GroupTraces.{traces_in};
ghost use Rattle.raft_log_traces.specs.Opened.{trace_filed, trace_with_ends, trace_since, trace_tailed};
ghost use Rattle.raft_log_traces.specs.Traces.{trace_of, traces_at};

use crate::group_trace::{GroupTrace, earlier};
use crate::group_traces::{GroupTraces, TraceMap};
use crate::runs::put_from;
use raft_log_records::FileSeq;
use std::alloc::{AllocError, Global};

impl GroupTrace {
    /// The group's entries are these, of which none stands in an append file, and reached so far.
    fn set_ends(&mut self, low: u128, next: u128, top: u128)
        ensures { IsAlike (trace_with_ends low next top (trace_of self.old)) (trace_of self.new) }
    {
        self.low = low;
        self.next = next;
        self.top = top;
        self.floor = next;
        self.runs.clear();
    }

    /// From an index on the group's entries stand in a file.
    fn set_file(&mut self, first: u128, file: FileSeq) -> Result<(), AllocError>
        ensures ok { OnOk result (IsAlike (trace_filed first file (trace_of self.old)) (trace_of self.new)) }
        ensures err { OnErr result (IsAlike (trace_of self.old) (trace_of self.new)) }
    {
        put_from(&mut self.runs, first, file)?;
        self.floor = earlier(first, self.floor);
        Ok(())
    }

    /// What lies past the group's entries stands in this file, or in no append file.
    fn set_tail(&mut self, file: Option<FileSeq>)
        ensures { IsAlike (trace_tailed file (trace_of self.old)) (trace_of self.new) }
    {
        self.tail = file;
    }

    /// All that is no entry or key may have changed from a file on.
    fn set_since(&mut self, first: FileSeq)
        ensures { IsAlike (trace_since first (trace_of self.old)) (trace_of self.new) }
    {
        self.since = Some(first);
        self.tail = Some(first);
    }
}

fn set_ends(
    alloc: Global,
    traces: &mut TraceMap,
    raft_group_id: u64,
    low: u128,
    next: u128,
    top: u128,
) -> Result<(), AllocError>
    ensures { OnOk result (AreAlike (with_trace raft_group_id (trace_with_ends low next top (traces_at traces.old raft_group_id)) (traces_at traces.old)) (traces_at traces.new)) }
{
    if let Some(trace) = traces.get_mut(&raft_group_id) {
        trace.set_ends(low, next, top);
        return Ok(());
    }
    let mut trace = GroupTrace::new(alloc);
    trace.set_ends(low, next, top);
    traces.insert(raft_group_id, trace)?;
    Ok(())
}

fn set_file(
    alloc: Global,
    traces: &mut TraceMap,
    raft_group_id: u64,
    first: u128,
    file: FileSeq,
) -> Result<(), AllocError>
    ensures { OnOk result (AreAlike (with_trace raft_group_id (trace_filed first file (traces_at traces.old raft_group_id)) (traces_at traces.old)) (traces_at traces.new)) }
{
    if let Some(trace) = traces.get_mut(&raft_group_id) {
        return trace.set_file(first, file);
    }
    let mut trace = GroupTrace::new(alloc);
    trace.set_file(first, file)?;
    traces.insert(raft_group_id, trace)?;
    Ok(())
}

fn set_tail(
    alloc: Global,
    traces: &mut TraceMap,
    raft_group_id: u64,
    file: Option<FileSeq>,
) -> Result<(), AllocError>
    ensures { OnOk result (AreAlike (with_trace raft_group_id (trace_tailed file (traces_at traces.old raft_group_id)) (traces_at traces.old)) (traces_at traces.new)) }
{
    if let Some(trace) = traces.get_mut(&raft_group_id) {
        trace.set_tail(file);
        return Ok(());
    }
    let mut trace = GroupTrace::new(alloc);
    trace.set_tail(file);
    traces.insert(raft_group_id, trace)?;
    Ok(())
}

fn set_since(
    alloc: Global,
    traces: &mut TraceMap,
    raft_group_id: u64,
    first: FileSeq,
) -> Result<(), AllocError>
    ensures { OnOk result (AreAlike (with_trace raft_group_id (trace_since first (traces_at traces.old raft_group_id)) (traces_at traces.old)) (traces_at traces.new)) }
{
    if let Some(trace) = traces.get_mut(&raft_group_id) {
        trace.set_since(first);
        return Ok(());
    }
    let mut trace = GroupTrace::new(alloc);
    trace.set_since(first);
    traces.insert(raft_group_id, trace)?;
    Ok(())
}

/// The groups in a map.
fn ids_of(alloc: Global, traces: &TraceMap) -> Result<Vec<u64>, AllocError>
    ensures ids { IfOk result (λ ids. ids.items ≡ keys traces.now) }
    ensures exactly { (group : ℕ) → is_some (get nat_cmp traces.now group) ≡ is_member (eq_by_cmp nat_cmp) (keys traces.now) group }
{
    traces.keys().copied().collect(alloc)
}

impl GroupTraces {
    /// The entries of a group are, after an opening, those from an index on up to before another one,
    /// and reached up to before a third one. None of them stands in an append file, as far as
    /// `set_file` says nothing else. After an `Err`, for want of memory, the traces are given up.
    #[tactic(auto, unfolding(crate::specs::GroupTraces::traces_in))]
    pub fn set_ends(
        &mut self,
        raft_group_id: u64,
        low: u128,
        next: u128,
        top: u128,
    ) -> Result<(), AllocError>
        ensures { OnOk result (AreAlike (with_trace raft_group_id (trace_with_ends low next top (traces_in self.old raft_group_id)) (traces_in self.old)) (traces_in self.new)) }
    {
        set_ends(self.alloc, &mut self.traces, raft_group_id, low, next, top)
    }

    /// From an index on the entries of a group, whose ends were set, stand in an append file. After an
    /// `Err`, for want of memory, the traces are given up.
    #[tactic(auto, unfolding(crate::specs::GroupTraces::traces_in))]
    pub fn set_file(
        &mut self,
        raft_group_id: u64,
        first: u128,
        file: FileSeq,
    ) -> Result<(), AllocError>
        ensures { OnOk result (AreAlike (with_trace raft_group_id (trace_filed first file (traces_in self.old raft_group_id)) (traces_in self.old)) (traces_in self.new)) }
    {
        set_file(self.alloc, &mut self.traces, raft_group_id, first, file)
    }

    /// What lies past the entries of a group, whose ends were set, stands in an append file, or in none.
    /// After an `Err`, for want of memory, the traces are given up.
    #[tactic(auto, unfolding(crate::specs::GroupTraces::traces_in))]
    pub fn set_tail(&mut self, raft_group_id: u64, file: Option<FileSeq>) -> Result<(), AllocError>
        ensures { OnOk result (AreAlike (with_trace raft_group_id (trace_tailed file (traces_in self.old raft_group_id)) (traces_in self.old)) (traces_in self.new)) }
    {
        set_tail(self.alloc, &mut self.traces, raft_group_id, file)
    }

    /// What was removed from a group, or changed in it, may have been so from an append file on. After
    /// an `Err`, for want of memory, the traces are given up.
    #[tactic(auto, unfolding(crate::specs::GroupTraces::traces_in))]
    pub fn set_since(&mut self, raft_group_id: u64, first: FileSeq) -> Result<(), AllocError>
        ensures { OnOk result (AreAlike (with_trace raft_group_id (trace_since first (traces_in self.old raft_group_id)) (traces_in self.old)) (traces_in self.new)) }
    {
        set_since(self.alloc, &mut self.traces, raft_group_id, first)
    }

    /// The groups of which something is kept, rising. Of each other one nothing is.
    #[tactic(auto, unfolding(crate::specs::GroupTraces::traces_in))]
    pub fn groups(&self) -> Result<Vec<u64>, AllocError>
        ensures { IfOk result (λ ids. (group : ℕ) → is_member (eq_by_cmp nat_cmp) ids.items group ≡ false → traces_in self.now group ≡ new_trace) }
    {
        ids_of(self.alloc, &self.traces)
    }
}
