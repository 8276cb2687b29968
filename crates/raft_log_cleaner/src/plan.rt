//! What a cleaning of the append queue does with each group.

ghost use Rattle.std.specs.Prelude.{◌≡◌, ◌+◌, ◌<◌, ◌^◌, ◌++◌, ◌∷◌, ◌&&◌, [], ℕ, nat_eq, if◌then◌else◌, IfOk, IsTrue, OnOk};
ghost use Rattle.raft_log_cleaner.specs.Facts.{TellEntries};
ghost use Rattle.raft_log_cleaner.specs.Told.{AreTold, IsChosen};
ghost use Rattle.raft_log_memtables.specs.MemTables.{content_in};
ghost use Rattle.raft_log_purge.specs.Reports.{count_in};
ghost use Rattle.raft_log_traces.specs.GroupTraces.{traces_in};

use crate::facts::facts_of;
use raft_log_purge::{Choice, Reports, Watermarks, choice_of};
use raft_log_records::FileSeq;
use raft_log_traced::TracedTables;
use std::alloc::{AllocError, Global};

/// What is done with groups.
#[derive(Drop)]
pub(crate) struct Plan {
    /// These are told to compact.
    pub(crate) told: Vec<u64>,
    /// These get their marks, where they need some.
    pub(crate) marked: Vec<u64>,
    /// Of these is rewritten what lies up to the mark.
    pub(crate) rewritten: Vec<u64>,
    /// How many times in a row groups were told and left alone then.
    pub(crate) reports: Reports,
}

impl Plan {
    /// Nothing is done with a group.
    fn new(alloc: Global) -> Plan
        ensures told { result.told.items ≡ [] }
        ensures reports { (group : ℕ) → count_in result.reports group ≡ 0 }
    {
        Plan {
            told: Vec::new(alloc),
            marked: Vec::new(alloc),
            rewritten: Vec::new(alloc),
            reports: Reports::new(alloc),
        }
    }

    /// Does with one more group what is chosen, which was told and left alone so many times in a row.
    fn add(&mut self, group: u64, before: u32, choice: Choice) -> Result<(), AllocError>
        requires { IsTrue choice.is_left → before < 9 }
        ensures told { OnOk result (self.new.told.items ≡ (if choice.is_told then self.old.told.items ++ group ∷ [] else self.old.told.items)) }
        ensures reports { OnOk result ((other : ℕ) → count_in self.new.reports other ≡ (if choice.is_left && nat_eq group other then before + 1 else count_in self.old.reports other)) }
    {
        if choice.is_told {
            self.told.push(group)?;
        }
        if choice.is_left {
            self.reports.leave(group, before)?;
        }
        if choice.is_rewritten {
            self.rewritten.push(group)?;
        }
        Ok(())
    }
}

/// What is done with a group that was told and left alone so many times in a row.
fn choice_for(
    alloc: Global,
    log: &TracedTables,
    group: u64,
    marks: Watermarks,
    before: u32,
) -> Result<Choice, AllocError>
    requires entries { TellEntries (traces_in log.now.traces) (content_in log.now.tables) }
    requires mark { marks.rewrite + 1 < 2 ^ 64 }
    ensures { IfOk result (λ choice. IsChosen (content_in log.now.tables group) (traces_in log.now.traces group) marks before choice) }
{
    let facts = facts_of(alloc, log, group, marks.rewrite, before)?;
    Ok(choice_of(facts, marks))
}

/// What is done with each group that is there.
pub(crate) fn plan_of(
    alloc: Global,
    log: &TracedTables,
    reports: &Reports,
    marks: Watermarks,
) -> Result<Plan, AllocError>
    requires entries { TellEntries (traces_in log.now.traces) (content_in log.now.tables) }
    requires mark { marks.rewrite + 1 < 2 ^ 64 }
    ensures { IfOk result (λ plan. AreTold log.now marks reports.now plan.reports plan.told.items) }
{
    let groups = log.tables.groups()?;
    let mut plan = Plan::new(alloc);
    for group in &groups {
        let before = reports.count(*group);
        let choice = choice_for(alloc, log, *group, marks, before)?;
        plan.add(*group, before, choice)?;
    }
    Ok(plan)
}
