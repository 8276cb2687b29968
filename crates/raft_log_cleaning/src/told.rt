//! Groups that are told to compact.

ghost use Rattle.std.specs.BTreeMap.{keys};
ghost use Rattle.std.specs.List.Sorted.{IsStrictlySortedBy};
ghost use Rattle.std.specs.Ordering.{eq_by_cmp, nat_cmp};
ghost use Rattle.std.specs.Prelude.{◌≡◌, ◌||◌, ℕ, IfOk, OnOk, false, if◌then◌else◌, nat_eq, true};
ghost use Rattle.std.specs.Set.{is_member};
ghost use Rattle.raft_log_cleaner.specs.Facts.{TellEntries};
ghost use Rattle.raft_log_cleaner.specs.Told.{is_among};
ghost use Rattle.raft_log_cleaning.specs.Told.{AreMany, IsToldOfMany, is_named};
ghost use Rattle.raft_log_memtables.specs.MemTables.{content_in};
ghost use Rattle.raft_log_traces.specs.GroupTraces.{traces_in};

use raft_log_cleaner::rewritten_of;
use raft_log_rewriter::has_many_rewritten;
use raft_log_traced::TracedTables;
use std::alloc::{AllocError, Global};
use std::collections::BTreeMap;

/// Groups, by their ids.
pub(crate) type Named = BTreeMap<u64, bool>;

/// Names one more group.
fn name(named: &mut Named, group: u64) -> Result<(), AllocError>
    ensures { OnOk result ((other : ℕ) → is_named named.new other ≡ (if nat_eq group other then true else is_named named.old other)) }
{
    named.insert(group, true)?;
    Ok(())
}

/// Names a group, if it has so many entries in the rewrite queue that it is told as that is written anew.
fn name_if_many(named: &mut Named, log: &TracedTables, group: u64) -> Result<(), AllocError>
    requires { TellEntries (traces_in log.now.traces) (content_in log.now.tables) }
    ensures others { OnOk result ((other : ℕ) → nat_eq group other ≡ false → is_named named.new other ≡ is_named named.old other) }
    ensures own { OnOk result (is_named named.old group ≡ false → IsToldOfMany (content_in log.now.tables group) (is_named named.new group)) }
{
    let rewritten = rewritten_of(log, group);
    if !has_many_rewritten(rewritten) {
        return Ok(());
    }
    name(named, group)?;
    Ok(())
}

/// The groups with so many entries in the rewrite queue that they are told as it is written anew.
pub(crate) fn many_rewritten(alloc: Global, log: &TracedTables) -> Result<Named, AllocError>
    requires { TellEntries (traces_in log.now.traces) (content_in log.now.tables) }
    ensures { IfOk result (λ many. AreMany log.now (is_named many)) }
{
    let groups = log.tables.groups()?;
    let mut many = BTreeMap::new(alloc);
    for group in &groups {
        name_if_many(&mut many, log, *group)?;
    }
    Ok(many)
}

/// Names more groups.
pub(crate) fn name_all(named: &mut Named, groups: &[u64]) -> Result<(), AllocError>
    ensures { OnOk result ((group : ℕ) → is_named named.new group ≡ (is_named named.old group || is_among groups.now group)) }
{
    for group in groups {
        name(named, *group)?;
    }
    Ok(())
}

/// The groups that are named, rising, each once.
pub(crate) fn groups_of(alloc: Global, named: &Named) -> Result<Vec<u64>, AllocError>
    ensures groups { IfOk result (λ groups. groups.items ≡ keys named.now) }
    ensures rising { IsStrictlySortedBy nat_cmp (keys named.now) }
    ensures exactly { (group : ℕ) → is_named named.now group ≡ is_member (eq_by_cmp nat_cmp) (keys named.now) group }
{
    named.keys().copied().collect(alloc)
}
