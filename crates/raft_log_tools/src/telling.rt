//! Which of two queues answers for a group.

ghost use Rattle.std.specs.Prelude.{◌≡◌, ◌==◌, ℕ, Option, Some, IfOk, OnOk, if◌then◌else◌};
ghost use Rattle.std.specs.BTreeMap.{get};
ghost use Rattle.std.specs.Option.{option_or};
ghost use Rattle.std.specs.Ordering.{nat_cmp};
ghost use Rattle.raft_log_tools.specs.Checking.{AreTold};

use std::alloc::{AllocError, Global};
use std::collections::BTreeMap;

/// Puts an index in the place of what was told of a group before.
fn put(told: &mut BTreeMap<u64, u64>, group: u64, index: u64) -> Result<(), AllocError>
    ensures { OnOk result ((n : ℕ) → get nat_cmp told.new n ≡ (if group == n then Some index else get nat_cmp told.old n)) }
{
    told.insert(group, index)?;
    Ok(())
}

/// Puts what is told of groups in the place of what was told of them before.
fn put_all(told: &mut BTreeMap<u64, u64>, holes: &[(u64, u64)]) -> Result<(), AllocError>
    ensures { OnOk result ((of : ℕ → Option ℕ) → AreTold of holes.now → (group : ℕ) → get nat_cmp told.new group ≡ option_or (of group) (get nat_cmp told.old group)) }
{
    for (group, index) in holes {
        put(told, *group, *index)?;
    }
    Ok(())
}

/// What is told of groups, rising.
fn all_told(alloc: Global, told: BTreeMap<u64, u64>) -> Result<Vec<(u64, u64)>, AllocError>
    ensures { IfOk result (λ holes. AreTold (λ group. get nat_cmp told group) holes.items) }
{
    let mut holes = Vec::new(alloc);
    for (group, index) in told {
        holes.push((group, index))?;
    }
    Ok(holes)
}

/// What two queues tell of groups: where both tell of one, the first counts.
pub(crate) fn told_by_both(
    alloc: Global,
    first: &[(u64, u64)],
    second: &[(u64, u64)],
) -> Result<Vec<(u64, u64)>, AllocError>
    ensures { IfOk result (λ holes. (by_first : ℕ → Option ℕ) (by_second : ℕ → Option ℕ) → AreTold by_first first.now → AreTold by_second second.now
        → AreTold (λ group. option_or (by_first group) (by_second group)) holes.items) }
{
    let mut told = BTreeMap::new(alloc);
    put_all(&mut told, second)?;
    put_all(&mut told, first)?;
    all_told(alloc, told)
}
