//! The list of a group behind one event after another.
ghost use Rattle.std.specs.Prelude.{List, ℕ, IfOk};
ghost use Rattle.raft_laws.specs.GroupWorld.{GroupWorld, Recorded, new_world};
ghost use Rattle.raft_list_steps.specs.Lists.{IsListOf};
ghost use Rattle.raft_list_steps.specs.Reports.{AreReportsOf};

use crate::hearing::hear;
use crate::report::GroupReport;
use raft_group_lists::GroupList;
use std::alloc::{AllocError, Global};

/// The list of a group behind these events, from nodes that know of no group. An `Err` is want of memory before one of them.
pub fn list_behind(alloc: Global, reports: Vec<GroupReport>) -> Result<GroupList, AllocError>
    ensures { IfOk result (λ list. (ids : List ℕ) (rs : List Recorded) (end : GroupWorld)
        → AreReportsOf ids reports.items (new_world ids) rs end → IsListOf list.notes end) }
{
    let mut list = GroupList::new(alloc);
    for report in reports {
        list.make_room(2)?;
        hear(&mut list, report);
    }
    Ok(list)
}
