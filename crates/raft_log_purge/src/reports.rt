//! How many times in a row groups were told to compact and left alone.

ghost use Rattle.std.specs.Prelude.{◌≡◌, ◌<◌, ◌+◌, ℕ, OnOk, if◌then◌else◌, nat_eq};
ghost use Rattle.raft_log_purge.specs.Reports.{count_in};

use std::alloc::{AllocError, Global};
use std::collections::BTreeMap;

/// The groups that the last cleaning of the append queue told to compact and left alone, and how many
/// times in a row that was (raft-engine's `force_rewrite_candidates`).
#[derive(Drop)]
pub struct Reports {
    pub(crate) counts: BTreeMap<u64, u32>,
}

impl Reports {
    /// No group was told.
    #[tactic(auto, unfolding(crate::specs::Reports::count_in))]
    pub fn new(alloc: Global) -> Reports
        ensures { (group : ℕ) → count_in result group ≡ 0 }
    {
        Reports {
            counts: BTreeMap::new(alloc),
        }
    }

    /// How many times in a row a group was told and left alone.
    #[tactic(auto, unfolding(crate::specs::Reports::count_in))]
    pub fn count(&self, group: u64) -> u32
        ensures { result ≡ count_in self.now group }
    {
        self.counts.get(&group).copied().unwrap_or(0)
    }

    /// A group that was told so many times before is told and left alone once more. The only error
    /// is want of memory.
    #[tactic(auto, unfolding(crate::specs::Reports::count_in))]
    pub fn leave(&mut self, group: u64, before: u32) -> Result<(), AllocError>
        requires { before < 9 }
        ensures { OnOk result ((other : ℕ) → count_in self.new other ≡ (if nat_eq group other then before + 1 else count_in self.old other)) }
    {
        self.counts.insert(group, before + 1)?;
        Ok(())
    }
}
