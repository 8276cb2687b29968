//! Batches that count together.

ghost use Rattle.std.specs.Prelude.{◌≡◌};
ghost use Rattle.raft_log_records.specs.Item.Change.{mark};
ghost use Rattle.raft_log_records.specs.Batch.{Logs};
ghost use Rattle.raft_log_records.specs.declared.item.AtomicGroupStatus.TheVariants.{Begin, Middle, End};

use crate::batch::LogBatch;
use crate::error::RecordError;
use crate::item::AtomicGroupStatus;

/// Marks the batches of one atomic group (raft-engine's `AtomicGroupBuilder`): the first by
/// `begin`, the last by `end`, others by `add`. A mark belongs to no Raft group and names group 0.
#[derive(Clone, Copy, PartialEq, Eq)]
pub struct AtomicGroupBuilder {
    pub id: u64,
}

impl AtomicGroupBuilder {
    /// The atomic group with this id.
    pub fn with_id(id: u64) -> AtomicGroupBuilder
        ensures { result.id ≡ id }
    {
        AtomicGroupBuilder { id }
    }

    /// Marks the first batch.
    pub fn begin(&self, batch: &mut LogBatch) -> Result<(), RecordError>
        ensures { Logs batch.old (record { group = 0; change = mark self.now.id Begin }) batch.new result }
    {
        batch.add_mark(0, self.id, AtomicGroupStatus::Begin)
    }

    /// Marks a batch that is neither the first nor the last.
    pub fn add(&self, batch: &mut LogBatch) -> Result<(), RecordError>
        ensures { Logs batch.old (record { group = 0; change = mark self.now.id Middle }) batch.new result }
    {
        batch.add_mark(0, self.id, AtomicGroupStatus::Middle)
    }

    /// Marks the last batch.
    pub fn end(&self, batch: &mut LogBatch) -> Result<(), RecordError>
        ensures { Logs batch.old (record { group = 0; change = mark self.now.id End }) batch.new result }
    {
        batch.add_mark(0, self.id, AtomicGroupStatus::End)
    }
}
