//! Values that can be tested.
ghost use Rattle.std.specs.Prelude.{◌≡◌, Option, None, Some, OnOk, IfErr};

use thiserror::Error;

/// What is wrong with a value that should keep its order (own; openraft answers a boxed text).
#[derive(Clone, Copy, Debug, PartialEq, Eq, Error)]
pub enum Invalid {
    /// The first log id isn't the last purged one, or isn't at 0 where nothing was purged.
    #[error("the log doesn't begin where it was purged")]
    FirstLogId,
    #[error("more was purged than is to be purged")]
    PurgedPastGoal,
    #[error("more is to be purged than the snapshot has")]
    PurgePastSnapshot,
    #[error("more is to be purged than is committed")]
    PurgePastCommitted,
    #[error("the snapshot has more than is committed")]
    SnapshotPastCommitted,
    #[error("more is committed than the log has")]
    CommittedPastLog,
    #[error("the committed membership is later than the one in force")]
    CommittedMembership,
    #[error("the range ends before it begins")]
    Range,
}

/// A value that can be tested (openraft).
pub trait Validate<E> {
    // What is wrong with it, if anything is.
    ghost fault: { Self → Option E };

    /// Whether nothing is wrong with it; else the first fault.
    fn validate(&self) -> Result<(), E>
        ensures ok { OnOk result (fault self.now ≡ None) }
        ensures err { IfErr result (λ e. fault self.now ≡ Some e) };
}
