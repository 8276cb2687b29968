//! Ranges of log ids.
ghost use Rattle.std.specs.Prelude.{◌≡◌, ◌+◌, ◌-◌, ◌<◌, ◌≤◌, ◌^◌};
ghost use Rattle.raft_values.specs.LogId.{is_past, next_place};
ghost use Rattle.raft_values.specs.Range.{range_fault};

use crate::log_id::LogId;
use crate::log_id_option_ext::{LogIdOptionExt, is_past};
use crate::node::NodeId;
use crate::validate::{Invalid, Validate};
use std::fmt::{self, Display};

/// The log ids behind `prev` up to `last` (openraft).
#[derive(Clone, Copy, Debug, PartialEq, Eq)]
pub struct LogIdRange<NID> {
    pub prev: Option<LogId<NID>>,
    pub last: Option<LogId<NID>>,
}

impl<NID: NodeId> LogIdRange<NID> {
    /// The log ids behind `prev` up to `last`.
    pub fn new(prev: Option<LogId<NID>>, last: Option<LogId<NID>>) -> LogIdRange<NID>
        ensures { result ≡ record { prev = prev; last = last } }
    {
        LogIdRange { prev, last }
    }

    /// How many places the range has.
    pub fn len(&self) -> u64
        requires fits { next_place self.now.last < 2 ^ 64 }
        requires order { next_place self.now.prev ≤ next_place self.now.last }
        ensures { result + next_place self.now.prev ≡ next_place self.now.last }
    {
        self.last.next_index() - self.prev.next_index()
    }
}

impl<NID: NodeId> Validate<Invalid> for LogIdRange<NID> {
    ghost fault = { range_fault NID.cmp };

    fn validate(&self) -> Result<(), Invalid> {
        if is_past(&self.prev, &self.last) {
            return Err(Invalid::Range);
        }
        Ok(())
    }
}

impl<NID: NodeId> Display for LogIdRange<NID> {
    fn fmt<W: fmt::Write>(&self, f: &mut fmt::Formatter<W>) -> fmt::Result {
        match self.prev {
            None => write!(f, "(None, ")?,
            Some(prev) => write!(f, "({prev}, ")?,
        }
        match self.last {
            None => write!(f, "None]"),
            Some(last) => write!(f, "{last}]"),
        }
    }
}
