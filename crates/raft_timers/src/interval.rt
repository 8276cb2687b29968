//! What is due every so many ticks.
ghost use Rattle.std.specs.Prelude.{◌≡◌};
ghost use Rattle.raft_timers.specs.Interval.{interval_after, is_interval_over};

/// What is due every so many ticks (own), as the cleaning of a node's files.
#[derive(Clone, Copy, Debug, PartialEq, Eq)]
pub struct Interval {
    /// So many ticks.
    pub length: u64,
    /// The moment from which they are counted.
    pub from: u64,
}

impl Interval {
    /// It is due so many ticks after this moment for the first time.
    pub fn new(length: u64, now: u64) -> Interval
        ensures { result ≡ record { length = length; from = now } }
    {
        Interval { length, from: now }
    }

    /// Whether it is due, and then it is counted anew from this moment. Late calls make it late; it
    /// is never early. A clock that goes back counts as one that stands.
    pub fn tick(&mut self, now: u64) -> bool
        ensures due { result ≡ is_interval_over self.old now }
        ensures after { self.new ≡ interval_after self.old now }
    {
        let is_due = self.length <= now.saturating_sub(self.from);
        if is_due {
            self.from = now;
        }
        is_due
    }
}
