//! Values with the moment of their last change.
ghost use Rattle.std.specs.Prelude.{◌≡◌};

use crate::instant::Instant;
use std::fmt::{self, Display};

/// A value, and the moment of its last change, if it is known (openraft; moments are handed in).
#[derive(Clone, Copy, Debug, Drop, PartialEq, Eq)]
pub struct UTime<T, I> {
    value: T,
    utime: Option<I>,
}

impl<T, I: Instant> UTime<T, I> {
    /// The value, changed at this moment.
    pub fn new(now: I, value: T) -> UTime<T, I>
        ensures { result ≡ record { value = value; utime = Some now } }
    {
        UTime {
            value,
            utime: Some(now),
        }
    }

    /// The value, of whose change the moment isn't known.
    pub fn without_utime(value: T) -> UTime<T, I>
        ensures { result ≡ record { value = value; utime = None } }
    {
        UTime { value, utime: None }
    }

    /// The value, lent.
    pub fn get(&self) -> &T
        ensures { result.now ≡ self.now.value }
    {
        &self.value
    }

    /// The moment of the last change.
    pub fn utime(&self) -> Option<I>
        ensures { result ≡ self.now.utime }
    {
        self.utime
    }

    /// Changes the value at this moment.
    pub fn update(&mut self, now: I, value: T)
    where
        T: Drop,
        ensures { self.new ≡ record { value = value; utime = Some now } }
    {
        self.value = value;
        self.utime = Some(now);
    }

    /// Notes this moment and leaves the value.
    pub fn touch(&mut self, now: I)
        ensures { self.new ≡ record self.old { utime = Some now } }
    {
        self.utime = Some(now);
    }

    /// The value alone.
    pub fn into_inner(self) -> T
        ensures { result ≡ self.value }
    {
        let UTime { value, utime: _ } = self;
        value
    }
}

impl<T: Display, I: Instant> Display for UTime<T, I> {
    fn fmt<W: fmt::Write>(&self, f: &mut fmt::Formatter<W>) -> fmt::Result {
        let value = &self.value;
        match self.utime {
            None => write!(f, "{value}"),
            Some(utime) => write!(f, "{value}@{utime}"),
        }
    }
}
