//! Moments.

use std::fmt::{Debug, Display};

/// A moment (openraft; here a tick that the caller hands in, since nothing reads a clock).
pub trait Instant: Copy + Ord + Debug + Display + Drop {}

impl Instant for u64 {}
