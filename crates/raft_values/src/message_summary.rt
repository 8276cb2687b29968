//! Short texts for messages.

use std::alloc::{AllocError, Global};
use std::fmt::Display;

/// A short text that tells a value in a log line (openraft).
pub trait MessageSummary<M> {
    /// The text.
    fn summary(&self, alloc: Global) -> Result<String, AllocError>;
}

impl<T: Display> MessageSummary<T> for T {
    fn summary(&self, alloc: Global) -> Result<String, AllocError> {
        self.to_string(alloc)
    }
}
