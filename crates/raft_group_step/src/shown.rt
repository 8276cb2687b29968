//! Printing of what may not be there.
use std::fmt::{self, Display};

// Prints what is there, or None.
#[derive(Clone, Copy)]
pub(crate) struct Shown<T>(pub(crate) Option<T>);

impl<T: Display> Display for Shown<T> {
    fn fmt<W: fmt::Write>(&self, f: &mut fmt::Formatter<W>) -> fmt::Result {
        match &self.0 {
            None => write!(f, "None"),
            Some(value) => write!(f, "{value}"),
        }
    }
}
