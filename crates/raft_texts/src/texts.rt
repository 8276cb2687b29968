//! The texts of a type's values.

use std::fmt::Display;
use std::io;

/// Prints the type's name, and a line for each value.
pub fn print_texts<T: Display>(rt: &impl Print, name: &str, values: &[T]) -> io::Result<()> {
    println!(rt; "{name}")?;
    for value in values {
        println!(rt; "- {value}")?;
    }
    Ok(())
}
