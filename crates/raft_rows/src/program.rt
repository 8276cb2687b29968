//! A program that answers rows.

use crate::answer::Answer;
use std::alloc::Global;
use std::io;

/// Calls that rows name.
pub trait Rows {
    /// Makes the call that the words name and answers what it told, or nothing where no row has
    /// these words. `NoMemory` says that no call was made.
    fn answer(&mut self, alloc: Global, words: &[&str]) -> Option<Answer>;
}

fn answer(rows: &mut impl Rows, alloc: Global, row: &str) -> Answer {
    let words: Result<Vec<&str>, _> = row.split_whitespace().collect(alloc);
    match words {
        Ok(words) => rows
            .answer(alloc, &words)
            .unwrap_or(Answer::Word("no such row")),
        Err(_) => Answer::NoMemory,
    }
}

/// Asks once more where there was no memory to ask.
fn answer_at_last(rows: &mut impl Rows, alloc: Global, row: &str) -> Answer {
    match answer(rows, alloc, row) {
        Answer::NoMemory => answer(rows, alloc, row),
        told => told,
    }
}

/// Prints each line of standard input with its answer behind `->`; an empty one and one that
/// begins with `#` as they are.
pub fn run(rt: &(impl Input + Print + AllocGlobal), rows: &mut impl Rows) -> io::Result<()> {
    let alloc = rt.alloc();
    for line in rt.lines(alloc) {
        let line = line?;
        let row = line.as_str();
        if row.is_empty() || row.starts_with('#') {
            println!(rt; "{row}")?;
        } else {
            answer_at_last(rows, alloc, row).print(rt, row)?;
        }
    }
    Ok(())
}
