//! Rows of text that name calls, for programs that print what each call answers. Their files
//! `stdin` and `stdout` are a table of tests, and a row more costs no proof.
//!
//! Nothing here has a contract: what a program prints is compared with its `stdout`, which is
//! written from outside. `stdin` is `stdout` without the answers.
#![tactic(auto)]

mod answer;
mod program;
mod words;

pub use answer::Answer;
pub use program::{Rows, run};
pub use words::{bytes, number};
