//! The text of what a line of a script is answered.
#![tactic(auto)]

mod answer;
mod numbers;
mod refusal;
mod shown;
mod told;

pub use answer::{done_text, refused_text, stopped_text, total_text};
pub use refusal::Refusal;
pub use shown::{AppliedTotal, SentNumber};
pub use told::{push_full, push_total, push_value};
