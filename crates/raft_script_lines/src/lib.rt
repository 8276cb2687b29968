//! Lines of a script: what each says, or why it is no event.
#![tactic(auto)]

mod events;
mod id_list;
mod lists;
mod no_event;
mod reading;
mod script_line;
mod verb;
mod words;

pub use id_list::IdList;
pub use no_event::{NoEvent, ReadLineError};
pub use reading::{LONGEST_LINE, read_line};
pub use script_line::{CrashChoice, ScriptEvent, ScriptLine};
pub use words::{first_word, number_of};
