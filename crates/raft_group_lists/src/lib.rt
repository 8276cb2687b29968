//! The list of a group, kept as it grows: what its leaders wrote, who accepted what, and what is settled of it.
#![tactic(auto)]

mod group_list;
mod judge;
mod leads;
mod messages;
mod notes;
mod room;
mod settle;
mod walks;

pub use group_list::GroupList;
pub use messages::messages_accept_under_one_vote;
pub use notes::{Lead, Noted, Reached};
