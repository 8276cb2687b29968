//! What an engine's queue of commands asks, done in its order: what is stored, and what is sent; and
//! snapshots and answers of peers, as an engine takes them.
#![tactic(auto)]

pub mod message;
pub mod metas;
pub mod replies;
pub mod sending;
pub mod sending_times;
pub mod storing;

pub use message::{GroupBody, GroupMessage};
pub use metas::{meta_of, stored_meta};
pub use replies::{caller_and_answer, caller_id};
pub use sending::{Sender, messages, sent};
pub use sending_times::SendingTimes;
pub use storing::{store, store_first};
