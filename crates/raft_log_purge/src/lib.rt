//! Cleaning of the log: whether a queue is to be cleaned, up to which files, and what is done with
//! each group.
#![tactic(auto)]

mod anew;
mod choice;
mod due;
mod going;
mod laws;
mod listener;
mod marking;
mod reports;
mod rewriting;
mod together;
mod watermarks;

pub use anew::{groups_anew_leave_queues, old_rewrites_leave_queues, stored_groups_are_anew};
pub use choice::{Choice, GroupFacts, choice_of};
pub use due::{QueueFiles, RewriteCounts, Rewritten, files_of, has_garbage, is_large};
pub use going::{first_kept, let_go};
pub use laws::{cleaning_steps_keep_queues, worked_marks};
pub use listener::{EventListener, PurgeHook, least_kept, tell_gone, tell_new_file};
pub use marking::{mark_anyway, mark_group, mark_groups};
pub use reports::Reports;
pub use rewriting::{rewrite_entries, rewrite_key};
pub use together::{Together, records_seen_otherwise_stand_together};
pub use watermarks::{Watermarks, mark_at, watermarks_of};
