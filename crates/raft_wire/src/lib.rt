//! The bytes of stored entries, of the frames between nodes, and of a key-value machine's commands.
#![tactic(auto)]

mod entries;
mod error;
mod feeder;
mod fields;
mod frame;
mod kv;
mod laws;
mod memberships;
mod reading;
mod snapshots;
mod stored;
mod writing;

pub use entries::{read_entry, write_entry};
pub use error::{FrameError, FrameFault};
pub use feeder::{Fed, Feeder, MAX_FRAME_LEN, MAX_IDLE_ROOM, MIN_FRAME_LEN};
pub use fields::{count_of, filled_of, put_count, put_text};
pub use frame::{Frame, FrameKind};
pub use kv::{KvCommand, MAX_KEY_BYTES, MAX_VALUE_BYTES, read_kv, write_kv};
pub use laws::{
    cuts_do_not_matter, feeders_wait_only_so_long, found_frames_are_spelled_so, found_stays,
    frames_are_short, no_spelling_begins_another, refused_streams_begin_no_frame,
    spelled_frames_are_found,
};
pub use raft_group_step::SnapshotMeta;
pub use snapshots::{read_snapshot_body, write_snapshot_body};
pub use stored::{read_log_id, read_place, read_vote, write_log_id, write_place, write_vote};
pub use writing::write_frame;
