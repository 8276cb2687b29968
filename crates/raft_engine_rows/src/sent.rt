//! How messages, commands and what comes of them are told.

use crate::engines::{Numbered, text};
use crate::events::{outcome, request};
use crate::texts::each;
use raft_commands::{
    ClientWriteResponse, Data, Replicate, ReplicationResult, ReplicationSessionId, Response,
};
use raft_group_step::{
    InstallSnapshotRequest, LoggedMembership, RequestId, SnapshotMeta, VoteRequest, VoteResponse,
};
use raft_row_values::{id, membership};
use raft_rows::Answer;
use raft_state::{BasicNode, Bytes, LogIdRange, MessageSummary, Vote};
use std::alloc::{AllocError, Global};

// ---- messages

// The snapshot up to (11, 1, 7), with a membership of nobody.
fn snapshot_request(alloc: Global) -> Result<InstallSnapshotRequest<u64, BasicNode>, AllocError> {
    let logged = LoggedMembership {
        log_id: id(10, 0, 0),
        membership: membership(alloc, "none/-")?,
    };
    Ok(InstallSnapshotRequest {
        vote: Vote::new_committed(11, 1),
        meta: SnapshotMeta {
            last_log_id: id(11, 1, 7),
            last_membership: Some(logged),
        },
        bytes: Bytes::from_slice(alloc, [1, 2, 3].as_slice())?,
    })
}

fn of_messages(alloc: Global, name: &str) -> Option<Answer> {
    let asked = Vote::new(12, 1);
    Some(match name {
        "request-ids" => {
            let numbered = RequestId::AppendEntries { id: 3 };
            each(
                alloc,
                &[
                    RequestId::HeartBeat,
                    numbered,
                    RequestId::Snapshot { id: 4 },
                ],
            )
        }
        "vote-request" => Answer::told(alloc, &VoteRequest::new(asked, Some(id(11, 3, 5)))),
        "vote-response" => Answer::told(alloc, &VoteResponse::new(&asked, None, true)),
        "outcomes" => {
            let part = outcome("up-to-11-1-2");
            each(
                alloc,
                &[
                    outcome("success"),
                    part,
                    outcome("conflict"),
                    outcome("13-2"),
                ],
            )
        }
        "append-request" => {
            let leader = Vote::new_committed(11, 1);
            Answer::told(
                alloc,
                &request(alloc, leader, ["10-0-0", "-"], &["11-1-1:blank"]).ok()?,
            )
        }
        "snapshot-request" => Answer::told(alloc, &snapshot_request(alloc).ok()?),
        _ => return None,
    })
}

// ---- what peers are sent

const REQUEST: RequestId = RequestId::AppendEntries { id: 5 };

const SNAPSHOT: RequestId = RequestId::Snapshot { id: 6 };

fn to_peers() -> [Replicate<Numbered>; 5] {
    let range = LogIdRange::new(Some(id(8, 2, 3)), Some(id(8, 2, 8)));
    [
        Replicate::logs(REQUEST, range),
        Replicate::snapshot(SNAPSHOT, None),
        Replicate::new_data(Data::new_heartbeat()),
        Replicate::Committed(Some(id(8, 2, 3))),
        Replicate::Heartbeat,
    ]
}

fn data() -> Data<Numbered> {
    Data::new_snapshot(SNAPSHOT, None)
}

// ---- what came of it

fn session() -> ReplicationSessionId<u64> {
    ReplicationSessionId::new(Vote::new_committed(9, 1), Some(id(8, 1, 4)))
}

fn progress() -> Response<Numbered> {
    Response::Progress {
        target: 3,
        request_id: RequestId::AppendEntries { id: 2 },
        result: Some(ReplicationResult::new(7, Ok(None))),
        session_id: session(),
    }
}

fn higher() -> Response<Numbered> {
    Response::HigherVote {
        target: 3,
        higher: Vote::new(7, 3),
        vote: Vote::new_committed(9, 1),
    }
}

fn written(alloc: Global) -> ClientWriteResponse<Numbered> {
    ClientWriteResponse {
        log_id: id(8, 2, 3),
        data: Bytes::new(alloc),
        membership: None,
    }
}

/// The answer to a row about the text of a message, of a command, or of what came of one.
pub fn told_of_sent(alloc: Global, name: &str) -> Option<Answer> {
    Some(match name {
        "to-peers" => each(alloc, &to_peers()),
        "data" => text(data().summary(alloc)),
        "conflict" => { Answer::told(alloc, &ReplicationResult::new(7, Err(id(8, 1, 5)))) }
        "progress" => text(progress().summary(alloc)),
        "higher" => text(higher().summary(alloc)),
        "written" => text(written(alloc).summary(alloc)),
        _ => of_messages(alloc, name)?,
    })
}
