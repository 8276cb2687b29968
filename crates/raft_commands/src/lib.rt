//! What a Raft engine tells its runtime to do, and the queue that holds it.
#![tactic(auto)]

pub mod caller;
pub mod client_write_response;
pub mod command;
pub mod config;
pub mod engine_config;
pub mod engine_output;
pub mod replicate;
pub mod replication_result;
pub mod respond;
pub mod response;
pub mod session_id;
mod shown;
pub mod sm;
pub mod time_state;
pub mod type_config;

pub use caller::Caller;
pub use client_write_response::{ClientWriteResponse, ClientWriteResult};
pub use command::{Command, CommandKind, Condition};
pub use config::Config;
pub use engine_config::EngineConfig;
pub use engine_output::EngineOutput;
pub use replicate::{Data, DataWithId, Replicate};
pub use replication_result::ReplicationResult;
pub use respond::{Respond, ValueSender};
pub use response::Response;
pub use session_id::ReplicationSessionId;
pub use type_config::RaftTypeConfig;
