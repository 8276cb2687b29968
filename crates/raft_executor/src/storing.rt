//! What commands store.
ghost use Rattle.std.specs.Prelude.{◌≡◌, IfOk, OnOk, OnErr, if◌then◌else◌, length};
ghost use Rattle.std.specs.Option.{option_copied};
ghost use Rattle.raft_group_step.specs.StoredGroup.{SetSnapshot, Snapshot};
ghost use Rattle.raft_engine.specs.Commands.{put_all, storing_of, stored_by};
ghost use Rattle.std.specs.Result.{result_err};
ghost use Rattle.raft_group_storage.specs.Keeping.{KeepsOthers, MayStore, StandsOrNone, Stores};
ghost use Rattle.raft_executor.specs.Stored.{FailsAmong, FailsAtOne, IsGiven, MayStoreAll, StoresAll, first_of, has_snapshot, queue_has_snapshot, room_after};

use raft_commands::sm::CommandPayload;
use raft_commands::{Command, EngineOutput, RaftTypeConfig};
use raft_group_step::Entries;
use raft_group_storage::GroupStorage;
use raft_state::{BasicNode, Bytes};

// The entries are stored from the place of the first one on.
fn store_entries<S: GroupStorage>(
    entries: &Entries<u64, BasicNode, Bytes>,
    storage: &mut S,
    group: u64,
) -> Result<(), S::Fault>
    ensures well { S.is_well storage.old → OnOk result (S.is_well storage.new) }
    ensures ok { S.is_well storage.old → OnOk result (StoresAll (S.shows storage.old) (S.shows storage.new) group (put_all entries.now)) }
    ensures err { S.is_well storage.old → OnErr result (MayStoreAll (S.shows storage.old) (S.shows storage.new) (S.fails storage.new) group (put_all entries.now)) }
    ensures others { KeepsOthers (S.shows storage.old) (S.shows storage.new) group }
    ensures met { S.meets storage.old storage.new (result_err result) }
{
    match entries.as_slice().first() {
        Some(entry) => storage.put_entries(group, entry.log_id.index, entries.as_slice()),
        None => Ok(()),
    }
}

// A copy of the snapshot takes the place of the one before.
fn store_snapshot<S: GroupStorage>(
    snapshot: Option<&S::Snapshot>,
    storage: &mut S,
    group: u64,
) -> Result<(), S::Fault>
    ensures well { S.is_well storage.old → OnOk result (S.is_well storage.new) }
    ensures ok { (x : Snapshot) → StandsOrNone S.stands (option_copied snapshot.entry) (Some x) → S.is_well storage.old
        → OnOk result (Stores (S.shows storage.old) (S.shows storage.new) group (SetSnapshot x)) }
    ensures err { (x : Snapshot) → StandsOrNone S.stands (option_copied snapshot.entry) (Some x) → S.is_well storage.old
        → OnErr result (MayStore (S.shows storage.old) (S.shows storage.new) (S.fails storage.new) group (SetSnapshot x)) }
    ensures others { KeepsOthers (S.shows storage.old) (S.shows storage.new) group }
    ensures met { S.meets storage.old storage.new (result_err result) }
{
    match snapshot {
        Some(snapshot) => storage.set_snapshot(group, snapshot),
        None => Ok(()),
    }
}

/// What the command stores is stored in the group (own). The snapshot is the one that the command
/// builds or installs; a command that does neither needs none. Where it fails, the command is stored
/// or not, and other groups are as they were.
pub fn store<C: RaftTypeConfig<NodeId = u64, Node = BasicNode, D = Bytes>, S: GroupStorage>(
    command: &Command<C>,
    snapshot: Option<&S::Snapshot>,
    storage: &mut S,
    group: u64,
) -> Result<(), S::Fault>
    ensures well { S.is_well storage.old → OnOk result (S.is_well storage.new) }
    ensures ok { (x : Snapshot) → IsGiven S.stands (has_snapshot command.now) (option_copied snapshot.entry) x → S.is_well storage.old
        → OnOk result (StoresAll (S.shows storage.old) (S.shows storage.new) group (storing_of x command.now)) }
    ensures err { (x : Snapshot) → IsGiven S.stands (has_snapshot command.now) (option_copied snapshot.entry) x → S.is_well storage.old
        → OnErr result (MayStoreAll (S.shows storage.old) (S.shows storage.new) (S.fails storage.new) group (storing_of x command.now)) }
    ensures others { KeepsOthers (S.shows storage.old) (S.shows storage.new) group }
    ensures met { S.meets storage.old storage.new (result_err result) }
{
    match command {
        Command::AppendInputEntries { entries, .. } => store_entries(entries, storage, group),
        Command::SaveVote { vote } => storage.set_vote(group, *vote),
        Command::PurgeLog { upto } => storage.remove_up_to(group, *upto),
        Command::DeleteConflictLog { since } => storage.cut_from(group, since.index),
        Command::StateMachine { command } => match &command.payload {
            CommandPayload::BuildSnapshot | CommandPayload::InstallFullSnapshot { .. } => {
                store_snapshot(snapshot, storage, group)
            }
            _ => Ok(()),
        },
        _ => Ok(()),
    }
}

// Whether the command stores something.
fn stores<C: RaftTypeConfig<NodeId = u64, Node = BasicNode, D = Bytes>>(
    command: &Command<C>,
) -> bool
    ensures { (x : Snapshot) → length (storing_of x command.now) ≡ if result then 1 else 0 }
{
    match command {
        Command::AppendInputEntries { entries, .. } => !entries.as_slice().is_empty(),
        Command::SaveVote { .. } | Command::PurgeLog { .. } | Command::DeleteConflictLog { .. } => {
            true
        }
        Command::StateMachine { command } => matches!(
            &command.payload,
            CommandPayload::BuildSnapshot | CommandPayload::InstallFullSnapshot { .. }
        ),
        _ => false,
    }
}

// What the command stores is stored where there is room, and how much room is left.
fn store_within<C: RaftTypeConfig<NodeId = u64, Node = BasicNode, D = Bytes>, S: GroupStorage>(
    command: &Command<C>,
    room: Option<u64>,
    snapshot: Option<&S::Snapshot>,
    storage: &mut S,
    group: u64,
) -> Result<Option<u64>, S::Fault>
    ensures well { S.is_well storage.old → OnOk result (S.is_well storage.new) }
    ensures room { (x : Snapshot) → IfOk result (λ rest. rest ≡ room_after room (length (storing_of x command.now))) }
    ensures ok { (x : Snapshot) → IsGiven S.stands (has_snapshot command.now) (option_copied snapshot.entry) x → S.is_well storage.old
        → OnOk result (StoresAll (S.shows storage.old) (S.shows storage.new) group (first_of room (storing_of x command.now))) }
    ensures err { (x : Snapshot) → IsGiven S.stands (has_snapshot command.now) (option_copied snapshot.entry) x → S.is_well storage.old
        → OnErr result (FailsAtOne (S.shows storage.old) (S.shows storage.new) (S.fails storage.new) group (first_of room (storing_of x command.now))) }
    ensures others { KeepsOthers (S.shows storage.old) (S.shows storage.new) group }
    ensures met { S.meets storage.old storage.new (result_err result) }
{
    if !stores(command) {
        return Ok(room);
    }
    match room {
        None => {
            store(command, snapshot, storage, group)?;
            Ok(None)
        }
        Some(0) => Ok(room),
        Some(count) => {
            store(command, snapshot, storage, group)?;
            Ok(Some(count - 1))
        }
    }
}

/// What the queue's commands store is stored in the group, in its order: so much of it from the
/// first on, or all (own). The snapshot is the one that a command builds or installs. Where it fails,
/// the commands before the one that failed are stored, that one is or not, and the others aren't.
/// Other groups are as they were.
pub fn store_first<C: RaftTypeConfig<NodeId = u64, Node = BasicNode, D = Bytes>, S: GroupStorage>(
    queue: &EngineOutput<C>,
    limit: Option<u64>,
    snapshot: Option<&S::Snapshot>,
    storage: &mut S,
    group: u64,
) -> Result<(), S::Fault>
    ensures well { S.is_well storage.old → OnOk result (S.is_well storage.new) }
    ensures ok { (x : Snapshot) → IsGiven S.stands (queue_has_snapshot queue.now.queue) (option_copied snapshot.entry) x → S.is_well storage.old
        → OnOk result (StoresAll (S.shows storage.old) (S.shows storage.new) group (first_of limit (stored_by x queue.now.queue))) }
    ensures err { (x : Snapshot) → IsGiven S.stands (queue_has_snapshot queue.now.queue) (option_copied snapshot.entry) x → S.is_well storage.old
        → OnErr result (FailsAmong (S.shows storage.old) (S.shows storage.new) (S.fails storage.new) group (first_of limit (stored_by x queue.now.queue))) }
    ensures others { KeepsOthers (S.shows storage.old) (S.shows storage.new) group }
    ensures met { S.meets storage.old storage.new (result_err result) }
{
    let mut room = limit;
    let mut left = queue.iter_commands();
    while let Some(command) = left.next() {
        room = store_within(command, room, snapshot, storage, group)?;
    }
    Ok(())
}
