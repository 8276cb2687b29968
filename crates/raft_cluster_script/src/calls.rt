//! The events of a cluster that lines name.
ghost use Rattle.std.specs.Prelude.{◌≡◌, ℕ, List, IfOk, Some, map, nat_eq, [], ◌++◌, ◌∷◌, OnOk};
ghost use Rattle.std.specs.Ordering.{nat_cmp};
ghost use Rattle.std.specs.String.{string_bytes};
ghost use Rattle.raft_quorums.specs.Quorum.{rising_ids};
ghost use Rattle.std.specs.Str.{is_utf8};
ghost use Rattle.raft_cluster_script.specs.Calls.{asked_at, asked_by, change_if, choice_of, cuts_at, event_of, has_token, membership_of, proposed_at, tokens_after, with_address, with_addresses};

use raft_cluster_events::{ClusterEvent, CrashChoice, GroupCommand, Sequence};
use raft_group_step::GroupCall;
use raft_script_lines::{CrashChoice as LineChoice, IdList, ScriptEvent};
use raft_script_machines::ScriptMachine;
use raft_state::{BasicNode, Bytes, ChangeMembers, IdSet, Membership, NodeMap};
use std::alloc::{AllocError, Global};
use std::str;

// The address of a set-up's node.
fn address_of(alloc: Global, id: u64) -> Result<String, AllocError>
    ensures { IfOk result (λ text. string_bytes text ≡ (with_address id).1) }
{
    format!(in alloc; "n{id}")
}

// The nodes of a set-up, each at the address that is `n` and its id.
fn named(alloc: Global, ids: &[u64]) -> Result<Vec<(u64, String)>, AllocError>
    ensures { IfOk result (λ nodes. map {B = ℕ × List ℕ} (λ x. (x.0, string_bytes x.1)) nodes.items ≡ with_addresses ids.now) }
{
    let mut nodes = Vec::new(alloc);
    for id in ids {
        let address = address_of(alloc, *id)?;
        nodes.push((*id, address))?;
    }
    Ok(nodes)
}

// The same with lent addresses.
fn lent<'a>(alloc: Global, named: &'a [(u64, String)]) -> Result<Vec<(u64, &'a str)>, AllocError>
    ensures { IfOk result (λ nodes. map {B = ℕ × List ℕ} (λ x. (x.0, x.1.now)) nodes.items
        ≡ map {B = ℕ × List ℕ} (λ x. (x.0, string_bytes x.1)) named.now) }
{
    let mut nodes = Vec::new(alloc);
    for one in named {
        nodes.push((one.0, one.1.as_str()))?;
    }
    Ok(nodes)
}

// A group's first membership: one voter group, and learners.
fn membership_of(
    alloc: Global,
    voters: &IdList,
    learners: &IdList,
) -> Result<Membership<u64, BasicNode>, AllocError>
    ensures { IfOk result (λ membership. membership ≡ membership_of voters.now learners.now) }
{
    let named_voters = named(alloc, voters.as_slice())?;
    let named_learners = named(alloc, learners.as_slice())?;
    let voters = lent(alloc, named_voters.as_slice())?;
    let learners = lent(alloc, named_learners.as_slice())?;
    match Membership::of_one_group(alloc, voters.as_slice(), learners.as_slice()) {
        Ok(membership) => Ok(membership),
        // There is a voter, so only memory was refused.
        Err(_) => Err(AllocError),
    }
}

// The change of a node's address, if that is text.
fn change_of(
    alloc: Global,
    id: u64,
    address: &Bytes,
    token: u64,
) -> Result<Option<GroupCommand>, AllocError>
    ensures { IfOk result (λ call. call ≡ change_if (is_utf8 address.now) id address.now token) }
{
    let Ok(text) = str::from_utf8(address.as_slice()) else {
        return Ok(None);
    };
    let node = BasicNode::new(alloc, text)?;
    let mut nodes = NodeMap::new(alloc);
    nodes.insert(id, node)?;
    let change = ChangeMembers::SetNodes(nodes);
    Ok(Some(GroupCall::ChangeMembership { change, token }))
}

// The call that makes these voters too.
fn more_voters(alloc: Global, ids: &IdList, token: u64) -> Result<GroupCommand, AllocError>
    ensures { IfOk result (λ call. call ≡ GroupCall.ChangeMembership (ChangeMembers.AddVoterIds (rising_ids nat_cmp ids.now)) token) }
{
    let change = ChangeMembers::AddVoterIds(IdSet::from_slice(alloc, ids.as_slice())?);
    Ok(GroupCall::ChangeMembership { change, token })
}

fn choice_of(choice: LineChoice) -> CrashChoice
    ensures { result ≡ choice_of choice }
{
    match choice {
        LineChoice::Least => CrashChoice::Least,
        LineChoice::Most => CrashChoice::Most,
    }
}

// Where a line cuts a frame.
fn cuts_at(alloc: Global, cut: Option<u64>) -> Result<Sequence<u64>, AllocError>
    ensures { IfOk result (λ cuts. cuts ≡ cuts_at cut) }
{
    let mut cuts = Sequence::new(alloc);
    if let Some(cut) = cut {
        cuts.push(cut)?;
    }
    Ok(cuts)
}

fn has_token(event: &ScriptEvent) -> bool
    ensures { result ≡ has_token event.now }
{
    match event {
        ScriptEvent::Propose { .. } | ScriptEvent::Addr { .. } | ScriptEvent::Voters { .. } => true,
        ScriptEvent::Put { .. } | ScriptEvent::Get { .. } | ScriptEvent::Drop { .. } => true,
        _ => false,
    }
}

/// How many tokens were taken behind a line (own).
pub fn tokens_after(tokens: u64, event: &ScriptEvent) -> u64
    ensures { result ≡ tokens_after tokens event.now }
{
    if has_token(event) {
        tokens.saturating_add(1)
    } else {
        tokens
    }
}

// An ask of a node's group.
fn ask(now: u64, node: u64, group: u64, call: GroupCommand) -> Option<ClusterEvent>
    ensures { result ≡ Some (ClusterEvent.Ask node group call now) }
{
    Some(ClusterEvent::Ask {
        node,
        group,
        call,
        now,
    })
}

// A command is proposed, where there is one.
fn proposed_at(
    now: u64,
    token: u64,
    node: u64,
    group: u64,
    command: Option<Bytes>,
) -> Option<ClusterEvent>
    ensures { result ≡ proposed_at node group now token command }
{
    match command {
        Some(command) => ask(now, node, group, GroupCall::Propose { command, token }),
        None => None,
    }
}

// A set-up.
fn init_of(
    alloc: Global,
    now: u64,
    node: u64,
    group: u64,
    lists: (IdList, IdList),
) -> Result<Option<ClusterEvent>, AllocError>
    ensures { IfOk result (λ e. e ≡ Some (ClusterEvent.Ask node group (GroupCall.Initialize (membership_of lists.0 lists.1)) now)) }
{
    let membership = membership_of(alloc, &lists.0, &lists.1)?;
    Ok(ask(now, node, group, GroupCall::Initialize { membership }))
}

// A change of an address.
fn addr_of(
    alloc: Global,
    now: u64,
    token: u64,
    node: u64,
    group: u64,
    named: (u64, Bytes),
) -> Result<Option<ClusterEvent>, AllocError>
    ensures { IfOk result (λ e. e ≡ asked_at node group now (change_if (is_utf8 named.1) named.0 named.1 token)) }
{
    match change_of(alloc, named.0, &named.1, token)? {
        Some(call) => Ok(ask(now, node, group, call)),
        None => Ok(None),
    }
}

// A delivery.
fn delivery_of(
    alloc: Global,
    now: u64,
    group: u64,
    number: u64,
    cut: Option<u64>,
) -> Result<Option<ClusterEvent>, AllocError>
    ensures { IfOk result (λ e. e ≡ Some (ClusterEvent.Deliver group number (cuts_at cut) now)) }
{
    let cuts = cuts_at(alloc, cut)?;
    Ok(Some(ClusterEvent::Deliver {
        group,
        number,
        cuts,
        now,
    }))
}

// A crash.
fn crash_of(node: u64, choice: LineChoice) -> Option<ClusterEvent>
    ensures { result ≡ Some (ClusterEvent.Crash node (choice_of choice)) }
{
    let choice = choice_of(choice);
    Some(ClusterEvent::Crash { node, choice })
}

// What a line asks of a node's group, other than to run a command.
fn asked_of(
    alloc: Global,
    now: u64,
    token: u64,
    event: ScriptEvent,
) -> Result<Option<ClusterEvent>, AllocError>
    ensures { IfOk result (λ e. e ≡ asked_by now token event) }
{
    match event {
        ScriptEvent::Init {
            node,
            group,
            voters,
            learners,
        } => init_of(alloc, now, node, group, (voters, learners)),
        ScriptEvent::Elect { node, group } => Ok(ask(now, node, group, GroupCall::Elect)),
        ScriptEvent::Heartbeat { node, group } => Ok(ask(now, node, group, GroupCall::Heartbeat)),
        ScriptEvent::Lost { node, group, peer } => {
            Ok(ask(now, node, group, GroupCall::Lost { peer }))
        }
        ScriptEvent::Snapshot { node, group } => {
            Ok(ask(now, node, group, GroupCall::TriggerSnapshot))
        }
        ScriptEvent::Purge { node, group, index } => {
            Ok(ask(now, node, group, GroupCall::TriggerPurge { place: index }))
        }
        ScriptEvent::Addr {
            node,
            group,
            id,
            address,
        } => addr_of(alloc, now, token, node, group, (id, address)),
        ScriptEvent::Voters { node, group, ids } => {
            Ok(ask(now, node, group, more_voters(alloc, &ids, token)?))
        }
        _ => Ok(None),
    }
}

/// The event that a line names, at a moment and where the line's token is this one (own); none where
/// an address is no text, or the machine has no such command.
pub fn event_of<M: ScriptMachine>(
    alloc: Global,
    now: u64,
    token: u64,
    event: ScriptEvent,
) -> Result<Option<ClusterEvent>, AllocError>
    ensures { IfOk result (λ e. e ≡ event_of M.speech.proposes now token event) }
{
    let command = M::command_of(alloc, &event)?;
    match event {
        ScriptEvent::Add { node, group } => Ok(Some(ClusterEvent::AddGroup { node, group })),
        ScriptEvent::Propose { node, group, .. }
        | ScriptEvent::Put { node, group, .. }
        | ScriptEvent::Get { node, group, .. }
        | ScriptEvent::Drop { node, group, .. } => {
            Ok(proposed_at(now, token, node, group, command))
        }
        ScriptEvent::Deliver { group, number, cut } => delivery_of(alloc, now, group, number, cut),
        ScriptEvent::Clean { node } => Ok(Some(ClusterEvent::Clean { node })),
        ScriptEvent::Crash { node, choice } => Ok(crash_of(node, choice)),
        ScriptEvent::Reopen { node, workers } => Ok(Some(ClusterEvent::Reopen { node, workers })),
        event => asked_of(alloc, now, token, event),
    }
}
