//! The text of what came of an event.
ghost use Rattle.std.specs.Prelude.{◌≡◌, ◌++◌, [], IfOk, OnOk, map, option_map, string_bytes};
ghost use Rattle.raft_cluster_script.specs.Answers.{numbers_of, outcome_text, refusal_of_cluster, refusal_of_node, shown_number, stop_text, told_of, unknown_of};
ghost use Rattle.raft_cluster_script.specs.Script.{total_at, total_in, with_place};
ghost use Rattle.std.specs.List.{flat_map};
ghost use Rattle.std.specs.Option.{option_copied};
ghost use Rattle.raft_script_answers.specs.Answer.{done_text, total_text};

use crate::stops::tokens_of_stop;
use raft_cluster_conditions::ClusterRefusal;
use raft_cluster_events::{ClusterNode, EventOutcome, GroupOutcome, NodeRefusal, SentNumber, Stop};
use raft_machines::Told;
use raft_script_answers::{
    AppliedTotal, Refusal, SentNumber as ShownNumber, done_text, refused_text, total_text,
};
use raft_script_machines::ScriptMachine;
use std::alloc::{AllocError, Global};

// The numbers behind the others.
fn push_numbers(all: &mut Vec<ShownNumber>, numbers: &[SentNumber]) -> Result<(), AllocError>
    ensures { OnOk result (all.new.items ≡ all.old.items ++ map shown_number numbers.now) }
{
    for one in numbers {
        all.push(ShownNumber {
            peer: one.peer,
            number: one.number,
        })?;
    }
    Ok(())
}

// The text, and what is told behind it.
fn push_told<M: ScriptMachine>(text: &mut String, told: &[Told]) -> Result<(), AllocError>
    ensures { OnOk result (string_bytes text.new ≡ string_bytes text.old ++ flat_map M.speech.shows told.now) }
{
    for one in told {
        M::push_told(text, one)?;
    }
    Ok(())
}

// What was sent in all groups.
fn numbers_of(alloc: Global, parts: &[GroupOutcome]) -> Result<Vec<ShownNumber>, AllocError>
    ensures { IfOk result (λ all. all.items ≡ numbers_of parts.now) }
{
    let mut all = Vec::new(alloc);
    for part in parts {
        push_numbers(&mut all, part.sent.as_slice())?;
    }
    Ok(all)
}

// What was told in all groups.
fn told_of<M: ScriptMachine>(alloc: Global, parts: &[GroupOutcome]) -> Result<String, AllocError>
    ensures { IfOk result (λ text. string_bytes text ≡ told_of M.speech.shows parts.now) }
{
    let mut text = String::new(alloc);
    for part in parts {
        push_told::<M>(&mut text, part.told.as_slice())?;
    }
    Ok(text)
}

// The unknown tokens of all groups.
fn unknown_of(alloc: Global, parts: &[GroupOutcome]) -> Result<Vec<u64>, AllocError>
    ensures { IfOk result (λ all. all.items ≡ unknown_of parts.now) }
{
    let mut all = Vec::new(alloc);
    for part in parts {
        all.extend_from_slice(part.unknown.as_slice())?;
    }
    Ok(all)
}

// A node's refusal as scripts name it.
fn refusal_of_node(why: NodeRefusal) -> Refusal
    ensures { result ≡ refusal_of_node why }
{
    match why {
        NodeRefusal::NotLeader { leader } => Refusal::NotLeader { leader },
        NodeRefusal::UnknownGroup => Refusal::UnknownGroup,
        NodeRefusal::GroupExists => Refusal::GroupExists,
        NodeRefusal::NotAllowed => Refusal::NotAllowed,
        NodeRefusal::NotVoter => Refusal::NotVoter,
        NodeRefusal::Membership { .. } => Refusal::Membership,
        NodeRefusal::VoterChange => Refusal::VoterChange,
        NodeRefusal::InProgress => Refusal::InProgress,
        NodeRefusal::CommandTooLong => Refusal::CommandTooLong,
        NodeRefusal::NumberAtEnd => Refusal::NumberAtEnd,
        NodeRefusal::Failed => Refusal::Failed,
        NodeRefusal::WrongParty => Refusal::WrongParty,
        NodeRefusal::TooMuchForBatch => Refusal::TooMuchForBatch,
        NodeRefusal::BreaksCondition => Refusal::BreaksCondition,
        NodeRefusal::Frame => Refusal::Frame,
    }
}

// A cluster's refusal as scripts name it.
fn refusal_of_cluster(why: ClusterRefusal) -> Refusal
    ensures { result ≡ refusal_of_cluster why }
{
    match why {
        ClusterRefusal::NoNode => Refusal::NoNode,
        ClusterRefusal::NodeDown => Refusal::NodeDown,
        ClusterRefusal::NodeUp => Refusal::NodeUp,
        ClusterRefusal::NoFrame => Refusal::NoFrame,
        ClusterRefusal::SetupDiffers => Refusal::SetupDiffers,
        ClusterRefusal::ByChance => Refusal::ByChance,
        ClusterRefusal::NotAnImage => Refusal::NotAnImage,
        ClusterRefusal::BadCut => Refusal::BadCut,
    }
}

// What an event did in its groups.
fn parts_text<M: ScriptMachine>(alloc: Global, parts: &[GroupOutcome]) -> Result<String, AllocError>
    ensures { IfOk result (λ text. string_bytes text ≡ done_text (numbers_of parts.now) (told_of M.speech.shows parts.now) (unknown_of parts.now) []) }
{
    let sent = numbers_of(alloc, parts)?;
    let told = told_of::<M>(alloc, parts)?;
    let unknown = unknown_of(alloc, parts)?;
    done_text(
        alloc,
        sent.as_slice(),
        told.as_str(),
        unknown.as_slice(),
        &[],
    )
}

/// A stop, with the tokens that it leaves unknown (own).
pub fn stop_text(alloc: Global, stop: &Stop) -> Result<String, AllocError>
    ensures { IfOk result (λ text. string_bytes text ≡ stop_text stop.now) }
{
    let tokens = tokens_of_stop(alloc, stop)?;
    refused_text(alloc, Refusal::Stopped, tokens.as_slice())
}

/// What came of an event of nodes with this machine (own).
pub fn outcome_text<M: ScriptMachine>(
    alloc: Global,
    outcome: &EventOutcome,
) -> Result<String, AllocError>
    ensures { IfOk result (λ text. string_bytes text ≡ outcome_text M.speech.shows outcome.now) }
{
    match outcome {
        EventOutcome::Done(parts) => parts_text::<M>(alloc, parts.as_slice()),
        EventOutcome::Cleaned(groups) => done_text(alloc, &[], "", &[], groups.as_slice()),
        EventOutcome::Refused(why) => refused_text(alloc, refusal_of_node(*why), &[]),
        EventOutcome::Stopped(stop) => stop_text(alloc, stop),
        EventOutcome::TurnedAway(why) => refused_text(alloc, refusal_of_cluster(*why), &[]),
    }
}

// The total, with the last place that is in it.
fn with_place(total: Option<u64>, place: Option<u64>) -> Option<AppliedTotal>
    ensures { result ≡ with_place place total }
{
    match total {
        Some(total) => Some(AppliedTotal { total, place }),
        None => None,
    }
}

// The total of a machine that is lent, if one is.
fn total_in<M: ScriptMachine>(place: Option<u64>, machine: Option<&M>) -> Option<AppliedTotal>
    ensures { result ≡ total_in M.speech.totals place (option_map M.state (option_copied machine.entry)) }
{
    match machine {
        Some(machine) => with_place(machine.total_of(), place),
        None => None,
    }
}

// The total of a group at a node, if there is one.
fn total_of<N: ClusterNode>(node: Option<&N>, group: u64) -> Option<AppliedTotal>
where
    N::Machine: ScriptMachine,
    ensures { result ≡ total_at N.acts N.Machine.speech (option_copied node.entry) group }
{
    match node {
        Some(node) => total_in(node.applied(group), node.machine(group)),
        None => None,
    }
}

/// The text of the total of a group at a node.
pub fn total_at<N: ClusterNode>(
    alloc: Global,
    node: Option<&N>,
    group: u64,
) -> Result<String, AllocError>
where
    N::Machine: ScriptMachine,
    ensures { IfOk result (λ text. string_bytes text ≡ total_text (total_at N.acts N.Machine.speech (option_copied node.entry) group)) }
{
    let total = total_of(node, group);
    total_text(alloc, total)
}
