//! The text of what a node answers.
ghost use Rattle.std.specs.Prelude.{◌≡◌, ◌++◌, IfOk, OnOk, [], drop, map, string_bytes};
ghost use Rattle.raft_node_script.specs.Answers.{IsOneLineOf, cleaned_text, done_text, fault_text, frame_text, frames_text, known_text};
ghost use Rattle.raft_node_script.specs.Answers.{named_text, sent_text, stop_text, told_text, unopened_text, without_frames};

use crate::home::HomeRefusal;
use itoa::Buffer;
use raft_cluster_events::{EventOutcome, GroupOutcome, Sequence, Stop, StopCause};
use raft_cluster_script::{outcome_text, stop_text as cluster_stop_text};
use raft_framed_groups::GroupFrame;
use raft_node::{Fault, Outcome, UnknownTokens};
use raft_node_status::{GroupStatus, LogStatus, queues_text, status_text};
use raft_script_answers::{Refusal, done_text as cluster_done_text, refused_text};
use raft_script_machines::ScriptMachine;
use std::alloc::{AllocError, Global};

// The text, and a frame with its bytes behind it.
fn push_frame(alloc: Global, text: &mut String, frame: &GroupFrame) -> Result<(), AllocError>
    ensures { OnOk result (string_bytes text.new ≡ string_bytes text.old ++ frame_text frame.now) }
{
    let mut digits = Buffer::new();
    let bytes = hex::encode(alloc, frame.bytes.as_slice())?;
    text.push_str(" >")?;
    text.push_str(digits.format(frame.addressee))?;
    text.push_str(":")?;
    text.push_str(bytes.as_str())
}

// The text, and the frames behind it.
fn push_frames(alloc: Global, text: &mut String, frames: &[GroupFrame]) -> Result<(), AllocError>
    ensures { OnOk result (string_bytes text.new ≡ string_bytes text.old ++ frames_text frames.now) }
{
    for frame in frames {
        push_frame(alloc, text, frame)?;
    }
    Ok(())
}

// The text, and the frames of all outcomes behind it.
fn push_sent(alloc: Global, text: &mut String, outcomes: &[Outcome]) -> Result<(), AllocError>
    ensures { OnOk result (string_bytes text.new ≡ string_bytes text.old ++ sent_text outcomes.now) }
{
    for outcome in outcomes {
        push_frames(alloc, text, outcome.frames.as_slice())?;
    }
    Ok(())
}

// The outcomes as a cluster's, without their frames.
fn parts_of(alloc: Global, outcomes: Vec<Outcome>) -> Result<Sequence<GroupOutcome>, AllocError>
    ensures { IfOk result (λ parts. parts ≡ map without_frames outcomes.items) }
{
    let mut parts = Sequence::new(alloc);
    for outcome in outcomes {
        parts.push(GroupOutcome {
            group: outcome.group,
            sent: Sequence::new(alloc),
            told: Sequence::from_vec(outcome.told),
            unknown: Sequence::from_vec(outcome.unknown),
        })?;
    }
    Ok(parts)
}

// The text, and behind it what an answer has behind its `ok`.
fn push_told(text: &mut String, answer: &str) -> Result<(), AllocError>
    ensures { OnOk result (string_bytes text.new ≡ string_bytes text.old ++ drop 2 answer.now) }
{
    match answer.strip_prefix("ok") {
        Some(rest) => text.push_str(rest),
        None => Err(AllocError),
    }
}

/// What an opening or an event did: its frames, what it told, and the tokens that stay unknown (own).
pub fn done_text<M: ScriptMachine>(
    alloc: Global,
    outcomes: Vec<Outcome>,
) -> Result<String, AllocError>
    ensures { IfOk result (λ text. string_bytes text ≡ done_text M.speech.shows outcomes.items) }
{
    let mut text = String::from_str(alloc, "ok")?;
    push_sent(alloc, &mut text, outcomes.as_slice())?;
    let parts = parts_of(alloc, outcomes)?;
    let told = outcome_text::<M>(alloc, &EventOutcome::Done(parts))?;
    push_told(&mut text, told.as_str())?;
    Ok(text)
}

/// What a cleaning answers: the groups that hold old files back (own).
pub fn cleaned_text(alloc: Global, groups: Vec<u64>) -> Result<String, AllocError>
    ensures { IfOk result (λ text. string_bytes text ≡ cleaned_text groups.items) }
{
    cluster_done_text(alloc, &[], "", &[], groups.as_slice())
}

// A refusal by its number and name.
fn named_text<F>(alloc: Global, fault: &Fault<F>) -> Result<String, AllocError>
    ensures { IfOk result (λ text. string_bytes text ≡ named_text fault.now) }
{
    let mut digits = Buffer::new();
    let mut text = String::from_str(alloc, "refused ")?;
    text.push_str(digits.format(fault.number()))?;
    text.push_str(" ")?;
    text.push_str(fault.name())?;
    text.push_str("\n")?;
    Ok(text)
}

// A stop, with the tokens that stay unknown.
fn stop_text(alloc: Global, unknown: Vec<UnknownTokens>) -> Result<String, AllocError>
    ensures { IfOk result (λ text. string_bytes text ≡ stop_text unknown.items) }
{
    let stop = Stop {
        cause: StopCause::Other,
        unsaid: None,
        unknown: Sequence::from_vec(unknown),
    };
    cluster_stop_text(alloc, &stop)
}

/// Why a call isn't done, with the tokens that stay unknown behind a stop (own).
pub fn fault_text<F: Drop>(alloc: Global, fault: Fault<F>) -> Result<String, AllocError>
    ensures { IfOk result (λ text. string_bytes text ≡ fault_text fault) }
{
    match fault {
        Fault::Stopped { cause: _, unknown } => stop_text(alloc, unknown),
        Fault::NotLeader { leader } => refused_text(alloc, Refusal::NotLeader { leader }, &[]),
        other => named_text(alloc, &other),
    }
}

// The first line without its newline, and the second one behind it.
#[tactic(auto, using(std::proofs::lemmas::Str::Pattern::strip_suffix_char))]
fn on_one_line(alloc: Global, first: &str, second: &str) -> Result<String, AllocError>
    ensures { IfOk result (λ text. IsOneLineOf first.now second.now (string_bytes text)) }
{
    let Some(line) = first.strip_suffix('\n') else {
        return Err(AllocError);
    };
    let mut text = String::from_str(alloc, line)?;
    text.push_str("; ")?;
    text.push_str(second)?;
    Ok(text)
}

/// What a piece of a stream did in which a frame is refused: what the frames before it did, if there
/// are any, and why that one is refused (own).
pub fn fed_text<M: ScriptMachine, F: Drop>(
    alloc: Global,
    outcomes: Vec<Outcome>,
    fault: Fault<F>,
) -> Result<String, AllocError>
    ensures alone { outcomes.items ≡ [] → IfOk result (λ text. string_bytes text ≡ fault_text fault) }
    ensures behind { ¬ (outcomes.items ≡ []) → IfOk result (λ text.
        IsOneLineOf (done_text M.speech.shows outcomes.items) (fault_text fault) (string_bytes text)) }
{
    let why = fault_text(alloc, fault)?;
    if outcomes.is_empty() {
        return Ok(why);
    }
    let done = done_text::<M>(alloc, outcomes)?;
    on_one_line(alloc, done.as_str(), why.as_str())
}

/// What the node knows of a group, and the files of its storage (own).
pub fn known_text(alloc: Global, told: &GroupStatus, log: &LogStatus) -> Result<String, AllocError>
    ensures { IfOk result (λ text. string_bytes text ≡ known_text told.now log.now) }
{
    let mut text = status_text(alloc, told)?;
    let queues = queues_text(alloc, log)?;
    text.push_str(queues.as_str())?;
    text.push_str("\n")?;
    Ok(text)
}

/// Why a node's storage isn't opened (own).
pub fn unopened_text(alloc: Global, why: HomeRefusal) -> Result<String, AllocError>
    ensures { IfOk result (λ text. string_bytes text ≡ unopened_text why) }
{
    let label = why.label();
    format!(in alloc; "refused {label}\n")
}
