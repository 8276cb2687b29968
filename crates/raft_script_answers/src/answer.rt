//! The text of an answer.
ghost use Rattle.std.specs.Prelude.{◌≡◌, ◌++◌, IfOk, OnOk, string_bytes};
ghost use Rattle.std.specs.List.{flat_map};
ghost use Rattle.raft_script_answers.specs.Answer.{sent_text, unknown_text, compact_text, leader_text, done_text, refused_text, stopped_text, total_text};

use crate::numbers::{push_number, push_number_or_dash};
use crate::refusal::Refusal;
use crate::shown::{AppliedTotal, SentNumber};
use std::alloc::{AllocError, Global};

// Room for most answers, so that text doesn't move as it grows.
const ROOM: usize = 64;

// The text, and a frame behind it.
fn push_one_sent(text: &mut String, sent: &SentNumber) -> Result<(), AllocError>
    ensures { OnOk result (string_bytes text.new ≡ string_bytes text.old ++ sent_text sent.now) }
{
    text.push_str(" >")?;
    push_number(text, sent.peer)?;
    text.push_str("#")?;
    push_number(text, sent.number)
}

// The text, and each frame behind it.
fn push_sent(text: &mut String, sent: &[SentNumber]) -> Result<(), AllocError>
    ensures { OnOk result (string_bytes text.new
        ≡ string_bytes text.old ++ flat_map sent_text sent.now) }
{
    for one in sent {
        push_one_sent(text, one)?;
    }
    Ok(())
}

// The text, and each token behind it that stays unknown.
fn push_unknown(text: &mut String, unknown: &[u64]) -> Result<(), AllocError>
    ensures { OnOk result (string_bytes text.new
        ≡ string_bytes text.old ++ flat_map unknown_text unknown.now) }
{
    for token in unknown {
        text.push_str(" unknown ")?;
        push_number(text, *token)?;
    }
    Ok(())
}

// The text, and each group behind it that is to be compacted.
fn push_compact(text: &mut String, groups: &[u64]) -> Result<(), AllocError>
    ensures { OnOk result (string_bytes text.new
        ≡ string_bytes text.old ++ flat_map compact_text groups.now) }
{
    for group in groups {
        text.push_str(" compact ")?;
        push_number(text, *group)?;
    }
    Ok(())
}

// A text that has room for more.
fn roomy(alloc: Global, text: &str) -> Result<String, AllocError>
    ensures { IfOk result (λ roomy. string_bytes roomy ≡ text.now) }
{
    let mut roomy = String::with_capacity(alloc, ROOM)?;
    roomy.push_str(text)?;
    Ok(roomy)
}

/// An event ran to its end: its frames, the text of what it told, the tokens that stay unknown, and
/// the groups that a cleaning names, each list in its order (own). An `Err` is want of memory.
pub fn done_text(
    alloc: Global,
    sent: &[SentNumber],
    told: &str,
    unknown: &[u64],
    compact: &[u64],
) -> Result<String, AllocError>
    ensures { IfOk result (λ text. string_bytes text
        ≡ done_text sent.now told.now unknown.now compact.now) }
{
    let mut text = roomy(alloc, "ok")?;
    push_sent(&mut text, sent)?;
    text.push_str(told)?;
    push_unknown(&mut text, unknown)?;
    push_compact(&mut text, compact)?;
    text.push_str("\n")?;
    Ok(text)
}

// The text, and who leads where a refusal says so.
fn push_leader(text: &mut String, why: Refusal) -> Result<(), AllocError>
    ensures { OnOk result (string_bytes text.new ≡ string_bytes text.old ++ leader_text why) }
{
    match why {
        Refusal::NotLeader { leader } => {
            text.push_str(" ")?;
            push_number_or_dash(text, leader)
        }
        _ => Ok(()),
    }
}

/// An event was refused; a node that stopped names the tokens that stay unknown (own). An `Err` is
/// want of memory.
pub fn refused_text(alloc: Global, why: Refusal, unknown: &[u64]) -> Result<String, AllocError>
    ensures { IfOk result (λ text. string_bytes text ≡ refused_text why unknown.now) }
{
    let mut text = roomy(alloc, "refused ")?;
    text.push_str(why.label())?;
    push_leader(&mut text, why)?;
    push_unknown(&mut text, unknown)?;
    text.push_str("\n")?;
    Ok(text)
}

/// The machine stopped inside the event (own). An `Err` is want of memory.
pub fn stopped_text(alloc: Global) -> Result<String, AllocError>
    ensures { IfOk result (λ text. string_bytes text ≡ stopped_text) }
{
    String::from_str(alloc, "stopped\n")
}

/// A group's total at a node; none where there is no such group, or the node isn't up (own). An
/// `Err` is want of memory.
pub fn total_text(alloc: Global, total: Option<AppliedTotal>) -> Result<String, AllocError>
    ensures { IfOk result (λ text. string_bytes text ≡ total_text total) }
{
    match total {
        Some(AppliedTotal { total, place }) => {
            let mut text = roomy(alloc, "total ")?;
            push_number(&mut text, total)?;
            text.push_str(" at ")?;
            push_number_or_dash(&mut text, place)?;
            text.push_str("\n")?;
            Ok(text)
        }
        None => String::from_str(alloc, "none\n"),
    }
}
