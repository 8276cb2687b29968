//! The tokens that a stop leaves unknown, by rising group and place.
ghost use Rattle.std.specs.Prelude.{◌≡◌, ◌++◌, IfOk, OnOk, map};
ghost use Rattle.raft_machines.specs.declared.telling.Told.{Told as OneTold};
ghost use Rattle.raft_machines.specs.declared.telling.Untold.{Untold as OneUntold};
ghost use Rattle.raft_cluster_script.specs.Answers.{own_tokens, tokens_below, tokens_from, tokens_of, tokens_of_stop};

use raft_cluster_events::{Stop, Unsaid};
use raft_machines::{Told, UnknownTokens, Untold};
use std::alloc::{AllocError, Global};

// A group's tokens behind the others.
fn push_tokens(all: &mut Vec<u64>, tokens: &[Untold]) -> Result<(), AllocError>
    ensures { OnOk result (all.new.items ≡ all.old.items ++ map (λ (one : OneUntold). one.token) tokens.now) }
{
    for one in tokens {
        all.push(one.token)?;
    }
    Ok(())
}

// All tokens behind the others.
fn push_all(all: &mut Vec<u64>, unknown: &[UnknownTokens]) -> Result<(), AllocError>
    ensures { OnOk result (all.new.items ≡ all.old.items ++ tokens_of unknown.now) }
{
    for one in unknown {
        push_tokens(all, one.tokens.as_slice())?;
    }
    Ok(())
}

// The tokens of the groups below this one behind the others.
fn push_below(all: &mut Vec<u64>, unknown: &[UnknownTokens], group: u64) -> Result<(), AllocError>
    ensures { OnOk result (all.new.items ≡ all.old.items ++ tokens_below group unknown.now) }
{
    for one in unknown {
        if one.group < group {
            push_tokens(all, one.tokens.as_slice())?;
        }
    }
    Ok(())
}

// The tokens of this group and those above it behind the others.
fn push_from(all: &mut Vec<u64>, unknown: &[UnknownTokens], group: u64) -> Result<(), AllocError>
    ensures { OnOk result (all.new.items ≡ all.old.items ++ tokens_from group unknown.now) }
{
    for one in unknown {
        if one.group >= group {
            push_tokens(all, one.tokens.as_slice())?;
        }
    }
    Ok(())
}

// The tokens that were to be told behind the others.
fn push_told(all: &mut Vec<u64>, told: &[Told]) -> Result<(), AllocError>
    ensures { OnOk result (all.new.items ≡ all.old.items ++ map (λ (one : OneTold). one.token) told.now) }
{
    for one in told {
        all.push(one.token)?;
    }
    Ok(())
}

// The tokens of an event that was done behind the others.
fn push_own(all: &mut Vec<u64>, unsaid: &Unsaid) -> Result<(), AllocError>
    ensures { OnOk result (all.new.items ≡ all.old.items ++ own_tokens unsaid.now) }
{
    push_told(all, unsaid.told.as_slice())?;
    all.extend_from_slice(unsaid.unknown.as_slice())?;
    Ok(())
}

/// The tokens of a stop.
pub fn tokens_of_stop(alloc: Global, stop: &Stop) -> Result<Vec<u64>, AllocError>
    ensures { IfOk result (λ all. all.items ≡ tokens_of_stop stop.now) }
{
    let mut all = Vec::new(alloc);
    match &stop.unsaid {
        Some(unsaid) => {
            push_below(&mut all, stop.unknown.as_slice(), unsaid.group)?;
            push_own(&mut all, unsaid)?;
            push_from(&mut all, stop.unknown.as_slice(), unsaid.group)?;
        }
        None => push_all(&mut all, stop.unknown.as_slice())?,
    }
    Ok(all)
}
