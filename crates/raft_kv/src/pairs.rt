//! The machine's pairs of a key and its value, and their bytes.
ghost use Rattle.std.specs.Prelude.{◌≡◌, map, None, IfOk};
ghost use Rattle.raft_wire.specs.Reader.{Gives, all_of, many_at, filled_at};
ghost use Rattle.raft_kv.specs.Map.{IsTreeWithin, map_of, restored, spelled_map};
ghost use Rattle.raft_kv.specs.Map.{nothing_left, pair_at, pairs_at};
ghost use Rattle.raft_kv.specs.Pairs.{IsTreeOf, is_before, plain_pair};

use crate::{MAX_KEY_BYTES, MAX_VALUE_BYTES};
use raft_wire::{FrameError, FrameFault, count_of, filled_of, put_count, put_text};
use std::alloc::{AllocError, Global};
use std::collections::BTreeMap;

/// The most keys of a map.
pub const MAX_KEYS: usize = 4096;

/// Values by their keys.
pub(crate) type Pairs = BTreeMap<Vec<u8>, Vec<u8>>;

// A key and its value.
#[derive(Drop)]
struct Pair {
    key: Vec<u8>,
    value: Vec<u8>,
}

// ---- reading

fn filled_vec(alloc: Global, limit: usize, bytes: &[u8]) -> Result<(Vec<u8>, &[u8]), FrameError>
    ensures { Gives (λ x. (x.0.items, x.1.now)) result (filled_at limit bytes.now) }
{
    let (text, rest) = filled_of(limit, bytes)?;
    Ok((Vec::from_slice(alloc, text)?, rest))
}

#[tactic(auto, unfolding(crate::specs::Map::pair_at))]
fn pair_of(alloc: Global, bytes: &[u8]) -> Result<(Pair, &[u8]), FrameError>
    ensures { Gives (λ x. (plain_pair x.0, x.1.now)) result (pair_at bytes.now) }
{
    let (key, rest) = filled_vec(alloc, MAX_KEY_BYTES, bytes)?;
    let (value, rest) = filled_vec(alloc, MAX_VALUE_BYTES, rest)?;
    Ok((Pair { key, value }, rest))
}

fn pairs_behind(alloc: Global, count: u32, bytes: &[u8]) -> Result<(Vec<Pair>, &[u8]), FrameError>
    ensures { Gives (λ x. (map plain_pair x.0.items, x.1.now)) result (many_at (λ _. pair_at) nothing_left count None bytes.now) }
{
    let mut pairs = Vec::new(alloc);
    let mut rest = bytes;
    for _ in 0..count {
        let (pair, after) = pair_of(alloc, rest)?;
        pairs.push(pair)?;
        rest = after;
    }
    Ok((pairs, rest))
}

// A count, and so many pairs, that take all of the bytes.
#[tactic(auto, unfolding(crate::specs::Map::pairs_at, raft_wire::specs::Reader::all_of, raft_wire::specs::Reader::counted_at))]
fn whole_pairs(alloc: Global, bytes: &[u8]) -> Result<Vec<Pair>, FrameError>
    ensures { Gives (λ x. map plain_pair x.items) result (all_of pairs_at bytes.now) }
{
    let (count, rest) = count_of(MAX_KEYS, bytes)?;
    let (pairs, rest) = pairs_behind(alloc, count, rest)?;
    if !rest.is_empty() {
        return Err(FrameError::Fault(FrameFault::TrailingBytes));
    }
    Ok(pairs)
}

// Whether the key is below each of the map's.
fn is_below(key: &[u8], pairs: &Pairs) -> bool
    ensures { result ≡ is_before key.now pairs.now.entries }
{
    match pairs.first_key_value() {
        Some((first, _)) => key.cmp(first.as_slice()).is_lt(),
        None => true,
    }
}

// The map of these pairs, if their keys rise. They go in from the last to the first, so that each
// is compared with the one behind it.
fn rising_pairs(alloc: Global, mut pairs: Vec<Pair>) -> Result<Option<Pairs>, AllocError>
    ensures { IfOk result (IsTreeOf (map plain_pair pairs.items)) }
{
    let mut rising = BTreeMap::new(alloc);
    while let Some(pair) = pairs.pop() {
        if !is_below(pair.key.as_slice(), &rising) {
            return Ok(None);
        }
        rising.insert(pair.key, pair.value)?;
    }
    Ok(Some(rising))
}

/// The map that bytes spell, and the empty one where they spell none (own). It fails for want of
/// memory alone.
pub(crate) fn pairs_in(alloc: Global, bytes: &[u8]) -> Result<Pairs, AllocError>
    ensures spelling { IfOk result (λ t. spelled_map (map_of t) ≡ restored bytes.now) }
    ensures within { IfOk result IsTreeWithin }
{
    let pairs = match whole_pairs(alloc, bytes) {
        Ok(pairs) => pairs,
        Err(FrameError::Memory) => return Err(AllocError),
        Err(_) => return Ok(BTreeMap::new(alloc)),
    };
    match rising_pairs(alloc, pairs)? {
        Some(pairs) => Ok(pairs),
        None => Ok(BTreeMap::new(alloc)),
    }
}

// ---- writing

/// The one spelling of a map: its count, and its pairs by rising key (own).
pub(crate) fn pairs_bytes(alloc: Global, pairs: &Pairs) -> Result<Vec<u8>, AllocError>
    requires { IsTreeWithin pairs.now }
    ensures { IfOk result (λ v. v.items ≡ spelled_map (map_of pairs.now)) }
{
    let mut out = Vec::new(alloc);
    put_count(&mut out, pairs.len())?;
    for (key, value) in pairs {
        put_text(&mut out, key.as_slice())?;
        put_text(&mut out, value.as_slice())?;
    }
    Ok(out)
}
