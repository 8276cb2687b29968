//! Values beside ids, in a list.
ghost use Rattle.std.specs.Prelude.{◌≡◌, ◌<◌, true, false, length, Some, None, IfSome, IfNone, IfOk, map, is_some, slice_set, slice_index_or};
ghost use Rattle.std.specs.List.{IsDistinct, position};
ghost use Rattle.std.specs.Option.{option_copied};
ghost use Rattle.raft_quorums.specs.Nodes.{has_node};
ghost use Rattle.raft_progress.specs.Parts.{ids_of};
ghost use Rattle.raft_progress.specs.Values.{value_at, with_value};

use raft_values::NodeId;
use std::alloc::{AllocError, Global};

fn first_place<ID: NodeId, V>(entries: &[(ID, V)], id: &ID) -> Option<usize>
    ensures { result ≡ position (λ x. ID.eq x.0 id.now) entries.now }
{
    entries.iter().position(|entry| entry.0 == *id)
}

// The index of the id.
pub(crate) fn place<ID: NodeId, V>(entries: &[(ID, V)], id: &ID) -> Option<usize>
    ensures has { has_node ID.eq entries.now id.now ≡ is_some result }
    ensures within { IfSome result (λ at. at < length entries.now) }
    ensures value { IfSome result (λ at. (x : ID × V) → value_at ID.eq entries.now id.now ≡ Some (slice_index_or entries.now at x).1) }
    ensures with_value { IfSome result (λ at. (x : ID × V) (v : V) → with_value ID.eq entries.now id.now v ≡ slice_set entries.now at ((slice_index_or entries.now at x).0, v)) }
    ensures without { IfNone result ((v : V) → with_value ID.eq entries.now id.now v ≡ entries.now) }
{
    match first_place(entries, id) {
        Some(at) => Some(at),
        None => None,
    }
}

// The same among distinct ids. It is found by halving where the ids rise, and else one by one.
pub(crate) fn distinct_place<ID: NodeId, V>(entries: &[(ID, V)], id: &ID) -> Option<usize>
    requires { IsDistinct ID.eq (ids_of entries.now) }
    ensures has { has_node ID.eq entries.now id.now ≡ is_some result }
    ensures within { IfSome result (λ at. at < length entries.now) }
    ensures value { IfSome result (λ at. (x : ID × V) → value_at ID.eq entries.now id.now ≡ Some (slice_index_or entries.now at x).1) }
    ensures with_value { IfSome result (λ at. (x : ID × V) (v : V) → with_value ID.eq entries.now id.now v ≡ slice_set entries.now at ((slice_index_or entries.now at x).0, v)) }
    ensures without { IfNone result ((v : V) → with_value ID.eq entries.now id.now v ≡ entries.now) }
{
    match entries.binary_search_by_key(id, |entry| entry.0) {
        Ok(at) => Some(at),
        Err(_) => place(entries, id),
    }
}

// These ids, each with the value.
pub(crate) fn beside<ID: NodeId, V: Copy>(
    alloc: Global,
    ids: &[ID],
    value: V,
) -> Result<Vec<(ID, V)>, AllocError>
    ensures { IfOk result (λ entries. entries.items ≡ map (λ id. (id, value)) ids.now) }
{
    let mut entries = Vec::new(alloc);
    for id in ids {
        entries.push((*id, value))?;
    }
    Ok(entries)
}

// The value of the id.
pub(crate) fn value_in<'a, ID: NodeId, V>(entries: &'a [(ID, V)], id: &ID) -> Option<&'a V>
    ensures { option_copied result ≡ value_at ID.eq entries.now id.now }
{
    for entry in entries {
        if entry.0 == *id {
            return Some(&entry.1);
        }
    }
    None
}

// Sets the value of the id, and says whether it is there.
pub(crate) fn set_value<ID: NodeId, V: Copy>(entries: &mut [(ID, V)], id: &ID, value: V) -> bool
    ensures there { result ≡ has_node ID.eq entries.old id.now }
    ensures entries { entries.new ≡ with_value ID.eq entries.old id.now value }
{
    match place(entries, id) {
        Some(at) => {
            let (same_id, _) = entries[at];
            entries[at] = (same_id, value);
            true
        }
        None => false,
    }
}
