//! Tokens that wait are named with their groups.
ghost use Rattle.std.specs.Prelude.{◌≡◌, ◌≤◌, ◌<◌, ◌+◌, ◌++◌, ◌∷◌, [], vec_len, vec_capacity};
ghost use Rattle.std.specs.Ordering.{nat_cmp};
ghost use Rattle.std.specs.BTreeMap.{IsOrdered, btree_map_len};
ghost use Rattle.raft_node.specs.Waiting.{named_in, waiting_in};

use raft_applier::Applier;
use raft_machines::{StateMachine, UnknownTokens};
use std::collections::BTreeMap;

// The list with one item more, for which there is a place.
pub(crate) fn with_one<T: Drop>(mut items: Vec<T>, item: T) -> Vec<T>
    requires { vec_len items < vec_capacity items }
    ensures { result.items ≡ items.items ++ item ∷ [] }
{
    let _ = items.push(item);
    items
}

// The tokens that wait, each with its group, by rising group. The places were made as the groups came,
// so this takes no memory, and one place more is left.
pub(crate) fn waiting_tokens<M: StateMachine>(
    mut places: Vec<UnknownTokens>,
    appliers: BTreeMap<u64, Applier<M>>,
) -> Vec<UnknownTokens>
    requires free { vec_len places ≡ 0 }
    requires suffice { btree_map_len appliers + 1 ≤ vec_capacity places }
    ensures named { named_in result.items ≡ waiting_in appliers.entries }
    ensures left { vec_len result + 1 ≤ vec_capacity result }
    ensures ordered { IsOrdered nat_cmp appliers }
{
    let _count = appliers.len();
    for (group, applier) in appliers {
        let tokens = applier.applied.waiting.into_vec();
        let _ = places.push(UnknownTokens { group, tokens });
    }
    places
}
