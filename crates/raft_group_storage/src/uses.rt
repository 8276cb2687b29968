//! What a client can say of any storage.
ghost use Rattle.std.specs.Prelude.{◌⊎◌, OnOk, OnErr, [], ◌∷◌};
ghost use Rattle.raft_group_step.specs.StoredGroup.{CutFrom, SetVote, StoredGroup, after_storing};
ghost use Rattle.std.specs.Result.{result_err};
ghost use Rattle.raft_group_storage.specs.Keeping.{KeepsOthers};

use crate::storage::GroupStorage;
use raft_state::Vote;

/// The vote is stored, and then the log cut from the place on (own). Where a call fails, the group
/// is as before, or has the vote, or has both, and one of the two failed so.
pub fn vote_and_cut<S: GroupStorage>(
    storage: &mut S,
    group: u64,
    vote: Vote<u64>,
    place: u64,
) -> Result<(), S::Fault>
    ensures ok { (s : StoredGroup) → S.is_well storage.old → S.shows storage.old group (s ∷ [])
        → OnOk result (S.shows storage.new group (after_storing (CutFrom place) (after_storing (SetVote vote) s) ∷ [])) }
    ensures err { (s : StoredGroup) → S.is_well storage.old → S.shows storage.old group (s ∷ [])
        → OnErr result (S.shows storage.new group (s ∷ after_storing (SetVote vote) s ∷ after_storing (CutFrom place) (after_storing (SetVote vote) s) ∷ [])) }
    ensures failed { (s : StoredGroup) → S.is_well storage.old → S.shows storage.old group (s ∷ [])
        → OnErr result (S.fails storage.new (SetVote vote) s ⊎ S.fails storage.new (CutFrom place) (after_storing (SetVote vote) s)) }
    ensures others { KeepsOthers (S.shows storage.old) (S.shows storage.new) group }
    ensures met { S.meets storage.old storage.new (result_err result) }
{
    storage.set_vote(group, vote)?;
    storage.cut_from(group, place)
}
