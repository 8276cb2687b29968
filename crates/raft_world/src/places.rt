//! Where a member stands among the others.
ghost use Rattle.std.specs.Prelude.{◌≡◌, ◌<◌, ◌==◌, IfSome, length};
ghost use Rattle.std.specs.List.{position_from};
ghost use Rattle.raft_world.specs.World.{IsPlaceOf};
ghost use Rattle.raft_world.specs.declared.member.Member.{Member as AMember};

use crate::member::Member;

// The position of the first member with the id, if there is one.
fn position_of(members: &[Member], id: u64) -> Option<usize>
    ensures { result ≡ position_from (λ (m : AMember). m.replica.id == id) 0 members.now }
{
    members.iter().position(|member| member.replica.id == id)
}

// The place of the first member with the id, if there is one.
pub(crate) fn place_of(members: &[Member], id: u64) -> Option<usize>
    ensures place { IsPlaceOf members.now id result }
    ensures within { IfSome result (λ place. place < length members.now) }
{
    position_of(members, id)
}
