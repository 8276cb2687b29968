//! What a client reads: answers that it was told, and machines that nodes lend.
ghost use Rattle.std.specs.Prelude.{◌≡◌, ℕ, List, Some, take, option_map};
ghost use Rattle.raft_group_step.specs.Values.{Entry};
ghost use Rattle.raft_machines.specs.Fold.{answer_at, fold_of};
ghost use Rattle.raft_wire.specs.declared.kv.KvCommand.TheVariants.{Get};
ghost use Rattle.raft_kv.specs.Machine.{kv, state_of};
ghost use Rattle.raft_kv_reading.specs.Answers.{value_in};
ghost use Rattle.raft_kv_reading.specs.Values.{Key, command_on, is_refused, value_before};

use raft_kv::KvMachine;
use raft_machines::Told;

// The value that an answer tells, lent.
fn value_in(answer: &[u8]) -> Option<&[u8]>
    ensures { option_map (λ v. v.now) result ≡ value_in answer.now }
{
    match answer {
        [1, value @ ..] => Some(value),
        _ => None,
    }
}

/// The value that a told get answers, lent: none where the answer is the byte 0, else what stands
/// behind the byte 1. Where the told place of a list has a get of a key, and the answer is the
/// machine's there, that is what the last put or drop of the key before the place left.
pub fn value_of_told_get(told: &Told) -> Option<&[u8]>
    ensures { (list : List Entry) (key : Key) → told.now.answer ≡ answer_at kv list told.now.place
        → command_on list told.now.place ≡ Some (Get key)
        → option_map (λ v. v.now) result ≡ value_before list told.now.place key }
{
    value_in(told.answer.as_slice())
}

/// Whether a told put was refused, since the map was full and its key new: the answer is the
/// byte 2.
pub fn was_put_refused(told: &Told) -> bool
    ensures { (list : List Entry) → told.now.answer ≡ answer_at kv list told.now.place
        → result ≡ is_refused list told.now.place }
{
    matches!(told.answer.as_slice(), [2])
}

/// A key's value in a machine that a node lends, itself lent. Where the machine is the fold of a
/// front of a list, that is what the last put or drop of the key in this front left.
pub fn value_in_machine<'a>(machine: &'a KvMachine, key: &[u8]) -> Option<&'a [u8]>
    ensures { (list : List Entry) (place : ℕ) → state_of machine.now ≡ fold_of kv (take place list)
        → option_map (λ v. v.now) result ≡ value_before list place key.now }
{
    // A machine's map is within its limits.
    let _count = machine.len();
    machine.get(key)
}
