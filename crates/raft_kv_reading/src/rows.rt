//! Worked values and answers on small lists: each a contract of a function without a body.
ghost use Rattle.std.specs.Prelude.{◌≡◌, true, [], ◌∷◌, Some, None, codes};
ghost use Rattle.raft_machines.specs.Fold.{answer_at};
ghost use Rattle.raft_kv.specs.Machine.{kv};
ghost use Rattle.raft_kv.specs.Rows.{key_of, put_apple};
ghost use Rattle.raft_kv_reading.specs.Rows.{apple, behind_full, letter_b, put_seven, two_keys};
ghost use Rattle.raft_kv_reading.specs.Values.{is_refused, value_before};

/// Values of two keys before places of one list: of puts, a second put, a drop, and a put again.
pub fn values_of_two_keys()
    ensures first { value_before two_keys 0 apple ≡ None }
    ensures before_put { value_before two_keys 1 apple ≡ None }
    ensures behind_put { value_before two_keys 2 apple ≡ Some (codes "red") }
    ensures other_put { value_before two_keys 3 apple ≡ Some (codes "red") }
    ensures second_put { value_before two_keys 4 apple ≡ Some (codes "green") }
    ensures before_drop { value_before two_keys 6 apple ≡ Some (codes "green") }
    ensures behind_drop { value_before two_keys 7 apple ≡ None }
    ensures put_again { value_before two_keys 10 apple ≡ Some (codes "red") }
    ensures other_key { value_before two_keys 11 letter_b ≡ Some (codes "2") }
{}

/// Answers at the places of this list: a get before any put, puts, a get, a drop, gets behind it, a
/// blank, and bytes that are no command.
pub fn answers_of_two_keys()
    ensures first_get { answer_at kv two_keys 0 ≡ 0 ∷ [] }
    ensures put { answer_at kv two_keys 1 ≡ 0 ∷ [] }
    ensures put_again { answer_at kv two_keys 3 ≡ 1 ∷ codes "red" }
    ensures get { answer_at kv two_keys 4 ≡ 1 ∷ codes "green" }
    ensures blank { answer_at kv two_keys 5 ≡ [] }
    ensures drop { answer_at kv two_keys 6 ≡ 1 ∷ codes "green" }
    ensures get_behind { answer_at kv two_keys 7 ≡ 0 ∷ [] }
    ensures get_other { answer_at kv two_keys 8 ≡ 1 ∷ codes "2" }
    ensures no_command { answer_at kv two_keys 10 ≡ [] }
{}

/// A put behind puts of 4,096 keys: of a new key, and of one of these.
pub fn puts_into_a_full_list()
    ensures new_key { is_refused (behind_full put_apple) 4096 ≡ true }
    ensures no_value { value_before (behind_full put_apple) 4097 apple ≡ None }
    ensures known_key { value_before (behind_full put_seven) 4097 (key_of 7)
        ≡ Some (codes "red") }
{}
