//! Worked values of commands, answers and snapshots: each a contract of a function without a body.
ghost use Rattle.std.specs.Prelude.{◌≡◌, ℕ, List, [], ◌∷◌, ◌++◌, Some, None, Ok, Err, codes};
ghost use Rattle.std.specs.FinMap as finite;
ghost use Rattle.raft_wire.specs.declared.error.FrameFault.TheVariants as fault;
ghost use Rattle.raft_wire.specs.Reader.{all_of};
ghost use Rattle.raft_wire.specs.declared.kv.KvCommand.TheVariants.{Put, Get, Drop};
ghost use Rattle.raft_wire.specs.Kv.{command_at, fault_of_command};
ghost use Rattle.raft_kv.specs.Machine.{answer_to, kv};
ghost use Rattle.raft_kv.specs.Map.{IsWithin, spelled_map};
ghost use Rattle.raft_kv.specs.Rows.{after_drop, after_get, after_put, behind, drop_apple};
ghost use Rattle.raft_kv.specs.Rows.{get_apple, key_of, letters, no_pairs, numbers_below};
ghost use Rattle.raft_kv.specs.Rows.{pair_a, pair_b, put_a, put_apple, put_b};

/// A put, a get, a drop and a get of one key, from the empty map on.
pub fn answers_of_one_key()
    ensures put { kv.answer kv.first 0 put_apple ≡ 0 ∷ [] }
    ensures get { kv.answer after_put 1 get_apple ≡ 1 ∷ codes "red" }
    ensures drop { kv.answer after_get 2 drop_apple ≡ 1 ∷ codes "red" }
    ensures again { kv.answer after_drop 3 get_apple ≡ 0 ∷ [] }
{}

/// What bytes are read as. A key has up to 255 bytes, a value up to 199, and each at least one.
pub fn commands_of_bytes()
    ensures put { all_of command_at put_apple ≡ Ok (Put (codes "apple") (codes "red")) }
    ensures get { all_of command_at get_apple ≡ Ok (Get (codes "apple")) }
    ensures drop { all_of command_at drop_apple ≡ Ok (Drop (codes "apple")) }
    ensures key_of_255 { all_of command_at (2 ∷ behind 255 (letters 255)) ≡ Ok (Get (letters 255)) }
    ensures key_of_256 { all_of command_at (2 ∷ 0 ∷ 0 ∷ 1 ∷ 0 ∷ letters 256) ≡ Err fault.TooLong }
    ensures value_of_199 { all_of command_at (1 ∷ (behind 1 (letters 1) ++ behind 199 (letters 199)))
        ≡ Ok (Put (letters 1) (letters 199)) }
    ensures value_of_200 { all_of command_at (1 ∷ (behind 1 (letters 1) ++ behind 200 (letters 200)))
        ≡ Err fault.TooLong }
    ensures key_of_none { all_of command_at (2 ∷ behind 0 []) ≡ Err fault.CutShort }
    ensures cut { all_of command_at (2 ∷ behind 2 (letters 1)) ≡ Err fault.CutShort }
    ensures no_value { all_of command_at (1 ∷ behind 1 (letters 1)) ≡ Err fault.CutShort }
    ensures nothing { all_of command_at [] ≡ Err fault.CutShort }
    ensures tag_0 { all_of command_at (0 ∷ behind 1 (letters 1)) ≡ Err fault.BadTag }
    ensures tag_4 { all_of command_at (4 ∷ behind 1 (letters 1)) ≡ Err fault.BadTag }
    ensures more { all_of command_at (2 ∷ behind 1 (letters 2)) ≡ Err fault.TrailingBytes }
{}

/// What is wrong with commands that are to be written: the key's fault first.
pub fn faults_of_commands()
    ensures none { fault_of_command (Put (letters 255) (letters 199)) ≡ None }
    ensures key_of_256 { fault_of_command (Get (letters 256)) ≡ Some fault.TooLong }
    ensures key_of_none { fault_of_command (Drop []) ≡ Some fault.CutShort }
    ensures value_of_200 { fault_of_command (Put (letters 1) (letters 200)) ≡ Some fault.TooLong }
    ensures value_of_none { fault_of_command (Put (letters 1) []) ≡ Some fault.CutShort }
    ensures both { fault_of_command (Put [] (letters 200)) ≡ Some fault.CutShort }
{}

/// Bytes that are no command, in any state.
#[tactic(auto, unfolding(raft_wire::specs::Kv::command_at, raft_wire::specs::Reader::all_of))]
pub fn unknown_commands()
    ensures step { (state : List ℕ) → kv.step state 0 (9 ∷ codes "apple") ≡ state }
    ensures answer { (state : List ℕ) → kv.answer state 0 (9 ∷ codes "apple") ≡ [] }
    ensures nothing { (state : List ℕ) → kv.step state 0 [] ≡ state }
{}

/// A put into a map of 4,096 keys: of a new key, and of one that it has.
pub fn puts_into_a_full_map()
    ensures full { finite.len (numbers_below 4096) ≡ 4096 }
    ensures within { IsWithin (numbers_below 4096) }
    ensures new_key { kv.answer (spelled_map (numbers_below 4096)) 0 put_apple ≡ 2 ∷ [] }
    ensures unchanged { kv.step (spelled_map (numbers_below 4096)) 0 put_apple
        ≡ spelled_map (numbers_below 4096) }
    ensures known_key { answer_to (numbers_below 4096) (Put (key_of 7) (codes "red")) ≡ 1 ∷ 1 ∷ [] }
{}

/// The snapshots of no pair, and of two pairs that were put in falling order.
pub fn snapshots_of_pairs()
    ensures none { kv.snapshot kv.first ≡ no_pairs }
    ensures two { kv.snapshot (kv.step (kv.step kv.first 0 put_b) 1 put_a)
        ≡ 0 ∷ 0 ∷ 0 ∷ 2 ∷ (pair_a ++ pair_b) }
{}

/// What bytes restore: pairs by rising key, and else the empty map.
pub fn restored_bytes()
    ensures two { kv.restored (0 ∷ 0 ∷ 0 ∷ 2 ∷ (pair_a ++ pair_b)) ≡ 0 ∷ 0 ∷ 0 ∷ 2 ∷ (pair_a ++ pair_b) }
    ensures falling { kv.restored (0 ∷ 0 ∷ 0 ∷ 2 ∷ (pair_b ++ pair_a)) ≡ no_pairs }
    ensures twice { kv.restored (0 ∷ 0 ∷ 0 ∷ 2 ∷ (pair_a ++ pair_a)) ≡ no_pairs }
    ensures fewer { kv.restored (0 ∷ 0 ∷ 0 ∷ 1 ∷ (pair_a ++ pair_b)) ≡ no_pairs }
    ensures more { kv.restored (0 ∷ 0 ∷ 0 ∷ 3 ∷ (pair_a ++ pair_b)) ≡ no_pairs }
    ensures many { kv.restored (0 ∷ 0 ∷ 16 ∷ 1 ∷ pair_a) ≡ no_pairs }
    ensures nothing { kv.restored [] ≡ no_pairs }
{}
