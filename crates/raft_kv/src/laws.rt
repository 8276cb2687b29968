//! What holds of commands and of their steps on maps: each a contract of a function without a body.
ghost use Rattle.std.specs.Prelude.{◌≡◌, ◌≢◌, ◌<◌, ◌≤◌, ℕ, false, List, [], ◌∷◌, length, Some, None};
ghost use Rattle.std.specs.FinMap as finite;
ghost use Rattle.raft_bytes.specs.Bytes.{AreBytes};
ghost use Rattle.raft_wire.specs.declared.kv.KvCommand.{KvCommand as KvCommandOf};
ghost use Rattle.raft_wire.specs.declared.kv.KvCommand.TheVariants.{Put, Get, Drop};
ghost use Rattle.raft_wire.specs.Kv.{FitsCommand, spelled_command};
ghost use Rattle.raft_kv.specs.Machine.{after_command, answer_to, is_full_for, kv, state_of};
ghost use Rattle.raft_kv.specs.Map.{IsWithin, Map, spelled_map};

/// A state is the spelling of a map within its limits: a command's bytes step it as the command steps
/// the map, and are answered so.
pub fn states_spell_maps()
    ensures first { kv.first ≡ spelled_map finite.empty }
    ensures empty { IsWithin finite.empty }
    ensures within { (m : Map) (c : KvCommandOf) → IsWithin m → FitsCommand c
        → IsWithin (after_command m c) }
    ensures step { (m : Map) (place : ℕ) (c : KvCommandOf) → IsWithin m → FitsCommand c
        → kv.step (spelled_map m) place (spelled_command c) ≡ spelled_map (after_command m c) }
    ensures answer { (m : Map) (place : ℕ) (c : KvCommandOf) → IsWithin m → FitsCommand c
        → kv.answer (spelled_map m) place (spelled_command c) ≡ answer_to m c }
    // A machine's state is the spelling of its map, which a snapshot restores.
    ensures state { (m : Map) → IsWithin m → state_of m ≡ spelled_map m }
    ensures restored { (m : Map) → IsWithin m → kv.restored (kv.snapshot (state_of m)) ≡ state_of m }
{}

/// No two commands within their limits are spelled alike, and no two maps.
pub fn spellings_are_one_to_one()
    ensures commands { (c d : KvCommandOf) → FitsCommand c → FitsCommand d
        → spelled_command c ≡ spelled_command d → c ≡ d }
    ensures maps { (m n : Map) → IsWithin m → IsWithin n → spelled_map m ≡ spelled_map n → m ≡ n }
{}

/// Bytes that spell no command change nothing, and are answered by no bytes.
pub fn other_bytes_change_nothing()
    ensures step { (state bytes : List ℕ) (place : ℕ) → AreBytes bytes
        → ((c : KvCommandOf) → FitsCommand c → bytes ≢ spelled_command c)
        → kv.step state place bytes ≡ state }
    ensures answer { (state bytes : List ℕ) (place : ℕ) → AreBytes bytes
        → ((c : KvCommandOf) → FitsCommand c → bytes ≢ spelled_command c)
        → kv.answer state place bytes ≡ [] }
{}

/// A get changes nothing.
pub fn gets_change_nothing()
    ensures { (m : Map) (key : List ℕ) → after_command m (Get key) ≡ m }
{}

/// A get behind a put of the same key answers that value, and behind a drop that there is none.
pub fn gets_tell_the_last_change()
    ensures put { (m : Map) (key value : List ℕ) → is_full_for m key ≡ false
        → answer_to (after_command m (Put key value)) (Get key) ≡ 1 ∷ value }
    ensures drop { (m : Map) (key : List ℕ)
        → answer_to (after_command m (Drop key)) (Get key) ≡ 0 ∷ [] }
{}

/// A put and a drop leave the values of other keys.
pub fn other_keys_stay()
    ensures put { (m : Map) (key value other : List ℕ) → other ≢ key
        → finite.get (after_command m (Put key value)) other ≡ finite.get m other }
    ensures drop { (m : Map) (key other : List ℕ) → other ≢ key
        → finite.get (after_command m (Drop key)) other ≡ finite.get m other }
{}

/// How many bytes commands and snapshots have at most: both are well below what a group takes.
pub fn commands_and_snapshots_are_short()
    ensures command { (c : KvCommandOf) → FitsCommand c → length (spelled_command c) ≤ 463 }
    ensures snapshot { (m : Map) → IsWithin m → length (spelled_map m) ≤ 1892356 }
{}

/// A put of a new key into a full map changes nothing, and is answered by 2. A key that a full map has
/// gets its new value, and in a map that isn't full there is a place for each key.
pub fn full_maps_take_no_new_key()
    ensures unchanged { (m : Map) (key value : List ℕ) → finite.len m ≡ 4096
        → finite.get m key ≡ None → after_command m (Put key value) ≡ m }
    ensures answer { (m : Map) (key value : List ℕ) → finite.len m ≡ 4096
        → finite.get m key ≡ None → answer_to m (Put key value) ≡ 2 ∷ [] }
    ensures there { (m : Map) (key value old : List ℕ) → finite.get m key ≡ Some old
        → is_full_for m key ≡ false }
    ensures room { (m : Map) (key : List ℕ) → finite.len m < 4096 → is_full_for m key ≡ false }
{}
