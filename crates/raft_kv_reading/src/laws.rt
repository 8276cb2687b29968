//! What answers tell of a group's list: each a contract of a function without a body.
ghost use Rattle.std.specs.Prelude.{◌≡◌, ◌+◌, ◌<◌, ℕ, false, List, Some, None, take};
ghost use Rattle.std.specs.FinMap as finite;
ghost use Rattle.raft_group_step.specs.Values.{Entry};
ghost use Rattle.raft_machines.specs.Fold.{answer_at, fold_of};
ghost use Rattle.raft_kv.specs.Machine.{kv};
ghost use Rattle.raft_kv.specs.Map.{IsWithin, map_in, spelled_map};
ghost use Rattle.raft_kv_reading.specs.Answers.{AreKeysBefore, IsChange, IsRefusedByFullMap};
ghost use Rattle.raft_kv_reading.specs.Answers.{StaysBetween, TellsValue};
ghost use Rattle.raft_kv_reading.specs.Values.{Change, Key, change_on, is_refused, value_before};
ghost use Rattle.raft_kv_reading.specs.Values.{value_left};

/// The machine behind a front of any list spells a map within its limits, and each key has there
/// the value that the last put or drop of it left.
pub fn folds_hold_values()
    ensures values { (list : List Entry) (place : ℕ) (key : Key)
        → finite.get (map_in (fold_of kv (take place list))) key ≡ value_before list place key }
    ensures spelled { (list : List Entry) (place : ℕ)
        → fold_of kv (take place list) ≡ spelled_map (map_in (fold_of kv (take place list))) }
    ensures within { (list : List Entry) (place : ℕ)
        → IsWithin (map_in (fold_of kv (take place list))) }
{}

/// The machine's answer at a place of any list: to a get, the value before it.
pub fn answers_tell_values()
    ensures { (list : List Entry) (place : ℕ) → TellsValue list place (answer_at kv list place) }
{}

/// A key is changed by its own puts that weren't refused, and by its own drops.
pub fn changes_are_puts_and_drops()
    ensures only { (list : List Entry) (key : Key) (place : ℕ) (change : Change)
        → change_on list key place ≡ Some change → IsChange list key place change }
    ensures each { (list : List Entry) (key : Key) (place : ℕ) (change : Change)
        → IsChange list key place change → change_on list key place ≡ Some change }
{}

/// A key's value is what the last of its changes left; without any it has none.
pub fn values_are_the_last_changes()
    ensures none { (list : List Entry) (key : Key) (place : ℕ) → StaysBetween list key 0 place
        → value_before list place key ≡ None }
    ensures last { (list : List Entry) (key : Key) (place at : ℕ) (change : Change) → at < place
        → IsChange list key at change → StaysBetween list key (at + 1) place
        → value_before list place key ≡ value_left (Some change) }
{}

/// A put is refused just where 4,096 keys have a value and its own has none: never behind fewer
/// than 4,096 entries.
pub fn full_maps_refuse_puts()
    ensures full { (list : List Entry) (place : ℕ) → (keys : List Key)
        × AreKeysBefore list place keys × IsRefusedByFullMap list place keys }
    ensures few { (list : List Entry) (place : ℕ) → place < 4096
        → is_refused list place ≡ false }
{}
