//! A key-value machine, whose commands are raft_wire's.
#![tactic(auto)]

mod laws;
mod machine;
mod pairs;
mod rows;

pub use laws::{
    commands_and_snapshots_are_short, full_maps_take_no_new_key, gets_change_nothing,
    gets_tell_the_last_change, other_bytes_change_nothing, other_keys_stay,
    spellings_are_one_to_one, states_spell_maps,
};
pub use machine::KvMachine;
pub use pairs::MAX_KEYS;
pub use raft_wire::{KvCommand, MAX_KEY_BYTES, MAX_VALUE_BYTES, read_kv, write_kv};
pub use rows::{
    answers_of_one_key, commands_of_bytes, faults_of_commands, puts_into_a_full_map,
    restored_bytes, snapshots_of_pairs, unknown_commands,
};
