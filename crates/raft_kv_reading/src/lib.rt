//! What a told answer of the key-value machine is worth: the value that the last put or drop left.
#![tactic(auto)]

mod laws;
mod reading;
mod rows;
mod told;

pub use laws::{
    answers_tell_values, changes_are_puts_and_drops, folds_hold_values, full_maps_refuse_puts,
    values_are_the_last_changes,
};
pub use reading::{value_in_machine, value_of_told_get, was_put_refused};
pub use rows::{answers_of_two_keys, puts_into_a_full_list, values_of_two_keys};
pub use told::told_gets_tell_values;
