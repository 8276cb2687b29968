//! Places of a group's list along its histories, as a contract of a function without a body.
//!
//! A history begins with nodes that know of no group. It has any number of events in any order, messages that come
//! late, again or never, crashes, restarts, and stops inside events after any number of storing commands.

ghost use Rattle.raft_laws.specs.LowPlaces.{PlacesAreLow};

/// No node, up or down, has stored an entry at a place past the limit of all numbers: the place after its log's last
/// entry is at most 2^62. So a place, and the one after it, fits into 64 bits.
pub fn places_of_runs_are_low()
    ensures { PlacesAreLow }
{}
