//! The ids and values of a progress, one by one.
ghost use Rattle.std.specs.Prelude.{◌≡◌, ◌++◌};
ghost use Rattle.std.specs.Iterator.{YieldsFirstRef, item_count};

use std::iter::FusedIterator;
use std::marker::Model;
use std::slice;

/// The ids with their values, voters first, then learners. It is seen as the list of what is left.
#[derive(Drop)]
pub struct Iter<'a, ID, V> {
    voters: slice::Iter<'a, (ID, V)>,
    learners: slice::Iter<'a, (ID, V)>,
}

impl<'a, ID, V> Model for Iter<'a, ID, V> {
    ghost use Rattle.std.specs.Prelude.{List, ◌++◌};
    ghost use Rattle.std.specs.Slice.Iter.{iter_rest};

    ghost Value = { List (ID × V) };

    ghost view = { λ a. iter_rest a.voters ++ iter_rest a.learners };
}

impl<'a, ID, V> Iter<'a, ID, V> {
    pub(crate) fn new(voters: &'a [(ID, V)], learners: &'a [(ID, V)]) -> Self
        ensures { result ≡ voters.now ++ learners.now }
    {
        Iter {
            voters: voters.iter(),
            learners: learners.iter(),
        }
    }
}

impl<'a, ID, V> Iterator for Iter<'a, ID, V> {
    type Item = &'a (ID, V);

    ghost next_gives = { YieldsFirstRef (λ s. s) };

    ghost remaining = { item_count (λ s. s) };

    fn next(&mut self) -> Option<&'a (ID, V)> {
        match self.voters.next() {
            Some(entry) => Some(entry),
            None => self.learners.next(),
        }
    }
}

impl<'a, ID, V> FusedIterator for Iter<'a, ID, V> {}
