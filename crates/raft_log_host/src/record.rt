//! The calls that were made of the system, as a list that only clauses read.
ghost use Rattle.std.specs.Prelude.{◌≡◌, List, [], ◌∷◌};
ghost use Rattle.std.specs.Borrow.{ftrue};
ghost use Rattle.raft_log_host.specs.Calls.{Note};

use std::marker::{Model, PhantomData};

#[derive(Drop)]
pub struct Record {
    marker: PhantomData<u8>,
    pub ghost events: { List Note },
}

impl Model for Record {
    ghost also_owns = { λ _. ftrue };
}

impl Record {
    pub(crate) fn new() -> Record
        ensures { result.events ≡ [] }
    {
        Record {
            marker: PhantomData,
        }
    }

    /// The numbers are a call's code, a file's number, a place, a length, and 1 for success.
    pub(crate) fn note(&mut self, _numbers: &[u64], _bytes: &[u8], _more: &[u8])
        ensures { self.new.events ≡ (_numbers.now, (_bytes.now, _more.now)) ∷ self.old.events }
    {}
}
