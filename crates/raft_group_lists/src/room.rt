//! Memory that is found before it is needed.
ghost use Rattle.std.specs.Prelude.{◌≡◌, ◌≤◌, ℕ, length, OnOk};
ghost use Rattle.raft_group_lists.specs.Room.{AreSpares, AreWider, EachHasSpace, EachHolds};

use crate::notes::{Lead, Reached};
use std::alloc::{AllocError, Global};

// So many nodes fit in each vector that is kept for a new vote. An `Err` is want of memory, and loses no room.
fn widen_spares(spares: &mut Vec<Vec<Reached>>, count: usize) -> Result<(), AllocError>
    requires { AreSpares spares.old.items }
    ensures spares { AreSpares spares.new.items }
    ensures ok { OnOk result (EachHolds spares.new.items count) }
    ensures size { length spares.new.items ≡ length spares.old.items }
    ensures holds { (n : ℕ) → EachHolds spares.old.items n → EachHolds spares.new.items n }
{
    let mut at = 0;
    while at < spares.len() {
        spares[at].reserve(count)?;
        at += 1;
    }
    Ok(())
}

// So many vectors are kept for new votes at least; so many nodes fit in each that is new. An `Err` is want of memory, and loses
// no room.
fn add_spares(alloc: Global, spares: &mut Vec<Vec<Reached>>, count: usize) -> Result<(), AllocError>
    requires { AreSpares spares.old.items }
    ensures spares { AreSpares spares.new.items }
    ensures ok { OnOk result (count ≤ length spares.new.items) }
    ensures keeps { length spares.old.items ≤ length spares.new.items }
    ensures wide { EachHolds spares.old.items count → EachHolds spares.new.items count }
    ensures holds { (n : ℕ) → n ≤ length spares.old.items → EachHolds spares.old.items n → EachHolds spares.new.items n }
{
    while spares.len() < count {
        let spare = Vec::with_capacity(alloc, count)?;
        spares.push(spare)?;
    }
    Ok(())
}

// So many vectors are kept for new votes, and so many nodes fit in each. An `Err` is want of memory, and loses no room.
pub(crate) fn make_spares(
    alloc: Global,
    spares: &mut Vec<Vec<Reached>>,
    count: usize,
) -> Result<(), AllocError>
    requires { AreSpares spares.old.items }
    ensures spares { AreSpares spares.new.items }
    ensures ok { OnOk result (count ≤ length spares.new.items) }
    ensures wide { OnOk result (EachHolds spares.new.items count) }
    ensures keeps { length spares.old.items ≤ length spares.new.items }
    ensures holds { (n : ℕ) → n ≤ length spares.old.items → EachHolds spares.old.items n → EachHolds spares.new.items n }
{
    widen_spares(spares, count)?;
    add_spares(alloc, spares, count)
}

// Under each vote so many nodes more fit. An `Err` is want of memory, and loses no room.
pub(crate) fn widen(leads: &mut [Lead], count: usize) -> Result<(), AllocError>
    ensures wider { AreWider leads.old leads.new }
    ensures ok { OnOk result (EachHasSpace leads.new count) }
{
    let mut at = 0;
    while at < leads.len() {
        leads[at].reached.reserve(count)?;
        at += 1;
    }
    Ok(())
}
