//! Frames go behind those of their group.
ghost use Rattle.std.specs.Prelude.{◌≡◌, ◌++◌, length, IfOk, OnOk, OnErr};
ghost use Rattle.raft_sent_frames.specs.Frames.{numbers_from, sent_by, HasFront};

use crate::frame::{NodeFrame, SentFrame, SentNumber};
use crate::sequence::Sequence;
use std::alloc::{AllocError, Global};

// The frames go behind the others, and their numbers are noted. An `Err` may leave some of them.
fn push_all(
    list: &mut Sequence<SentFrame>,
    numbers: &mut Sequence<SentNumber>,
    sender: u64,
    frames: Sequence<NodeFrame>,
) -> Result<(), AllocError>
    ensures list { OnOk result (list.new ≡ list.old ++ sent_by sender frames) }
    ensures numbers { OnOk result (numbers.new ≡ numbers.old ++ numbers_from (length list.old) frames) }
    ensures front { OnErr result (HasFront list.old list.new) }
{
    for NodeFrame {
        peer,
        bytes,
        accepts,
    } in frames.into_vec() {
        let number = list.len() as u64;
        numbers.push(SentNumber { peer, number })?;
        list.push(SentFrame {
            sender,
            peer,
            bytes,
            accepts,
        })?;
    }
    Ok(())
}

/// The frames of this sender go behind the others, and their numbers are answered. An `Err` is want
/// of memory, and leaves the list as it was.
pub fn send_to(
    alloc: Global,
    list: &mut Sequence<SentFrame>,
    sender: u64,
    frames: Sequence<NodeFrame>,
) -> Result<Sequence<SentNumber>, AllocError>
    ensures numbers { IfOk result (λ numbers. numbers ≡ numbers_from (length list.old) frames) }
    ensures ok { OnOk result (list.new ≡ list.old ++ sent_by sender frames) }
    ensures err { OnErr result (list.new ≡ list.old) }
{
    let before = list.len();
    let mut numbers = Sequence::new(alloc);
    match push_all(list, &mut numbers, sender, frames) {
        Ok(()) => Ok(numbers),
        Err(refused) => {
            list.truncate(before);
            Err(refused)
        }
    }
}
