//! Worlds of engines that read events and print what each left.
//!
//! `scripts/expected_worlds` writes both the events and what is to be printed, by a plain program
//! of the rules that was written from the definitions. A line of the input is one of:
//! - `world 1 2 3`: another world of these nodes, which have the group and nothing in it;
//! - an event: verb, node (`deliver`: number of the message), moment, after how many storing
//!   commands it stops, and what is asked for. Its answer is its number in its world, what became
//!   of it, the kinds of the messages that were sent with their addressees, and the checksum of a
//!   text: these messages, and all nodes with what they have stored;
//!   `next` delivers the next message in its turn, and `lead` elects where the node doesn't lead;
//! - `list`: how many entries the group's list has, and the checksum of their text;
//! - `last`: what the list's last entry asks for;
//! - `hostile 1 2 3`: another world, to whose nodes any message may come, and any set-up. There
//!   `receive` hands a node a message that may be a lie, in the words in which messages are printed;
//! - `show`: the text of which the last answer has the checksum alone;
//! - `patient 1 2 3`: another world, whose events have no answer. One that finds no memory stops,
//!   its node is down, all else is as it was, and once the node is opened again the run goes on. So
//!   it prints the same where one allocation is refused (`rt try --fail-alloc N`).
#![tactic(auto)]

mod answers;
mod entry_texts;
mod fault;
mod hostile;
mod message_reading;
mod message_texts;
mod nodes;
mod patience;
mod reading;
mod values;
mod world_texts;

use answers::Answering;
use fault::Fault;

fn main(rt: HostRuntime) -> Result<(), Fault> {
    let mut answering = Answering::new(rt.alloc())?;
    for line in rt.lines(rt.alloc()) {
        let line = line?;
        match answering.answer(line.as_str()) {
            Ok(()) => rt.print(answering.told())?,
            Err(fault) => println!(rt; "{line}: {fault:?}")?,
        }
    }
    Ok(())
}
