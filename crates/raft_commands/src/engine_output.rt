//! The queue of what the runtime is to do.
ghost use Rattle.std.specs.Prelude.{◌≡◌, ◌++◌, ◌∷◌, [], OnOk, OnErr, IsTrue, ◌↔◌, MatchOption, drop};
ghost use Rattle.std.specs.Iterator.{YieldsFirstRef, item_count};
ghost use Rattle.raft_commands.specs.Output.{following_seq};

use crate::command::Command;
use crate::type_config::RaftTypeConfig;
use std::alloc::{AllocError, Global};
use std::collections::{VecDeque, vec_deque};
use std::marker::Model;

/// What the runtime is to do, in its order, and the last number that a command of the state
/// machine got (openraft). Contracts see a list and a number.
#[derive(Drop)]
pub struct EngineOutput<C: RaftTypeConfig> {
    last_sm_seq: u64,
    commands: VecDeque<Command<C>>,
}

impl<C: RaftTypeConfig> Model for EngineOutput<C> {
    ghost use Rattle.raft_commands.specs.Output.{Output};

    ghost Value = { Output C C.D C.R C.NodeId C.Node };

    ghost view = { λ o. record { queue = o.commands.items; last_sm_seq = o.last_sm_seq } };
}

impl<C: RaftTypeConfig> EngineOutput<C> {
    /// An empty queue, before the first number. Takes no memory.
    pub fn new(alloc: Global) -> EngineOutput<C>
        ensures { result ≡ record { queue = []; last_sm_seq = 0 } }
    {
        EngineOutput {
            last_sm_seq: 0,
            commands: VecDeque::new(alloc),
        }
    }

    /// The next number for a command of the state machine; 0 comes after the greatest.
    pub fn next_sm_seq(&mut self) -> u64
        ensures value { result ≡ following_seq self.old.last_sm_seq }
        ensures rest { self.new ≡ record self.old { last_sm_seq = following_seq self.old.last_sm_seq } }
    {
        self.last_sm_seq = self.last_sm_seq.wrapping_add(1);
        self.last_sm_seq
    }

    /// The last number that a command of the state machine got; 0 before the first.
    pub fn last_sm_seq(&self) -> u64
        ensures { result ≡ self.now.last_sm_seq }
    {
        self.last_sm_seq
    }

    /// Puts a command behind the others. Without memory the queue stays.
    pub fn push_command(&mut self, command: Command<C>) -> Result<(), AllocError>
        ensures ok { OnOk result (self.new ≡ record self.old { queue = self.old.queue ++ command ∷ [] }) }
        ensures err { OnErr result (self.new ≡ self.old) }
    {
        self.commands.push_back(command)?;
        Ok(())
    }

    /// Puts a command back in front of the others. Without memory the queue stays.
    pub fn postpone_command(&mut self, command: Command<C>) -> Result<(), AllocError>
        ensures ok { OnOk result (self.new ≡ record self.old { queue = command ∷ self.old.queue }) }
        ensures err { OnErr result (self.new ≡ self.old) }
    {
        self.commands.push_front(command)?;
        Ok(())
    }

    /// Takes the first command, if there is one.
    pub fn pop_command(&mut self) -> Option<Command<C>>
        ensures value { MatchOption result (self.old.queue ≡ []) (λ command. self.old.queue ≡ command ∷ self.new.queue) }
        ensures rest { self.new ≡ record self.old { queue = drop 1 self.old.queue } }
    {
        self.commands.pop_front()
    }

    /// The commands in their order, lent.
    pub fn iter_commands(&self) -> Iter<'_, C>
        ensures { result ≡ self.now.queue }
    {
        Iter {
            commands: self.commands.iter(),
        }
    }

    /// Whether there is no command.
    pub fn is_empty(&self) -> bool
        ensures { IsTrue result ↔ (self.now.queue ≡ []) }
    {
        self.commands.is_empty()
    }

    /// Takes all commands, in their order. The number stays.
    pub fn take_commands(&mut self) -> VecDeque<Command<C>>
        ensures queue { result.items ≡ self.old.queue }
        ensures rest { self.new ≡ record self.old { queue = [] } }
    {
        let alloc = *self.commands.allocator();
        std::mem::replace(&mut self.commands, VecDeque::new(alloc))
    }

    /// Drops all commands. The number stays.
    pub fn clear(&mut self)
        ensures { self.new ≡ record self.old { queue = [] } }
    {
        self.commands.clear();
    }
}

/// The commands of a queue, one by one. It is seen as the list of what is left.
#[derive(Drop)]
pub struct Iter<'a, C: RaftTypeConfig> {
    commands: vec_deque::Iter<'a, Command<C>>,
}

impl<'a, C: RaftTypeConfig> Model for Iter<'a, C> {
    ghost use Rattle.std.specs.Prelude.{List};
    ghost use Rattle.std.specs.VecDeque.Iter.{deque_iter_rest};
    ghost use Rattle.raft_commands.specs.declared.command.Command.{Command};

    ghost Value = { List (Command C C.D C.R C.NodeId C.Node) };

    ghost view = { λ a. deque_iter_rest a.commands };
}

impl<'a, C: RaftTypeConfig> Iterator for Iter<'a, C> {
    type Item = &'a Command<C>;

    ghost next_gives = { YieldsFirstRef (λ s. s) };

    ghost remaining = { item_count (λ s. s) };

    fn next(&mut self) -> Option<&'a Command<C>> {
        self.commands.next()
    }
}
