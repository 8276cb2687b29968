//! What layers above ask of entries.
ghost use Rattle.std.specs.Prelude.{◌≡◌, Bool, Option, refl};
ghost use Rattle.std.specs.Option.{option_copied};
ghost use Rattle.raft_state.specs.Payload.{is_blank, membership_of};
ghost use Rattle.raft_values.specs.declared.log_id.LogId.{LogId as Id};
ghost use Rattle.raft_membership.specs.declared.membership.Membership.{Membership as Members};
ghost use Rattle.raft_state.specs.declared.entry.EntryPayload.TheVariants.{Blank, Normal, Membership as Asks};

use crate::entry::{Entry, EntryPayload};
use raft_log_ids::RaftLogId;
use raft_membership::membership::Membership;
use raft_values::log_id::LogId;
use raft_values::node::{Node, NodeId, default_id};
use raft_values::vote::LeaderId;

/// What an entry asks for, as far as Raft knows (openraft).
pub trait RaftPayload<NID: NodeId, N: Node> {
    // Whether it asks for nothing.
    ghost blank: { Self → Bool };
    // The membership that it asks for.
    ghost asked_membership: { Self → Option (Members NID N) };

    /// Whether it asks for nothing.
    fn is_blank(&self) -> bool
        ensures { result ≡ blank self.now };

    /// The membership that it asks for.
    fn get_membership(&self) -> Option<&Membership<NID, N>>
        ensures { option_copied result ≡ asked_membership self.now };
}

/// An entry, as far as Raft makes it (openraft; here the parameter is the type of memberships, and
/// whoever reads the entry too asks for `RaftPayload` and `RaftLogId` beside this bound).
pub trait RaftEntry<NID: NodeId, M>: Sized {
    // The entry that asks for nothing.
    ghost blank_at: { Id NID → Self };
    // The entry that asks for a membership.
    ghost membership_at: { Id NID → M → Self };

    /// The entry at this log id that asks for nothing.
    fn new_blank(log_id: LogId<NID>) -> Self
        ensures { result ≡ blank_at log_id };

    /// The entry at this log id that asks for this membership.
    fn new_membership(log_id: LogId<NID>, membership: M) -> Self
        ensures { result ≡ membership_at log_id membership };
}

/// What is made of a command of the state machine (openraft).
pub trait FromAppData<T>: Sized {
    // What is made of it.
    ghost made: { T → Self };

    /// What is made of the command.
    fn from_app_data(t: T) -> Self
        ensures { result ≡ made t };
}

impl<NID: NodeId, N: Node, D> RaftPayload<NID, N> for EntryPayload<NID, N, D> {
    ghost blank = { is_blank };

    ghost asked_membership = { membership_of };

    fn is_blank(&self) -> bool {
        matches!(self, EntryPayload::Blank)
    }

    fn get_membership(&self) -> Option<&Membership<NID, N>> {
        match self {
            EntryPayload::Membership(membership) => Some(membership),
            EntryPayload::Blank => None,
            EntryPayload::Normal(_) => None,
        }
    }
}

impl<NID: NodeId, N: Node, D> RaftPayload<NID, N> for Entry<NID, N, D> {
    ghost blank = { λ e. is_blank e.payload };

    ghost asked_membership = { λ e. membership_of e.payload };

    fn is_blank(&self) -> bool {
        self.payload.is_blank()
    }

    fn get_membership(&self) -> Option<&Membership<NID, N>> {
        self.payload.get_membership()
    }
}

impl<NID: NodeId, N: Node, D> RaftLogId<NID> for Entry<NID, N, D> {
    ghost id = { λ e. e.log_id };

    ghost with_id = { λ e i. record e { log_id = i } };

    fn get_log_id(&self) -> &LogId<NID> {
        &self.log_id
    }

    fn set_log_id(&mut self, log_id: &LogId<NID>) {
        self.log_id = *log_id;
    }

    ghost given_id = { λ x i. refl };
}

impl<NID: NodeId, N: Node, D> RaftEntry<NID, Membership<NID, N>> for Entry<NID, N, D> {
    ghost blank_at = { λ i. record { log_id = i; payload = Blank } };

    ghost membership_at = { λ i m. record { log_id = i; payload = Asks m } };

    fn new_blank(log_id: LogId<NID>) -> Entry<NID, N, D>
        ensures { result ≡ record { log_id = log_id; payload = Blank } }
    {
        Entry {
            log_id,
            payload: EntryPayload::Blank,
        }
    }

    fn new_membership(log_id: LogId<NID>, membership: Membership<NID, N>) -> Entry<NID, N, D>
        ensures { result ≡ record { log_id = log_id; payload = Asks membership } }
    {
        Entry {
            log_id,
            payload: EntryPayload::Membership(membership),
        }
    }
}

// A new command has no place yet: its log id is the default one.
impl<NID: NodeId, N: Node, D> FromAppData<D> for Entry<NID, N, D> {
    ghost made = { λ command. record { log_id = record { leader_id = record { term = 0; node_id = NID.default_id }; index = 0 }; payload = Normal command } };

    fn from_app_data(t: D) -> Entry<NID, N, D> {
        Entry {
            log_id: LogId::new(LeaderId::new(0, default_id()), 0),
            payload: EntryPayload::Normal(t),
        }
    }
}
