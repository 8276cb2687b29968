//! Messages: what entries and values are written as.

ghost use Rattle.std.specs.Prelude.{◌≡◌, ◌++◌, ℕ, Bool, List, true, OnOk, OnErr, IfOk, IfErr};
ghost use Rattle.std.specs.Prelude.{IfSome, IsSome};
ghost use Rattle.raft_log_records.specs.Refusal.{IsWriteError};

use crate::error::WriteError;
use std::alloc::{AllocError, Global};

/// A value that is written as bytes and read back (raft-engine's `Message`).
pub trait Message: PartialEq {
    /// Whether a message is within the limits of its type (own). One that isn't has no bytes.
    ghost fits: { Self → Bool };

    /// The bytes that a message is written as.
    ghost bytes: { Self → List ℕ };

    /// Puts the message's bytes behind what is there. It is `TooLong` only where the message is past
    /// a limit of its type. After an `Err` other bytes may stand behind what was there.
    fn write(&self, out: &mut Vec<u8>) -> Result<(), WriteError>
        ensures ok { OnOk result (out.new.items ≡ out.old.items ++ bytes self.now) }
        ensures within { OnOk result (fits self.now ≡ true) }
        ensures err { OnErr result ((more : List ℕ) × (out.new.items ≡ out.old.items ++ more)) }
        ensures cause { IfErr result (IsWriteError (fits self.now)) };

    /// Reads the message that is written as these bytes, or none where they are no message's. It is
    /// within the limits of its type.
    fn parse(alloc: Global, text: &[u8]) -> Result<Option<Self>, AllocError>
    where
        Self: Sized,
        ensures found { IfOk result (λ o. IfSome o (λ m. (fits m ≡ true) × (bytes m ≡ text.now))) }
        ensures only { (m : Self) → fits m ≡ true → bytes m ≡ text.now → IfOk result IsSome };

    /// Messages with the same bytes are the same message: what was put is what is read back, and a
    /// type that writes nothing has one message alone.
    ghost one_message: { (m n : Self) → fits m ≡ true → fits n ≡ true → bytes m ≡ bytes n → Self.eq m n ≡ true };
}

/// Entries with indexes (raft-engine's `MessageExt`).
pub trait MessageExt {
    type Entry: Message;

    /// An entry's index.
    ghost index_of: { Self.Entry → ℕ };

    /// An entry's index.
    fn index(entry: &Self::Entry) -> u64
        ensures { result ≡ index_of entry.now };
}
