//! Messages that are their own bytes.

ghost use Rattle.std.specs.Prelude.{◌≡◌, length, true};
ghost use Rattle.std.proofs.Common.{rules};

use raft_log_records::{Message, MessageExt, WriteError};
use std::alloc::{AllocError, Global};

/// A message that is its own bytes.
#[derive(PartialEq, Drop)]
pub struct Text {
    bytes: Vec<u8>,
}

impl Text {
    pub fn new(bytes: Vec<u8>) -> Text
        ensures { result.bytes ≡ bytes }
    {
        Text { bytes }
    }
}

impl Message for Text {
    ghost fits = { λ _. true };

    ghost bytes = { λ t. t.bytes.items };

    fn write(&self, out: &mut Vec<u8>) -> Result<(), WriteError> {
        out.extend_from_slice(&self.bytes)?;
        Ok(())
    }

    fn parse(alloc: Global, text: &[u8]) -> Result<Option<Text>, AllocError> {
        let bytes = Vec::from_slice(alloc, text)?;
        Ok(Some(Text { bytes }))
    }

    ghost one_message = { Prim.search rules };
}

/// Entries whose index is their length.
pub struct ByLength;

impl MessageExt for ByLength {
    type Entry = Text;

    ghost index_of = { λ t. length t.bytes.items };

    fn index(entry: &Text) -> u64 {
        entry.bytes.len() as u64
    }
}
