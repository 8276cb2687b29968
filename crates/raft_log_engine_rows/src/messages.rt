//! Messages that are their own bytes.
ghost use Rattle.std.specs.Prelude.{◌≡◌, length, nat_le};
ghost use Rattle.std.proofs.Common.{rules};

use raft_log_records::{Message, WriteError};
use std::alloc::{AllocError, Global};

/// A text has no more bytes than so many, so that longer values are no texts.
const MAX_TEXT_LEN: usize = 3;

/// A message that is its own bytes.
#[derive(PartialEq, Drop)]
pub struct Text {
    pub bytes: Vec<u8>,
}

impl Message for Text {
    ghost fits = { λ t. nat_le (length t.bytes.items) 3 };

    ghost bytes = { λ t. t.bytes.items };

    fn write(&self, out: &mut Vec<u8>) -> Result<(), WriteError> {
        if self.bytes.len() > MAX_TEXT_LEN {
            return Err(WriteError::TooLong);
        }
        out.extend_from_slice(&self.bytes)?;
        Ok(())
    }

    fn parse(alloc: Global, text: &[u8]) -> Result<Option<Text>, AllocError> {
        if text.len() > MAX_TEXT_LEN {
            return Ok(None);
        }
        let bytes = Vec::from_slice(alloc, text)?;
        Ok(Some(Text { bytes }))
    }

    ghost one_message = { Prim.search rules };
}
