//! A reader and a writer that give and take little at a time, are interrupted, and fail.
use std::alloc::Global;
use std::io::{Error, ErrorKind, Read, Result, Write};

/// Gives pieces of its bytes, is interrupted before each, and fails where `left` bytes were given.
/// It counts the bytes that it gave, and knows the most that it was asked for at once.
#[derive(Drop)]
pub struct Piecewise<'a> {
    pub bytes: &'a [u8],
    pub piece: usize,
    pub left: usize,
    pub interrupted: bool,
    pub given: usize,
    pub most: usize,
}

impl Read for Piecewise<'_> {
    fn read(&mut self, buf: &mut [u8]) -> Result<usize> {
        self.interrupted = !self.interrupted;
        self.most = self.most.max(buf.len());
        if self.interrupted {
            return Err(Error::from(ErrorKind::Interrupted));
        }
        if self.left == 0 {
            return Err(Error::from(ErrorKind::ConnectionReset));
        }
        let count = self
            .piece
            .min(self.left)
            .min(buf.len())
            .min(self.bytes.len());
        buf[..count].copy_from_slice(&self.bytes[..count]);
        self.bytes = &self.bytes[count..];
        self.left -= count;
        self.given = self.given.saturating_add(count);
        Ok(count)
    }
}

/// Takes pieces, is interrupted before each, and fails where it has no more room. It may note each
/// flush as `~`.
#[derive(Drop)]
pub struct Stubborn {
    pub bytes: Vec<u8>,
    pub piece: usize,
    pub room: usize,
    pub notes_flushes: bool,
    pub interrupted: bool,
}

impl Stubborn {
    /// Took nothing.
    pub fn new(alloc: Global, piece: usize, room: usize, notes_flushes: bool) -> Stubborn {
        Stubborn {
            bytes: Vec::new(alloc),
            piece,
            room,
            notes_flushes,
            interrupted: false,
        }
    }
}

impl Write for Stubborn {
    fn write(&mut self, buf: &[u8]) -> Result<usize> {
        self.interrupted = !self.interrupted;
        if self.interrupted {
            return Err(Error::from(ErrorKind::Interrupted));
        }
        if self.room == 0 {
            return Err(Error::from(ErrorKind::ConnectionReset));
        }
        let count = self.piece.min(self.room).min(buf.len());
        self.bytes.extend_from_slice(&buf[..count])?;
        self.room -= count;
        Ok(count)
    }

    fn flush(&mut self) -> Result<()> {
        if self.notes_flushes {
            self.bytes.push(b'~')?;
        }
        Ok(())
    }
}
