//! A read that waits for that of another file.

use raft_log_disk::Fd;
use std::sync::atomic::{AtomicBool, Ordering};
use std::thread;

/// Reads of one file wait until another one was read, but not forever. Threads share it, so no clause
/// says who waited.
#[derive(Drop)]
pub struct LateRead {
    late: Fd,
    early: Fd,
    turns: u64,
    was_read: AtomicBool,
    gave_up: AtomicBool,
}

impl LateRead {
    /// Reads of the file `late` wait for one of the file `early`. They look so often whether it came
    /// before they give up.
    pub fn new(late: Fd, early: Fd, turns: u64) -> LateRead {
        LateRead {
            late,
            early,
            turns,
            was_read: AtomicBool::new(false),
            gave_up: AtomicBool::new(false),
        }
    }

    /// Whether a read gave up, as it does where both files are read by one thread.
    pub fn gave_up(&self) -> bool {
        self.gave_up.load(Ordering::SeqCst)
    }

    /// A file is to be read.
    pub(crate) fn wait(&self, fd: Fd) {
        if fd.0 != self.late.0 || self.gave_up() {
            return;
        }
        for _ in 0..self.turns {
            if self.was_read.load(Ordering::SeqCst) {
                return;
            }
            thread::yield_now();
        }
        self.gave_up.store(true, Ordering::SeqCst);
    }

    /// A file was read.
    pub(crate) fn note(&self, fd: Fd) {
        if fd.0 == self.early.0 {
            self.was_read.store(true, Ordering::SeqCst);
        }
    }
}
