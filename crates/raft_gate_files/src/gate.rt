//! A gate that lets two pass at once, and nobody alone.

use std::alloc::{AllocError, Global};
use std::sync::Arc;
use std::sync::atomic::{AtomicBool, AtomicU64, Ordering};
use std::thread;

/// What the handles of a gate share.
#[derive(Drop)]
struct Passage {
    /// Nobody waits before it is shut.
    is_shut: AtomicBool,
    /// How many have come and didn't go away alone.
    came: AtomicU64,
}

/// A handle of a gate. Who comes to it, once it is shut, waits until another one has come, but not
/// forever. Threads share it, so no clause says who meets whom.
#[derive(Drop)]
pub struct Gate {
    passage: Arc<Passage, Global>,
    turns: u64,
}

impl Gate {
    /// A gate that isn't shut yet. Who comes looks so often for another one before it gives up.
    pub fn new(alloc: Global, turns: u64) -> Result<Gate, AllocError> {
        let passage = Passage {
            is_shut: AtomicBool::new(false),
            came: AtomicU64::new(0),
        };
        Ok(Gate {
            passage: Arc::new(alloc, passage)?,
            turns,
        })
    }

    /// One more handle of the same gate.
    pub fn again(&self) -> Result<Gate, AllocError> {
        Ok(Gate {
            passage: Arc::try_clone(&self.passage)?,
            turns: self.turns,
        })
    }

    /// From now on who comes waits.
    pub fn shut(&self) {
        self.passage.is_shut.store(true, Ordering::SeqCst);
    }

    /// Whether it is shut.
    pub(crate) fn is_shut(&self) -> bool {
        self.passage.is_shut.load(Ordering::SeqCst)
    }

    /// Comes, and says whether another one came. Who gives up goes away, as if it hadn't come, unless
    /// another one came by then.
    pub(crate) fn meets(&self) -> bool {
        let came = &self.passage.came;
        came.fetch_add(1, Ordering::SeqCst);
        for _ in 0..self.turns {
            if came.load(Ordering::SeqCst) > 1 {
                return true;
            }
            thread::yield_now();
        }
        came.compare_exchange(1, 0, Ordering::SeqCst, Ordering::SeqCst)
            .is_err()
    }
}
