//! Processors that have nothing to do.

use std::sync::atomic::{AtomicU64, Ordering};

/// How many processors have ended their part while others are at work for the same picture. Who takes one makes a thread for it.
/// The picture is the same whatever these answer.
#[derive(Drop)]
pub(crate) struct Idle {
    count: AtomicU64,
}

impl Idle {
    /// None yet.
    pub(crate) fn new() -> Idle {
        Idle {
            count: AtomicU64::new(0),
        }
    }

    /// One more.
    pub(crate) fn give(&self) {
        self.count.fetch_add(1, Ordering::SeqCst);
    }

    /// Takes all, and answers how many; 0 where none could be had.
    pub(crate) fn take_all(&self) -> u64 {
        let count = self.count.load(Ordering::SeqCst);
        if count != 0 && self.leave(count, 0) {
            count
        } else {
            0
        }
    }

    /// Leaves so many, and answers whether there still were as many as this.
    fn leave(&self, count: u64, rest: u64) -> bool {
        self.count
            .compare_exchange(count, rest, Ordering::SeqCst, Ordering::SeqCst)
            .is_ok()
    }
}
