//! The words of a bell: how often it was rung, and how many sleep at it. What has to come first is shown by a value
//! that nothing else gives.

use std::sync::Wait;
use std::sync::atomic::{AtomicU64, Ordering};

/// How often a bell was rung when it was noted, modulo 2^64. `Words::note` alone makes one.
#[derive(Drop)]
pub(crate) struct Noted {
    number: u64,
}

/// That a bell was rung. `Words::ring` alone makes one, and the sleepers are counted by it: who is not among them yet
/// looks at the bell once more before it sleeps, and finds it rung.
#[derive(Drop)]
pub(crate) struct Rung {
    _before: u64,
}

/// One who is counted among the sleepers. `Words::count_in` alone makes one, and without one nobody sleeps: who rings
/// after the sleeper's last look finds it counted.
#[derive(Drop)]
pub(crate) struct Sleeper {
    _before: u64,
}

/// The words of a bell.
#[derive(Drop)]
pub(crate) struct Words {
    rung: AtomicU64,
    asleep: AtomicU64,
}

impl Words {
    pub(crate) fn new() -> Words {
        Words {
            rung: AtomicU64::new(0),
            asleep: AtomicU64::new(0),
        }
    }

    /// Returns how often it was rung.
    pub(crate) fn note(&self) -> Noted {
        Noted {
            number: self.rung.load(Ordering::SeqCst),
        }
    }

    /// Returns whether it was rung since this note.
    pub(crate) fn have_grown_since(&self, noted: &Noted) -> bool {
        self.rung.load(Ordering::SeqCst) != noted.number
    }

    /// Rings once, and wakes nobody yet.
    pub(crate) fn ring(&self) -> Rung {
        Rung {
            _before: self.rung.fetch_add(1, Ordering::SeqCst),
        }
    }

    /// Wakes those who sleep, after a ring.
    pub(crate) fn wake(&self, _rung: Rung) {
        if self.asleep.load(Ordering::SeqCst) > 0 {
            self.rung.wake_all();
        }
    }

    /// Counts one more among the sleepers.
    pub(crate) fn count_in(&self) -> Sleeper {
        Sleeper {
            _before: self.asleep.fetch_add(1, Ordering::SeqCst),
        }
    }

    /// Counts one fewer.
    pub(crate) fn count_out(&self, _sleeper: Sleeper) {
        self.asleep.fetch_sub(1, Ordering::SeqCst);
    }

    /// Sleeps until it was rung since this note.
    pub(crate) fn sleep<R: Wait>(&self, rt: &R, noted: &Noted, _sleeper: &Sleeper) {
        for _ in rt.forever() {
            if self.have_grown_since(noted) {
                return;
            }
            self.rung.park(rt, (noted.number & 0xffff_ffff) as u32);
        }
        unreachable!()
    }
}
