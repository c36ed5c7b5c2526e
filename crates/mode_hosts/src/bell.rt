//! The event count (bell) at which hosts wait until something is done.

use crate::crew::Polled;
use crate::words::{Noted, Words};
use frame_stages::Did;
use std::sync::Wait;
use std::thread;

/// How often a host looks at the bell before it sleeps.
const LOOKS: usize = 64;

/// An event count (bell) that all hosts of a play share. Who polls its stages first notes how often it was rung, and
/// rings after it did something. Who found nothing to do waits until the bell was rung since that note. So whatever
/// lets a host go on was done before its polls, or is followed by a ring that wakes it. The types keep this order:
/// polls take the note, and the bell takes what they came to with that note.
#[derive(Drop)]
pub(crate) struct Bell {
    words: Words,
}

impl Bell {
    pub(crate) fn new() -> Bell {
        Bell {
            words: Words::new(),
        }
    }

    /// Returns how often it was rung.
    pub(crate) fn note(&self) -> Noted {
        self.words.note()
    }

    /// Returns whether it was rung since this note.
    pub(crate) fn has_rung_since(&self, noted: &Noted) -> bool {
        self.words.have_grown_since(noted)
    }

    /// Rings once, and wakes those who sleep.
    pub(crate) fn ring(&self) {
        let rung = self.words.ring();
        self.words.wake(rung);
    }

    /// After polls: rings if they did something or all is over, and else waits until it was rung since the note that
    /// they were made with.
    pub(crate) fn tell<R: Wait>(&self, rt: &R, polled: Polled<'_>) {
        match polled.did() {
            Did::Did | Did::Over => self.ring(),
            Did::NotYet => self.wait(rt, polled.noted()),
        }
    }

    /// Waits until it was rung since this note: some looks, between which it yields, and then asleep.
    fn wait<R: Wait>(&self, rt: &R, noted: &Noted) {
        for _look in 0..LOOKS {
            if self.has_rung_since(noted) {
                return;
            }
            thread::yield_now();
        }
        let sleeper = self.words.count_in();
        self.words.sleep(rt, noted, &sleeper);
        self.words.count_out(sleeper);
    }
}
