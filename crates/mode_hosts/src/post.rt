//! Where one crew of a play is.
ghost use Rattle.std.specs.Prelude.{◌≡◌, true};
ghost use Rattle.mode_hosts.specs.Sites.{CrewGoes};
ghost use Rattle.mode_hosts.specs.Seats.{crew_state};
ghost use Rattle.mode_hosts.specs.Posts.{has_none, IsPost, IsHere};

use crate::crew::{Crew, Polled};
use crate::hosts::{Common, Host, back, give, new_host};
use crate::words::Noted;
use pf_io::Gate;
use std::alloc::Global;
use std::sync::{Arc, Wait};
use std::thread::Threads;

/// A crew that stays with the caller's thread, since it has no stage, or no thread or no memory was to be had for it.
/// It is made by `post_of` alone.
#[derive(Drop)]
pub(crate) struct Stay<R> {
    crew: Crew<R>,
}

/// Where a crew is.
#[derive(Drop)]
pub(crate) enum Post<R: Drop> {
    /// With a thread of its own.
    There(Host<R>),
    /// With the caller's thread.
    Here(Stay<R>),
}

/// Sends a crew to a thread of its own, if it has a stage and there is a thread for it.
pub(crate) fn post_of<
    R: Threads + Wait + Copy + Drop + Send + Sync + 'static,
    G: Gate + Send + Drop + 'static,
>(rt: &R, alloc: Global, common: &Arc<Common<G>, Global>, crew: Crew<R>) -> Post<R>
    ensures post { IsPost crew result }
    ensures none { has_none crew ≡ true → IsHere result }
{
    if crew.is_empty() {
        return Post::Here(Stay { crew });
    }
    let Ok(theirs) = Arc::try_clone(common) else {
        return Post::Here(Stay { crew });
    };
    match new_host(rt, alloc, theirs) {
        Some(host) => {
            let host = give(host, crew);
            common.bell.ring();
            Post::There(host)
        }
        None => Post::Here(Stay { crew }),
    }
}

impl<R: Threads + Wait + Sync + Drop> Post<R> {
    /// One poll of each stage of a crew that is with the caller.
    pub(crate) fn poll<'a, G: Gate>(&mut self, rt: &R, gate: &G, noted: &'a Noted) -> Polled<'a>
        ensures { (crew : Crew R) → IsPost crew self.old → IsPost crew self.new }
    {
        match self {
            Post::There(_) => Polled::nothing(noted),
            Post::Here(stay) => stay.crew.poll(rt, gate, noted),
        }
    }

    /// Returns the crew, from its host or from the caller.
    pub(crate) fn back(self, rt: &R) -> Crew<R>
        ensures { (crew : Crew R) → IsPost crew self → CrewGoes (crew_state crew) (crew_state result) }
    {
        match self {
            Post::There(host) => back(rt, host),
            Post::Here(stay) => stay.crew,
        }
    }
}
