//! Where the crews of a play are: each with a host, or with the caller.
ghost use Rattle.std.specs.Prelude.{◌≡◌, Some};
ghost use Rattle.mode_hosts.specs.Crews.{CrewsGo};
ghost use Rattle.mode_hosts.specs.Posts.{crews_state, ArePosts};

use crate::crew::{Crew, Polled};
use crate::hosts::Common;
use crate::modes::Crews;
use crate::post::{Post, post_of};
use crate::seats::DbaseSeat;
use crate::words::Noted;
use pf_io::Gate;
use std::alloc::Global;
use std::sync::{Arc, Wait};
use std::thread::Threads;

/// Where the crews of a play are.
#[derive(Drop)]
pub(crate) struct Posts<R: Drop> {
    caller: Crew<R>,
    cull: Post<R>,
    draw: Post<R>,
    dbase: Post<R>,
    probe: Post<R>,
}

/// Sends the crews of a play to their hosts, as far as there are threads for them.
pub(crate) fn posts_of<
    R: Threads + Wait + Copy + Drop + Send + Sync + 'static,
    G: Gate + Send + Drop + 'static,
>(rt: &R, alloc: Global, common: &Arc<Common<G>, Global>, crews: Crews<R>) -> Posts<R>
    ensures { ArePosts crews result }
{
    let Crews {
        caller,
        cull,
        draw,
        dbase,
        probe,
    } = crews;
    Posts {
        caller,
        cull: post_of(rt, alloc, common, cull),
        draw: post_of(rt, alloc, common, draw),
        dbase: post_of(rt, alloc, common, dbase),
        probe: post_of(rt, alloc, common, probe),
    }
}

impl<R: Threads + Wait + Sync + Drop> Posts<R> {
    /// Polls each stage that is with the caller once, after a note of the bell. Returns what the polls came to.
    pub(crate) fn poll<'a, G: Gate>(&mut self, rt: &R, gate: &G, noted: &'a Noted) -> Polled<'a>
        ensures { (crews : Crews R) → ArePosts crews self.old → ArePosts crews self.new }
    {
        let caller = self.caller.poll(rt, gate, noted);
        let cull = self.cull.poll(rt, gate, noted).did();
        let draw = self.draw.poll(rt, gate, noted).did();
        let dbase = self.dbase.poll(rt, gate, noted).did();
        let probe = self.probe.poll(rt, gate, noted).did();
        caller.and(cull).and(draw).and(dbase).and(probe)
    }

    /// Gives the database process to the caller's crew.
    pub(crate) fn with_dbase(self, dbase: DbaseSeat<R>) -> Posts<R>
        ensures { result ≡ record self { caller = record self.caller { dbase = Some dbase } } }
    {
        let Posts {
            caller,
            cull,
            draw,
            dbase: own,
            probe,
        } = self;
        Posts {
            caller: Crew {
                cull: caller.cull,
                draw: caller.draw,
                dbase: Some(dbase),
                probe: caller.probe,
            },
            cull,
            draw,
            dbase: own,
            probe,
        }
    }

    /// Returns the crews, from their hosts.
    pub(crate) fn back(self, rt: &R) -> Crews<R>
        ensures { (crews : Crews R) → ArePosts crews self → CrewsGo (crews_state crews) (crews_state result) }
    {
        let Posts {
            caller,
            cull,
            draw,
            dbase,
            probe,
        } = self;
        Crews {
            caller,
            cull: cull.back(rt),
            draw: draw.back(rt),
            dbase: dbase.back(rt),
            probe: probe.back(rt),
        }
    }
}
