//! Each stage at its desk, between its links.
ghost use Rattle.std.specs.Prelude.{◌≡◌, ℕ, List, Option, Ok};
ghost use Rattle.stage_parts.specs.declared.answers.Did.TheVariants as did;
ghost use Rattle.frame_stages.specs.DbaseAnswers.{HasToWait};
ghost use Rattle.pipe_plays.specs.Played.{Blames, StaysWhole};
ghost use Rattle.mode_hosts.specs.Sites.{AppGoes, Gains, AnyCullGoes, AnyDrawGoes, DbaseGoes, Rests, WayGoes, ProbeGoes};
ghost use Rattle.mode_hosts.specs.Seats.{place_of, app_site, cull_site, draw_site, dbase_site, way_site, probe_site};

use crate::works::{AnyCull, AnyDraw};
use frame_link::{RingSend, RingTake};
use frame_stages::{AppStage, DbaseStage, Did, Packet, StageError};
use isect_stage::ProbeStage;
use pf_io::{Gate, Sink};
use pf_scene::{Scene, TellBlockAct, Told};
use seat_lock::{Desk, SeatDesk};
use std::sync::Wait;
use std::thread::Threads;

/// The application at its desk. It stays on the caller's thread, which has the frame sink.
#[derive(Drop)]
pub(crate) struct AppSeat<R> {
    pub(crate) stage: AppStage,
    pub(crate) desk: SeatDesk<Scene, R>,
    pub(crate) from: RingTake<Packet>,
    pub(crate) to: RingSend<Packet>,
}

/// The cull at its desk.
#[derive(Drop)]
pub(crate) struct CullSeat<R> {
    pub(crate) stage: AnyCull,
    pub(crate) desk: SeatDesk<Scene, R>,
    pub(crate) from: RingTake<Packet>,
    pub(crate) to: RingSend<Packet>,
}

/// The draw at its desk.
#[derive(Drop)]
pub(crate) struct DrawSeat<R> {
    pub(crate) stage: AnyDraw,
    pub(crate) desk: SeatDesk<Scene, R>,
    pub(crate) from: RingTake<Packet>,
    pub(crate) to: RingSend<Packet>,
}

/// The database process at its desk.
#[derive(Drop)]
pub(crate) struct DbaseSeat<R> {
    pub(crate) stage: DbaseStage,
    pub(crate) desk: SeatDesk<Scene, R>,
}

/// The probe between its links: it takes from the application and sends to the cull.
#[derive(Drop)]
pub(crate) struct ProbeWay {
    pub(crate) stage: ProbeStage,
    pub(crate) from: RingTake<Packet>,
    pub(crate) to: RingSend<Packet>,
}

/// The probe at its desk. In a play without a probe the desk is there, and rests.
#[derive(Drop)]
pub(crate) struct ProbeSeat<R> {
    pub(crate) desk: SeatDesk<Scene, R>,
    pub(crate) way: Option<ProbeWay>,
}

/// The seats of a play.
#[derive(Drop)]
pub(crate) struct AllSeats<R> {
    pub(crate) app: AppSeat<R>,
    pub(crate) cull: CullSeat<R>,
    pub(crate) draw: DrawSeat<R>,
    pub(crate) dbase: DbaseSeat<R>,
    pub(crate) probe: ProbeSeat<R>,
}

impl<R: Wait> AppSeat<R> {
    /// One poll of the application.
    pub(crate) fn poll<O: Sink, G: Gate>(
        &mut self,
        frames: &mut O,
        gate: &G,
    ) -> Result<Did, StageError>
        ensures goes { AppGoes (app_site self.old) (app_site self.new) (O.written frames.old) (O.written frames.new) }
        ensures uncut { StaysWhole result (app_site self.old).work.state.fault (app_site self.new).work.state.fault }
        ensures blames { Blames result (O.faults frames.old) (O.faults frames.new) (O.at_fault frames.new) (O.written frames.new) }
    {
        self.stage
            .poll(&mut self.desk, &mut self.to, &mut self.from, frames, gate)
    }

    /// One turn, in which the next entries behind so many are told into the block.
    pub(crate) fn tell(&mut self, told: u64, block: Told) -> Told
        ensures stage { self.new.stage ≡ self.old.stage }
        ensures goes { (bytes : Option (List ℕ)) → AppGoes (app_site self.old) (app_site self.new) bytes bytes }
        ensures gains { Gains told block (app_site self.new).place.seen result }
    {
        self.desk.turn(TellBlockAct { told, block })
    }
}

impl<R: Wait> CullSeat<R> {
    /// One poll of the cull.
    pub(crate) fn poll<G: Gate>(&mut self, gate: &G) -> Result<Did, StageError>
        ensures { AnyCullGoes (cull_site self.old) (cull_site self.new) }
    {
        self.stage
            .poll(&mut self.desk, &mut self.from, &mut self.to, gate)
    }
}

impl<R: Wait> DrawSeat<R> {
    /// One poll of the draw.
    pub(crate) fn poll<H: Threads + Sync, G: Gate>(
        &mut self,
        rt: &H,
        gate: &G,
    ) -> Result<Did, StageError>
        ensures { AnyDrawGoes (draw_site self.old) (draw_site self.new) }
    {
        self.stage
            .poll(rt, &mut self.desk, &mut self.from, &mut self.to, gate)
    }
}

impl<R: Wait> DbaseSeat<R> {
    /// One poll of the database process.
    pub(crate) fn poll<G: Gate>(&mut self, gate: &G) -> Result<Did, StageError>
        ensures goes { DbaseGoes (dbase_site self.old) (dbase_site self.new) }

        // `NotYet` only where its next line has to wait, by the log that its desk has seen.
        ensures waits { result ≡ Ok did.NotYet
            → HasToWait self.new.stage.rest self.new.stage.hand (place_of self.new.desk).seen }
    {
        self.stage.poll(&mut self.desk, gate)
    }
}

impl ProbeWay {
    /// One poll of the probe, at its desk.
    fn poll<R: Wait>(&mut self, desk: &mut SeatDesk<Scene, R>) -> Result<Did, StageError>
        ensures rests { Rests (place_of desk.old) (place_of desk.new) }
        ensures goes { WayGoes (way_site self.old) (way_site self.new) }
    {
        self.stage.poll(desk, &mut self.from, &mut self.to)
    }
}

impl<R: Wait> ProbeSeat<R> {
    /// One poll of the probe. It is over if there is none.
    pub(crate) fn poll(&mut self) -> Result<Did, StageError>
        ensures { ProbeGoes (probe_site self.old) (probe_site self.new) }
    {
        match &mut self.way {
            Some(way) => way.poll(&mut self.desk),
            None => Ok(Did::Over),
        }
    }
}
