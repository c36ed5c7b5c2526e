//! The cull and the draw, which pass on each draw list whole with its load, or in pieces.
ghost use Rattle.std.specs.Prelude.{◌≡◌};
ghost use Rattle.frame_link.specs.Ends.{ring_sent, ring_send_at, ring_taken, ring_take_at};
ghost use Rattle.mode_hosts.specs.Works.{cull_links, draw_links, cull_lens, draw_lens, draw_back, KeepsCull, KeepsDraw};
ghost use Rattle.mode_hosts.specs.Sites.{Rests};
ghost use Rattle.mode_hosts.specs.Seats.{place_of, any_cull, any_draw};

use frame_link::{RingSend, RingTake};
use frame_stages::{CullStage, Did, DrawStage, Packet, StageError};
use pf_io::Gate;
use pf_scene::Scene;
use seat_lock::SeatDesk;
use std::sync::Wait;
use std::thread::Threads;
use stream_stages::{Piece, StreamCullStage, StreamDrawStage};

/// The cull of a stream between the links of the pieces: it sends them over one, and takes the returned ones from the
/// other.
#[derive(Drop)]
pub(crate) struct StreamCull {
    pub(crate) stage: StreamCullStage,
    pub(crate) pieces: RingSend<Piece>,
    pub(crate) back: RingTake<Piece>,
}

/// The draw of a stream between these links: it takes the pieces from one, and gives them back over the other.
#[derive(Drop)]
pub(crate) struct StreamDraw {
    pub(crate) stage: StreamDrawStage,
    pub(crate) pieces: RingTake<Piece>,
    pub(crate) back: RingSend<Piece>,
}

/// The cull of a play.
#[derive(Drop)]
pub(crate) enum AnyCull {
    /// Of whole draw lists.
    Whole(CullStage),
    /// Of draw lists in pieces.
    InPieces(StreamCull),
}

/// The draw of a play.
#[derive(Drop)]
pub(crate) enum AnyDraw {
    /// Of whole draw lists.
    Whole(DrawStage),
    /// Of draw lists in pieces.
    InPieces(StreamDraw),
}

impl AnyCull {
    /// One poll of the cull, at its desk and between its links.
    pub(crate) fn poll<R: Wait, G: Gate>(
        &mut self,
        desk: &mut SeatDesk<Scene, R>,
        from: &mut RingTake<Packet>,
        to: &mut RingSend<Packet>,
        gate: &G,
    ) -> Result<Did, StageError>
        ensures rests { Rests (place_of desk.old) (place_of desk.new) }
        ensures from { ring_take_at from.new ≡ ring_take_at from.old }
        ensures to { ring_send_at to.new ≡ ring_send_at to.old }
        ensures links { cull_links (any_cull self.new) ≡ cull_links (any_cull self.old) }
        ensures lens { cull_lens (any_cull self.new) ≡ cull_lens (any_cull self.old) }
        ensures keeps { KeepsCull (any_cull self.old) (ring_taken from.old) (ring_sent to.old)
            → KeepsCull (any_cull self.new) (ring_taken from.new) (ring_sent to.new) }
    {
        match self {
            AnyCull::Whole(stage) => stage.poll(desk, from, to, gate),
            AnyCull::InPieces(cull) => {
                cull.stage
                    .poll(desk, from, to, &mut cull.pieces, &mut cull.back, gate)
            }
        }
    }
}

impl AnyDraw {
    /// One poll of the draw, at its desk and between its links.
    pub(crate) fn poll<R: Wait, H: Threads + Sync, G: Gate>(
        &mut self,
        rt: &H,
        desk: &mut SeatDesk<Scene, R>,
        from: &mut RingTake<Packet>,
        to: &mut RingSend<Packet>,
        gate: &G,
    ) -> Result<Did, StageError>
        ensures rests { Rests (place_of desk.old) (place_of desk.new) }
        ensures from { ring_take_at from.new ≡ ring_take_at from.old }
        ensures to { ring_send_at to.new ≡ ring_send_at to.old }
        ensures links { draw_links (any_draw self.new) ≡ draw_links (any_draw self.old) }
        ensures lens { draw_lens (any_draw self.new) ≡ draw_lens (any_draw self.old) }
        ensures back { draw_back (any_draw self.new) ≡ draw_back (any_draw self.old) }
        ensures keeps { KeepsDraw (any_draw self.old) (ring_taken from.old) (ring_sent to.old)
            → KeepsDraw (any_draw self.new) (ring_taken from.new) (ring_sent to.new) }
    {
        match self {
            AnyDraw::Whole(stage) => stage.poll(rt, desk, from, to, gate),
            AnyDraw::InPieces(draw) => {
                draw.stage
                    .poll(rt, desk, from, to, &mut draw.pieces, &mut draw.back, gate)
            }
        }
    }
}
