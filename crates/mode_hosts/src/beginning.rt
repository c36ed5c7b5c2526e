//! The cull and the draw of a play, before its first step.
ghost use Rattle.std.specs.Prelude.{◌≡◌, ◌+◌, ◌<◌, ◌≤◌, ℕ, [], length, Option, None, Some, IfOk, IfSome, OnOk};
ghost use Rattle.frame_link.specs.Ends.{IsNewRing, ring_sent, ring_send_at, ring_send_room};
ghost use Rattle.mode_hosts.specs.Seats.{any_cull, any_draw};
ghost use Rattle.mode_hosts.specs.Deals.{AreFirst, IsNewReturn, AreNewWorks};

use crate::works::{AnyCull, AnyDraw, StreamCull, StreamDraw};
use frame_link::{RingSend, RingTake, SendEnd, ring};
use frame_stages::{CullStage, DrawStage};
use fx_math::Lens;
use pf_io::NoMemory;
use std::alloc::Global;
use stream_stages::{Piece, StreamCullStage, StreamDrawStage};

/// The number of pieces that go from the cull to the draw and back.
const PIECES: usize = 4;

/// The cull and the draw of a play.
#[derive(Drop)]
pub(crate) struct Works {
    pub(crate) cull: AnyCull,
    pub(crate) draw: AnyDraw,
}

/// The two ends of a link for pieces.
#[derive(Drop)]
struct PieceEnds {
    send: RingSend<Piece>,
    take: RingTake<Piece>,
}

/// Returns a link for pieces, through which nothing went, with room for all of them.
fn new_piece_link(alloc: Global) -> Result<PieceEnds, NoMemory>
    ensures { IfOk result (λ l. IsNewRing 4 l.send l.take) }
{
    let (send, take) = ring(alloc, PIECES)?;
    Ok(PieceEnds { send, take })
}

/// Puts one more piece, of at most `limit` items, on the link back, which has room for it.
fn put_piece(alloc: Global, limit: u32, back: &mut RingSend<Piece>) -> Result<(), NoMemory>
    requires least { 1 ≤ limit }
    requires most { limit ≤ 4096 }
    requires room { length (ring_sent back.old) < ring_send_room back.old }
    ensures put { OnOk result ((many : ℕ) → AreFirst limit many (ring_sent back.old)
        → AreFirst limit (many + 1) (ring_sent back.new)) }
    ensures at { ring_send_at back.new ≡ ring_send_at back.old }
    ensures stays { ring_send_room back.new ≡ ring_send_room back.old }
{
    let piece = Piece::new(alloc, limit)?;
    let Ok(()) = back.push(piece) else {
        unreachable!();
    };
    Ok(())
}

/// The link back with all pieces on it, each of at most `limit` items.
fn new_return(alloc: Global, limit: u32) -> Result<PieceEnds, NoMemory>
    requires least { 1 ≤ limit }
    requires most { limit ≤ 4096 }
    ensures { IfOk result (λ l. IsNewReturn limit l.send l.take) }
{
    let PieceEnds { mut send, take } = new_piece_link(alloc)?;
    for put in 0..PIECES {
        put_piece(alloc, limit, &mut send)?;
    }
    Ok(PieceEnds { send, take })
}

/// The cull and the draw of whole draw lists.
fn whole_works(alloc: Global, lens: Lens, back: [u8; 3]) -> Result<Works, NoMemory>
    ensures { IfOk result (λ w. AreNewWorks lens back None (any_cull w.cull) (any_draw w.draw)) }
{
    let cull = CullStage::new(alloc, lens)?;
    let draw = DrawStage::new(alloc, lens, back)?;
    Ok(Works {
        cull: AnyCull::Whole(cull),
        draw: AnyDraw::Whole(draw),
    })
}

/// The cull and the draw of draw lists in pieces of at most `limit` items, with the links of the pieces between them.
fn stream_works(alloc: Global, lens: Lens, back: [u8; 3], limit: u32) -> Result<Works, NoMemory>
    requires least { 1 ≤ limit }
    requires most { limit ≤ 4096 }
    ensures { IfOk result (λ w. AreNewWorks lens back (Some limit) (any_cull w.cull) (any_draw w.draw)) }
{
    let cull = StreamCullStage::new(alloc, lens, limit)?;
    let draw = StreamDrawStage::new(alloc, lens, back)?;
    let there = new_piece_link(alloc)?;
    let again = new_return(alloc, limit)?;
    Ok(Works {
        cull: AnyCull::InPieces(StreamCull {
            stage: cull,
            pieces: there.send,
            back: again.take,
        }),
        draw: AnyDraw::InPieces(StreamDraw {
            stage: draw,
            pieces: there.take,
            back: again.send,
        }),
    })
}

/// Returns the cull and the draw of a play, which have not begun, in pieces of at most `limit` items if a limit is
/// given.
pub(crate) fn new_works(
    alloc: Global,
    lens: Lens,
    back: [u8; 3],
    limit: Option<u32>,
) -> Result<Works, NoMemory>
    requires limit { IfSome limit (λ n. (1 ≤ n) × (n ≤ 4096)) }
    ensures { IfOk result (λ w. AreNewWorks lens back limit (any_cull w.cull) (any_draw w.draw)) }
{
    match limit {
        Some(limit) => stream_works(alloc, lens, back, limit),
        None => whole_works(alloc, lens, back),
    }
}
