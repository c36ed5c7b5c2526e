//! A frame that is drawn piece by piece.
ghost use Rattle.std.specs.Prelude.{◌≡◌, ◌+◌, ◌<◌, true, false, ◌≤◌};
ghost use Rattle.std.specs.List.{flat_map};
ghost use Rattle.ppm_out.specs.Ppm.{ppm_bytes};
ghost use Rattle.stage_parts.specs.Loads.{IsOfSize};
ghost use Rattle.stream_stages.specs.PieceFrames.{channels_of, no_numbers};
ghost use Rattle.stream_stages.specs.Drawing.{added, DrawsPiece, EndsChannel};

use crate::pieces::Piece;
use depth_raster::PieceRaster;
use draw_list::Stats;
use ppm_out::Image;
use stage_parts::Load;
use std::thread::Threads;

/// No numbers yet.
const NO_STATS: Stats = Stats {
    shown: 0,
    states: 0,
    visited: 0,
};

/// A frame that is being drawn: its load, the channel whose pieces come, and the numbers of the channels before it.
#[derive(Drop)]
pub(crate) struct Drawing {
    pub(crate) load: Load,
    pub(crate) channel: usize,
    pub(crate) stats: Stats,
}

/// Returns the number of channels of a load that pieces are sent for: one for each view, four at most.
pub(crate) fn channels_of(load: &Load) -> usize
    ensures { result ≡ channels_of load.now }
{
    load.cut().views.len().min(4)
}

/// Returns the numbers of two channels, added; each sum saturates at the greatest value of its type.
fn added(a: Stats, b: Stats) -> Stats
    ensures { result ≡ added a b }
{
    Stats {
        shown: a.shown.saturating_add(b.shown),
        states: a.states.saturating_add(b.states),
        visited: a.visited.saturating_add(b.visited),
    }
}

impl Drawing {
    /// A frame of which no piece has come.
    pub(crate) fn of(load: Load) -> Drawing
        ensures { result ≡ record { load = load; channel = 0; stats = no_numbers } }
    {
        Drawing {
            load,
            channel: 0,
            stats: NO_STATS,
        }
    }

    /// Returns whether some channel is still to come.
    pub(crate) fn has_channels(&self) -> bool
        ensures more { result ≡ true → self.now.channel < channels_of self.now.load }
        ensures over { result ≡ false → channels_of self.now.load ≤ self.now.channel }
    {
        self.channel < channels_of(&self.load)
    }

    /// The load with the numbers of the frame, and with the bytes of its pictures.
    pub(crate) fn finished(self) -> Load
        ensures { result ≡ record self.load { stats = self.stats; bytes = flat_map ppm_bytes self.load.images } }
    {
        let mut load = self.load;
        load.set_stats(self.stats);
        load.write_bytes();
        load
    }
}

/// Ends a channel of a frame: puts the picture of all its pieces into its image, if this has the lens's size, and goes
/// on to the next channel.
fn end_channel<R: Threads + Sync>(
    rt: &R,
    raster: &mut PieceRaster,
    image: &mut Image,
    frame: &mut Drawing,
    stats: Stats,
)
    requires size { IsOfSize raster.old.lens image.old }
    requires few { frame.old.channel < 4 }
    ensures lens { raster.new.lens ≡ raster.old.lens }
    ensures back { raster.new.back ≡ raster.old.back }
    ensures size { IsOfSize raster.old.lens image.new }
    ensures ends { EndsChannel raster.old.lens raster.old.back stats raster.old raster.new frame.old frame.new }
{
    raster.finish(rt, image);
    let _ = frame.load.swap_image(frame.channel, image);
    frame.channel += 1;
    frame.stats = added(frame.stats, stats);
}

/// Draws a piece that came for a frame.
pub(crate) fn draw_piece<R: Threads + Sync>(
    rt: &R,
    raster: &mut PieceRaster,
    image: &mut Image,
    frame: &mut Drawing,
    piece: &Piece,
)
    requires size { IsOfSize raster.old.lens image.old }
    requires few { frame.old.channel < 4 }
    ensures size { IsOfSize raster.old.lens image.new }
    ensures draws { DrawsPiece piece.now raster.old raster.new frame.old frame.new }
{
    raster.add(rt, piece.list());
    if !piece.is_last() {
        return;
    }
    end_channel(rt, raster, image, frame, piece.stats());
}
