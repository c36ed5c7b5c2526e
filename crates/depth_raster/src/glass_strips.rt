//! Glass over the strips of a picture.
ghost use Rattle.std.specs.Prelude.{◌≡◌, All, length};
ghost use Rattle.depth_raster.specs.Blocks.{IsBlockOf};
ghost use Rattle.depth_raster.specs.Pieces.{IsPieceOf};
ghost use Rattle.depth_raster.specs.Strips.{AreTilesOf, TilesRelate, IsStripOf, StripRelates, StripsRelate};
ghost use Rattle.depth_raster.specs.Tiles.{face_glazes, pieces_glazes, ColoursFollow};

use crate::across::{end_tile, first_tile};
use crate::blocks::Block;
use crate::glass_tiles::glaze_tile;
use crate::pieces::Piece;
use crate::strip::Strip;
use crate::strips::claim_strips;
use crate::tile::Tile;
use fx_math::Lens;
use std::thread::Threads;

/// Draws pieces of glass in strips as they stand, which so many processors in all claim one after the other.
pub(crate) fn glaze_strips<R: Threads + Sync>(
    rt: &R,
    processors: usize,
    lens: &Lens,
    pieces: &[Piece],
    strips: &mut Vec<Strip>,
)
    requires strips { All (IsStripOf lens.now) strips.old.items }
    requires pieces { All (IsPieceOf lens.now) pieces.now }
    ensures many { length strips.new.items ≡ length strips.old.items }
    ensures glazed { StripsRelate (ColoursFollow (pieces_glazes lens.now pieces.now)) strips.old.items strips.new.items }
{
    claim_strips(
        rt,
        processors,
        strips,
        &|_i: usize, strip: &mut Strip|
            requires { IsStripOf lens.now strip.now × All (IsPieceOf lens.now) pieces.now }
            ensures { StripRelates (ColoursFollow (pieces_glazes lens.entry.now pieces.entry.now)) strip.entry.now strip.exit.now }
        { glaze_strip(strip, lens, pieces) },
    );
}

/// Draws pieces of glass in a strip.
fn glaze_strip(strip: &mut Strip, lens: &Lens, pieces: &[Piece])
    requires strip { IsStripOf lens.now strip.old }
    requires pieces { All (IsPieceOf lens.now) pieces.now }
    ensures { StripRelates (ColoursFollow (pieces_glazes lens.now pieces.now)) strip.old strip.new }
{
    let band = strip.band;
    glaze_tiles(&mut strip.tiles, &band, lens, pieces);
}

/// Draws pieces of glass over the tiles of a band.
fn glaze_tiles(tiles: &mut [Tile], band: &Block, lens: &Lens, pieces: &[Piece])
    requires tiles { AreTilesOf band.now tiles.old }
    requires band { IsBlockOf lens.now band.now }
    requires pieces { All (IsPieceOf lens.now) pieces.now }
    ensures { TilesRelate (ColoursFollow (pieces_glazes lens.now pieces.now)) tiles.old tiles.new }
{
    for i in 0..pieces.len() {
        glaze_band(tiles, band, lens, &pieces[i]);
    }
}

/// Draws a piece of glass over the tiles of a band, where it reaches its rows.
fn glaze_band(tiles: &mut [Tile], band: &Block, lens: &Lens, piece: &Piece)
    requires tiles { AreTilesOf band.now tiles.old }
    requires band { IsBlockOf lens.now band.now }
    requires ready { IsPieceOf lens.now piece.now }
    ensures { TilesRelate (ColoursFollow (face_glazes lens.now piece.now.face)) tiles.old tiles.new }
{
    let extent = piece.extent;
    if extent.bottom <= band.first || band.first + band.rows <= extent.top {
        return;
    }
    glaze_across(tiles, band, lens, piece);
}

/// Draws a piece of glass over the tiles of a band.
fn glaze_across(tiles: &mut [Tile], band: &Block, lens: &Lens, piece: &Piece)
    requires tiles { AreTilesOf band.now tiles.old }
    requires band { IsBlockOf lens.now band.now }
    requires ready { IsPieceOf lens.now piece.now }
    ensures { TilesRelate (ColoursFollow (face_glazes lens.now piece.now.face)) tiles.old tiles.new }
{
    let start = first_tile(piece);
    let end = tiles.len().min(end_tile(piece));
    for t in start..end {
        glaze_tile(&mut tiles[t], lens, piece);
    }
}
