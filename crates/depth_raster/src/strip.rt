//! A strip of a picture: a band of rows in tiles.
ghost use Rattle.std.specs.Prelude.{◌≡◌, ◌*◌, ◌≤◌, length};
ghost use Rattle.std.specs.Vec.{vec_capacity};

use crate::blocks::Block;
use crate::strip_slots::StripSlot;
use crate::tile::Tile;

/// A band of a picture in tiles, the slots of the pieces that reach its rows, with room for those of all that are drawn together,
/// and the bytes of its rows, into which the tiles are put.
#[derive(Drop)]
pub(crate) struct Strip {
    pub(crate) band: Block,
    pub(crate) tiles: Vec<Tile>,
    pub(crate) slots: Vec<StripSlot>,
    pub(crate) rows: Vec<u8>,
    ghost room: { 16384 ≤ vec_capacity slots },
    ghost whole: { length rows.items ≡ 3 * (band.rows * band.width) },
}
