//! Pieces of a draw list.
ghost use Rattle.std.specs.Prelude.{◌≡◌, ◌≤◌, [], false, IfOk};
ghost use Rattle.stream_stages.specs.Cuts.{IsPiece};

use draw_list::{DrawList, Stats};
use pf_io::NoMemory;
use std::alloc::Global;
use std::marker::Model;

/// The places for items and joints that a piece has for each item that it may take, since an item may need as many
/// joints.
const PLACES: usize = 32;

/// The triangles that a piece has room for.
const TRIS: usize = 65_536;

/// A piece of the draw list of a channel: at most `limit` items with their joints and triangles, and whether it is the last
/// one, which has the numbers of the whole list. Its limit is 1 to 4,096; once it is cleared, its list has room for 32 times
/// as many items and joints, for 65,536 triangles, and for no more.
#[derive(Debug)]
pub struct Piece {
    pub(crate) list: DrawList,
    pub(crate) limit: u32,
    pub(crate) stats: Stats,
    pub(crate) last: bool,
}

/// Written out, so that to drop one is a single call.
impl Drop for Piece {
    fn drop(self) {
        let Self {
            list: _,
            limit: _,
            stats: _,
            last: _,
        } = self;
    }
}

impl Model for Piece {
    ghost use Rattle.stream_stages.specs.Cuts.{Cut, IsPiece};

    ghost Value = { Cut };

    ghost view = { λ p. record { list = p.list; limit = p.limit; stats = p.stats; last = p.last } };

    ghost invariant = { λ p. IsPiece p.limit p.list };
}

impl Piece {
    /// Returns an empty piece for at most `n` items, 1 to 4,096. Returns `Err(NoMemory)` if memory runs out.
    pub fn new(alloc: Global, n: u32) -> Result<Piece, NoMemory>
        requires least { 1 ≤ n }
        requires most { n ≤ 4096 }
        ensures limit { IfOk result (λ p. p.limit ≡ n) }
        ensures items { IfOk result (λ p. p.list.items.items ≡ []) }
        ensures last { IfOk result (λ p. p.last ≡ false) }
        ensures room { IfOk result (λ p. IsPiece n p.list) }
    {
        let mut list = DrawList::new(alloc);
        list.reserve(PLACES * n as usize, TRIS)?;
        Ok(Piece {
            list,
            limit: n,
            stats: Stats {
                shown: 0,
                states: 0,
                visited: 0,
            },
            last: false,
        })
    }

    /// Returns the items of the piece, with their joints and triangles.
    pub fn list(&self) -> &DrawList
        ensures value { result.now ≡ self.now.list }
        ensures room { IsPiece self.now.limit self.now.list }
    {
        &self.list
    }

    /// Returns the most items that the piece takes, 1 to 4,096.
    pub fn limit(&self) -> u32
        ensures { result ≡ self.now.limit }
    {
        self.limit
    }

    /// Returns the numbers of the whole list if the piece is the last one, else those so far.
    pub fn stats(&self) -> Stats
        ensures { result ≡ self.now.stats }
    {
        self.stats
    }

    /// Returns whether the piece is the last one of its list.
    pub fn is_last(&self) -> bool
        ensures { result ≡ self.now.last }
    {
        self.last
    }
}
