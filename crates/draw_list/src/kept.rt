//! The triangles that a draw list keeps, each geode's once.
ghost use Rattle.std.specs.Prelude.{◌≡◌, ℕ, ◌+◌, ◌<◌, ◌≤◌, max, [], None, length, slice_get, OnOk};
ghost use Rattle.draw_list.specs.Items.{tris_at};
ghost use Rattle.draw_list.specs.Kept.{span_at, kept_span, with_kept};

use crate::items::Span;
use crate::spans::Spans;
use crate::tables::grown;
use pf_io::NoMemory;
use pf_model::{Geom, Tri};
use std::alloc::Global;
use std::marker::Model;

/// The most triangles that have a number.
const MOST: usize = 4_294_967_295;

/// Triangles, and where those of each id stand, with room for more triangles.
#[derive(Debug, Drop)]
pub(crate) struct Kept {
    tris: Vec<Tri>,
    spans: Spans,
    room: usize,
}

impl Model for Kept {
    ghost use Rattle.std.specs.Prelude.{◌-◌};
    ghost use Rattle.std.specs.Vec.{vec_len, vec_capacity};
    ghost use Rattle.draw_list.specs.Kept.{KeptTris, IsKept};

    ghost Value = { KeptTris };

    ghost view = { λ d. record { tris = d.tris.items; spans = d.spans; spare = d.room - vec_len d.tris } };

    ghost invariant = { λ d. IsKept d.tris.items d.spans d.room (vec_capacity d.tris) };
}

impl Kept {
    /// No triangles and no room.
    pub(crate) fn new(alloc: Global) -> Kept
        ensures { result ≡ record { tris = []; spans = []; spare = 0 } }
    {
        Kept {
            tris: Vec::new(alloc),
            spans: Spans::new(alloc),
            room: 0,
        }
    }

    /// How many more triangles have room.
    pub(crate) fn spare(&self) -> usize
        ensures { result ≡ self.now.spare }
    {
        self.room - self.tris.len()
    }

    /// Makes room for this many more triangles.
    pub(crate) fn reserve(&mut self, n: usize) -> Result<(), NoMemory>
        ensures tris { self.new.tris ≡ self.old.tris }
        ensures spans { (id : ℕ) → span_at self.new id ≡ span_at self.old id }
        ensures more { self.old.spare ≤ self.new.spare }
        ensures few { self.new.spare ≤ max self.old.spare n }
        ensures room { OnOk result (n ≤ self.new.spare) }
    {
        self.spans.reserve()?;
        self.room = grown(&mut self.tris, self.room, n, MOST)?;
        Ok(())
    }

    /// Keeps no triangles.
    pub(crate) fn clear(&mut self)
        ensures tris { self.new.tris ≡ [] }
        ensures spans { (id : ℕ) → span_at self.new id ≡ None }
        ensures places { 0 < self.new.spare → length self.new.spans ≡ 65536 }
        ensures len { length self.new.spans ≡ length self.old.spans }
        ensures spare { self.new.spare ≡ self.old.spare + length self.old.tris }
    {
        self.tris.clear();
        self.spans.clear();
    }

    /// Where the triangles of an id stand, where they are kept.
    fn span(&self, id: u16) -> Option<Span>
        ensures { result ≡ span_at self.now id }
    {
        self.spans.get(id)
    }

    /// Keeps the triangles of an id, where they are not kept yet, and answers where they stand; none where they have no
    /// room.
    pub(crate) fn keep(&mut self, id: u16, geom: &Geom) -> Option<Span>
        ensures span { result ≡ kept_span id geom.now self.old }
        ensures list { self.new ≡ with_kept id geom.now self.old }
    {
        if let Some(span) = self.span(id) {
            return Some(span);
        }
        let tris = geom.as_slice();
        if tris.is_empty() {
            return Some(Span { from: 0, len: 0 });
        }
        let len = self.tris.len();
        if tris.len() > self.room - len {
            return None;
        }
        let span = Span {
            from: len as u32,
            len: tris.len() as u32,
        };
        match self.tris.extend_from_slice(tris) {
            Ok(()) => {
                self.spans.set(id, span);
                Some(span)
            }
            Err(_) => unreachable!(),
        }
    }

    /// The triangle of a number in a span; none past the span's end, and where the span goes past the triangles kept.
    pub(crate) fn tri(&self, s: Span, i: u32) -> Option<Tri>
        ensures { result ≡ slice_get (tris_at self.now.tris s) i }
    {
        let (from, len) = (s.from as usize, s.len as usize);
        if from + len > self.tris.len() {
            return None;
        }
        self.tris.as_slice()[from..from + len]
            .get(i as usize)
            .copied()
    }

    /// The number of triangles kept.
    pub(crate) fn len(&self) -> usize
        ensures { result ≡ length self.now.tris }
    {
        self.tris.len()
    }
}
