//! Where the triangles of each id stand.
ghost use Rattle.std.specs.Prelude.{◌≡◌, ℕ, ◌<◌, [], None, Some, is_some, length, slice_index_or, slice_set, OnOk, OnErr};
ghost use Rattle.draw_list.specs.Listed.{AreListed};

use crate::items::Span;
use crate::tables::grow;
use pf_io::NoMemory;
use pf_model::write_to;
use std::alloc::Global;
use std::marker::Model;

/// The number of the ids that there may be.
const IDS: usize = 65_536;

/// A span for each id that has one, and the list of these ids, by which all are taken back. Entries are written up to the
/// greatest id that was set; the width is the number of ids that may have a span, none without memory.
#[derive(Debug, Drop)]
pub(crate) struct Spans {
    spans: Vec<Option<Span>>,
    ids: Vec<u16>,
    width: usize,
}

impl Model for Spans {
    ghost use Rattle.std.specs.Prelude.{List, Option, None, is_some};
    ghost use Rattle.std.specs.Vec.{vec_capacity};
    ghost use Rattle.draw_list.specs.declared.items.Span.{Span};
    ghost use Rattle.draw_list.specs.Listed.{IsListedTable, whole_table};

    ghost Value = { List (Option Span) };

    ghost view = { λ s. whole_table None s.spans.items s.width };

    ghost invariant = { λ s. IsListedTable is_some None s.spans.items s.width (vec_capacity s.spans) s.ids.items (vec_capacity s.ids) };
}

impl Spans {
    /// No id has a span.
    pub(crate) fn new(alloc: Global) -> Spans
        ensures { result ≡ [] }
    {
        Spans {
            spans: Vec::new(alloc),
            ids: Vec::new(alloc),
            width: 0,
        }
    }

    /// Takes memory for the entry of each id.
    pub(crate) fn reserve(&mut self) -> Result<(), NoMemory>
        ensures ready { OnOk result (length self.new ≡ 65536) }
        ensures same { OnErr result (self.new ≡ self.old) }
        ensures spans { (id : ℕ) → slice_index_or self.new id None ≡ slice_index_or self.old id None }
    {
        grow(&mut self.ids, IDS)?;
        grow(&mut self.spans, IDS)?;
        self.width = IDS;
        Ok(())
    }

    /// Takes the span of each id back.
    pub(crate) fn clear(&mut self)
        ensures spans { (id : ℕ) → slice_index_or self.new id None ≡ None }
        ensures len { length self.new ≡ length self.old }
    {
        take_back(self.spans.as_mut_slice(), self.ids.as_slice());
        self.ids.clear();
    }

    /// The span of an id, where it has one.
    pub(crate) fn get(&self, id: u16) -> Option<Span>
        ensures { result ≡ slice_index_or self.now id None }
    {
        match self.spans.get(id as usize) {
            Some(span) => *span,
            None => None,
        }
    }

    /// Gives an id a span that it has not yet.
    pub(crate) fn set(&mut self, id: u16, span: Span)
        requires within { id < length self.old }
        requires none { slice_index_or self.old id None ≡ None }
        ensures { self.new ≡ slice_set self.old id (Some span) }
    {
        let place = id as usize;
        write_to(&mut self.spans, place);
        self.spans[place] = Some(span);
        self.ids.push_reserved(id);
    }
}

/// Takes the spans of these ids back, which are all that have one.
fn take_back(spans: &mut [Option<Span>], ids: &[u16])
    requires { AreListed is_some None spans.old ids.now }
    ensures len { length spans.new ≡ length spans.old }
    ensures none { (id : ℕ) → slice_index_or spans.new id None ≡ None }
{
    for id in ids {
        spans[*id as usize] = None;
    }
}
