//! Heights, unfolded sizes and what is below, by tables over all nodes, level by level: no exponential time.
ghost use Rattle.std.specs.Prelude.{◌≡◌, max, min, ◌+◌, map, IfOk, IsTrue, ◌↔◌};
ghost use Rattle.pf_model.specs.Limits.{IsRising};
ghost use Rattle.std.specs.Prelude.{nat_lt};
ghost use Rattle.std.specs.List.{list_any};
ghost use Rattle.pf_model.specs.Graphs.{greatest};
ghost use Rattle.plain_graph.specs.Extents.{leaf, over, above, told, next_table, extents_of};

use crate::graph::place_of;
use pf_io::NoMemory;
use pf_model::Node;
use std::alloc::Global;

/// Heights are reckoned up to here: more nodes than a chain can have.
const MAX_HEIGHT: u32 = 4_097;

/// Sizes are reckoned up to here: one more than the limit.
const MAX_SIZE: u32 = 131_073;

/// How far the unfolding of a node goes: its height, its size, and whether the target of the survey is below it.
#[derive(Clone, Copy, Debug, PartialEq, Eq)]
pub struct Extent {
    pub height: u32,
    pub size: u32,
    pub reaches: bool,
}

/// The extent of a node without children.
const LEAF: Extent = Extent {
    height: 1,
    size: 1,
    reaches: false,
};

/// The extent of no levels.
const NOTHING: Extent = Extent {
    height: 0,
    size: 0,
    reaches: false,
};

fn greater(a: u32, b: u32) -> u32
    ensures { result ≡ max a b }
{
    if a < b { b } else { a }
}

fn lesser(a: u32, b: u32) -> u32
    ensures { result ≡ min a b }
{
    if a < b { a } else { b }
}

fn height_over(height: u32, below: u32) -> u32
    ensures { result ≡ max height (min 4097 (below + 1)) }
{
    let raised = if below < MAX_HEIGHT {
        below + 1
    } else {
        MAX_HEIGHT
    };
    greater(height, raised)
}

fn size_over(size: u32, below: u32) -> u32
    ensures { result ≡ min 131073 (size + below) }
{
    lesser(MAX_SIZE, size.saturating_add(below))
}

/// The extent of a node with one more child.
fn over(target: u16, extent: Extent, child: u16, below: Extent) -> Extent
    ensures { result ≡ over target extent (child, below) }
{
    Extent {
        height: height_over(extent.height, below.height),
        size: size_over(extent.size, below.size),
        reaches: extent.reaches || child == target || below.reaches,
    }
}

/// What a table tells of an id.
fn told(base: Extent, nodes: &[(u16, Node)], table: &[Extent], id: u16) -> Extent
    ensures { result ≡ told base nodes.now table.now id }
{
    match place_of(nodes, id) {
        Some(place) => table.get(place).copied().unwrap_or(base),
        None => base,
    }
}

/// The extent of a node from those of its children.
fn above(
    target: u16,
    base: Extent,
    nodes: &[(u16, Node)],
    table: &[Extent],
    children: &[u16],
) -> Extent
    ensures { result ≡ above target (told base nodes.now table.now) children.now }
{
    let mut extent = LEAF;
    for child in children {
        extent = over(target, extent, *child, told(base, nodes, table, *child));
    }
    extent
}

/// The table of one more level.
fn next_table(
    alloc: Global,
    target: u16,
    base: Extent,
    nodes: &[(u16, Node)],
    table: &[Extent],
) -> Result<Vec<Extent>, NoMemory>
    ensures { IfOk result (λ t. t.items ≡ next_table target base nodes.now table.now) }
{
    let mut next = Vec::with_capacity(alloc, nodes.len())?;
    for entry in nodes {
        next.push(above(target, base, nodes, table, entry.1.children.as_slice()))?;
    }
    Ok(next)
}

fn are_same(a: &[Extent], b: &[Extent]) -> bool
    ensures { IsTrue result ↔ (a.now ≡ b.now) }
{
    a == b
}

/// The extents of all nodes, with the target below which they are told to reach.
pub(crate) fn extents(
    alloc: Global,
    target: u16,
    nodes: &[(u16, Node)],
) -> Result<Vec<Extent>, NoMemory>
    requires { IsRising (map (λ e. e.0) nodes.now) }
    ensures { IfOk result (λ t. t.items ≡ extents_of target nodes.now) }
{
    let mut table = next_table(alloc, target, NOTHING, nodes, &[])?;
    for level in 1..4_097u32 {
        let next = next_table(alloc, target, LEAF, nodes, table.as_slice())?;
        if are_same(next.as_slice(), table.as_slice()) {
            return Ok(table);
        }
        table = next;
    }
    Ok(table)
}

/// What a table of extents tells of an id.
pub(crate) fn extent_told(nodes: &[(u16, Node)], table: &[Extent], id: u16) -> Extent
    ensures { result ≡ told leaf nodes.now table.now id }
{
    told(LEAF, nodes, table, id)
}

/// The greatest height of a table.
#[tactic(auto, using(crate::proofs::Tables::greatest_more))]
pub(crate) fn greatest_of(table: &[Extent]) -> u32
    ensures { result ≡ greatest (map (λ e. e.height) table.now) }
{
    let mut height = 0;
    for extent in table {
        height = greater(height, extent.height);
    }
    height
}

/// Whether a size of a table is above the limit.
pub(crate) fn is_large(table: &[Extent]) -> bool
    ensures { result ≡ list_any (λ e. nat_lt 131072 e.size) table.now }
{
    table.iter().any(|extent| extent.size > 131_072)
}
