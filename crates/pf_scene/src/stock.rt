//! The cycle of each geode of a graph, before and after its edits.
ghost use Rattle.std.specs.Prelude.{◌≡◌, ◌≢◌, ℕ, ◌+◌, ◌-◌, ◌^◌, ◌<◌, ◌≤◌, true, false, None, [], map, length, OnOk, OnErr, option_map};
ghost use Rattle.std.specs.List.{list_all, list_any};
ghost use Rattle.std.specs.Option.{option_copied};
ghost use Rattle.std.specs.Vec.{vec_capacity};
ghost use Rattle.pf_model.specs.Kinds.{geom_of, is_geode};
ghost use Rattle.pf_model.specs.Graphs.{node_at};
ghost use Rattle.pf_model.specs.Fits.{fits, kind_fits};
ghost use Rattle.pf_model.specs.Copies.{named_by};
ghost use Rattle.cycle_buffer.specs.Cycles.{written_at, out_at, most_of};
ghost use Rattle.update_lists.specs.Marks.{among};
ghost use Rattle.update_lists.specs.Taking.{IsWritten, geode_serial};
ghost use Rattle.pf_scene.specs.Counts.{AreTrimmed, AreAsMany, fitting, fitting_in, fitting_in_all};
ghost use Rattle.pf_scene.specs.Stock.{makes_geode, serial_after, serial_behind, HasCycle, HaveCycles, IsSized};

use cycle_buffer::Cycles;
use pf_edits::WorkGraph;
use pf_io::NoMemory;
use pf_model::{Edit, Geom, Gone, Kind, Node, NodeView};
use update_lists::Updates;

/// The triangles of a geode.
fn tris_of(kind: &Kind) -> Option<&Geom>
    ensures { option_copied result ≡ geom_of kind.now }
{
    match kind {
        Kind::Geode { geom, .. } | Kind::Glass { geom, .. } => Some(geom),
        _ => None,
    }
}

/// Whether an edit makes a geode.
pub(crate) fn makes_geode(e: &Edit) -> bool
    ensures { result ≡ makes_geode e.now }
{
    match e {
        Edit::Make { kind, .. } => kind.is_geode(),
        _ => false,
    }
}

/// Whether one of these edits makes a geode.
pub(crate) fn make_geode(edits: &[Edit]) -> bool
    ensures { result ≡ list_any makes_geode edits.now }
{
    edits.iter().any(|e| makes_geode(e))
}

/// The serial that the next node gets after an edit.
fn serial_after(serial: u32, e: &Edit) -> u32
    requires { serial < 2 ^ 32 - 1 }
    ensures value { result ≡ serial_after serial e.now }
    ensures more { result ≤ serial + 1 }
{
    match e {
        Edit::Make { .. } => serial + 1,
        _ => serial,
    }
}

/// Drops the cycle of a serial, where there is one.
fn drop_cycle(cycles: &mut Cycles, serial: u32)
    ensures none { written_at cycles.new serial ≡ None }
    ensures others { (s : ℕ) → s ≢ serial → written_at cycles.new s ≡ written_at cycles.old s }
    ensures out { (s : ℕ) → s ≢ serial → out_at cycles.new s ≡ out_at cycles.old s }
    ensures trimmed { (next : ℕ) → AreTrimmed next cycles.old cycles.new }
{
    cycles.remove(serial);
}

/// Makes a cycle for the geode of this kind under a serial that has none.
#[tactic(auto, using(crate::proofs::Written::no_cycle, crate::proofs::Written::is_light))]
fn add_kind(cycles: &mut Cycles, serial: u32, kind: &Kind) -> Result<(), NoMemory>
    requires light { kind_fits kind.now ≡ true }
    requires absent { written_at cycles.old serial ≡ None }
    ensures made { OnOk result (written_at cycles.new serial ≡ geom_of kind.now) }
    ensures others { (s : ℕ) → s ≢ serial → written_at cycles.new s ≡ written_at cycles.old s }
    ensures unchanged { OnErr result (cycles.new ≡ cycles.old) }
    ensures absent { is_geode kind.now ≡ false → cycles.new ≡ cycles.old }
    ensures out { (s : ℕ) → out_at cycles.new s ≡ out_at cycles.old s }
    ensures trimmed { AreTrimmed serial cycles.old cycles.new }
{
    match tris_of(kind) {
        Some(geom) => cycles.add(serial, geom.as_slice()),
        None => Ok(()),
    }
}

/// Makes a cycle for the geode that an edit makes, under the serial that it would get.
fn add_edit(cycles: &mut Cycles, serial: u32, e: &Edit) -> Result<(), NoMemory>
    requires fits { fits e.now ≡ true }
    requires absent { written_at cycles.old serial ≡ None }
    ensures made { OnOk result (HasCycle (written_at cycles.new) serial e.now) }
    ensures others { (s : ℕ) → s ≢ serial → written_at cycles.new s ≡ written_at cycles.old s }
    ensures unchanged { OnErr result (cycles.new ≡ cycles.old) }
    ensures no_make { serial_after serial e.now ≡ serial → cycles.new ≡ cycles.old }
    ensures out { (s : ℕ) → out_at cycles.new s ≡ out_at cycles.old s }
    ensures trimmed { AreTrimmed serial cycles.old cycles.new }
{
    match e {
        Edit::Make { kind, .. } => add_kind(cycles, serial, kind),
        _ => Ok(()),
    }
}

/// The serial that the next node gets after these edits.
fn serial_behind(serial: u32, edits: &[Edit]) -> u32
    requires { serial + length edits.now < 2 ^ 32 }
    ensures value { result ≡ serial_behind serial edits.now }
{
    let mut next = serial;
    for e in edits {
        next = serial_after(next, e);
    }
    next
}

/// Makes a cycle for each geode that these edits make, under the serial that it would get.
fn prepare(cycles: &mut Cycles, first: u32, edits: &[Edit]) -> Result<(), NoMemory>
    requires fits { list_all fits edits.now ≡ true }
    requires serials { first + length edits.now < 2 ^ 32 }
    requires fresh { (s : ℕ) → first ≤ s → written_at cycles.old s ≡ None }
    ensures made { OnOk result (HaveCycles (written_at cycles.new) first edits.now) }
    ensures below { (s : ℕ) → s < first → written_at cycles.new s ≡ written_at cycles.old s }
    ensures above { (s : ℕ) → serial_behind first edits.now ≤ s → written_at cycles.new s ≡ None }
    ensures out { (s : ℕ) → out_at cycles.new s ≡ out_at cycles.old s }
    ensures trimmed { AreTrimmed first cycles.old cycles.new }
{
    let mut serial = first;
    for e in edits {
        add_edit(cycles, serial, e)?;
        serial = serial_after(serial, e);
    }
    Ok(())
}

/// Drops the cycles that were made for these edits.
pub(crate) fn withdraw(cycles: &mut Cycles, first: u32, edits: &[Edit])
    requires serials { first + length edits.now < 2 ^ 32 }
    requires above { (s : ℕ) → serial_behind first edits.now ≤ s → written_at cycles.old s ≡ None }
    ensures below { (s : ℕ) → s < first → written_at cycles.new s ≡ written_at cycles.old s }
    ensures fresh { (s : ℕ) → first ≤ s → written_at cycles.new s ≡ None }
    ensures out { (s : ℕ) → s < first → out_at cycles.new s ≡ out_at cycles.old s }
    ensures trimmed { (n : ℕ) → AreTrimmed n cycles.old cycles.new }
{
    let next = serial_behind(first, edits);
    for serial in first..next {
        drop_cycle(cycles, serial);
    }
}

/// Makes a cycle for each geode that these edits make, under the serial that it would get, or leaves what was written.
pub(crate) fn open(cycles: &mut Cycles, first: u32, edits: &[Edit]) -> Result<(), NoMemory>
    requires fits { list_all fits edits.now ≡ true }
    requires serials { first + length edits.now < 2 ^ 32 }
    requires fresh { (s : ℕ) → first ≤ s → written_at cycles.old s ≡ None }
    ensures made { OnOk result (HaveCycles (written_at cycles.new) first edits.now) }
    ensures none { OnOk result (list_any makes_geode edits.now ≡ false
        → (s : ℕ) → first ≤ s → written_at cycles.new s ≡ None) }
    ensures below { (s : ℕ) → s < first → written_at cycles.new s ≡ written_at cycles.old s }
    ensures above { (s : ℕ) → serial_behind first edits.now ≤ s → written_at cycles.new s ≡ None }
    ensures fresh { OnErr result ((s : ℕ) → first ≤ s → written_at cycles.new s ≡ None) }
    ensures out { (s : ℕ) → s < first → out_at cycles.new s ≡ out_at cycles.old s }
    ensures trimmed { AreTrimmed first cycles.old cycles.new }
{
    match prepare(cycles, first, edits) {
        Ok(()) => Ok(()),
        Err(NoMemory) => {
            withdraw(cycles, first, edits);
            Err(NoMemory)
        }
    }
}

/// Writes the triangles of a node that is a geode to its cycle.
fn settle_node(cycles: &mut Cycles, node: Option<&Node>)
    requires sized { IsSized (written_at cycles.old) (option_copied node) }
    ensures written { IsWritten (written_at cycles.new) (option_copied node.entry) }
    ensures others { (s : ℕ) → among s (geode_serial (option_copied node.entry)) ≡ false
        → written_at cycles.new s ≡ written_at cycles.old s }
    ensures lengths { (s : ℕ) → option_map length (written_at cycles.new s)
        ≡ option_map length (written_at cycles.old s) }
    ensures trimmed { (next : ℕ) → AreTrimmed next cycles.old cycles.new }
{
    if let Some(node) = node {
        if let Some(geom) = tris_of(&node.kind) {
            cycles.write(node.serial, geom.as_slice());
        }
    }
}

/// Writes the triangles of each geode that these edits name to its cycle.
pub(crate) fn settle(cycles: &mut Cycles, graph: &WorkGraph, edits: &[Edit])
    requires sized { (id : ℕ) → IsSized (written_at cycles.old) (node_at graph.now.nodes id) }
    ensures named { (id : ℕ) → among id (map named_by edits.now) ≡ true
        → IsWritten (written_at cycles.new) (node_at graph.now.nodes id) }
    ensures kept { (id : ℕ) → IsWritten (written_at cycles.old) (node_at graph.now.nodes id)
        → IsWritten (written_at cycles.new) (node_at graph.now.nodes id) }
    ensures lengths { (s : ℕ) → option_map length (written_at cycles.new s)
        ≡ option_map length (written_at cycles.old s) }
    ensures trimmed { (next : ℕ) → AreTrimmed next cycles.old cycles.new }
{
    graph.keeps_limits();
    for e in edits {
        settle_node(cycles, graph.node(e.named()));
    }
}

/// Drops the cycles of deleted nodes.
pub(crate) fn forget(cycles: &mut Cycles, gone: &[Gone])
    ensures others { (s : ℕ) → among s (map (λ g. g.serial) gone.now) ≡ false
        → written_at cycles.new s ≡ written_at cycles.old s }
    ensures dropped { (s : ℕ) → among s (map (λ g. g.serial) gone.now) ≡ true → written_at cycles.new s ≡ None }
    ensures none { (s : ℕ) → written_at cycles.old s ≡ None → written_at cycles.new s ≡ None }
    ensures trimmed { (next : ℕ) → AreTrimmed next cycles.old cycles.new }
{
    for remains in gone {
        drop_cycle(cycles, remains.serial);
    }
}

/// The triangles of a geode, taken out of it.
fn into_tris(kind: Kind) -> Option<Geom>
    ensures { result ≡ geom_of kind }
{
    match kind {
        Kind::Geode { geom, .. } | Kind::Glass { geom, .. } => Some(geom),
        _ => None,
    }
}

/// Takes back the triangles of a node that is a geode, or drops them where its cycle does not miss them.
fn take_home(cycles: &mut Cycles, node: Option<Node>)
    ensures written { (s : ℕ) → written_at cycles.new s ≡ written_at cycles.old s }
    ensures most { most_of cycles.new ≡ most_of cycles.old }
    ensures counts { AreAsMany cycles.old cycles.new }
    ensures out { (s : ℕ) → out_at cycles.new s ≡ out_at cycles.old s - fitting (written_at cycles.old s) s node }
{
    if let Some(node) = node {
        if let Some(geom) = into_tris(node.kind) {
            cycles.home(node.serial, geom);
        }
    }
}

/// Takes back the triangles of the geodes of an update list.
fn take_list_home(cycles: &mut Cycles, mut updates: Updates)
    ensures written { (s : ℕ) → written_at cycles.new s ≡ written_at cycles.old s }
    ensures most { most_of cycles.new ≡ most_of cycles.old }
    ensures counts { AreAsMany cycles.old cycles.new }
    ensures out { (s : ℕ) → out_at cycles.new s ≡ out_at cycles.old s - fitting_in (written_at cycles.old s) s updates }
{
    for i in 0..updates.len() {
        let mut place = None;
        updates.swap(i, &mut place);
        take_home(cycles, place);
    }
}

/// Takes back the triangles of the geodes of update lists, and leaves no list. For each geode that is as long as its cycle
/// one copy less is out, as long as one is.
pub(crate) fn take_all_home(cycles: &mut Cycles, home: &mut Vec<Updates>)
    ensures written { (s : ℕ) → written_at cycles.new s ≡ written_at cycles.old s }
    ensures most { most_of cycles.new ≡ most_of cycles.old }
    ensures counts { AreAsMany cycles.old cycles.new }
    ensures out { (s : ℕ) → out_at cycles.new s
        ≡ out_at cycles.old s - fitting_in_all (written_at cycles.old s) s home.old.items }
    ensures empty { home.new.items ≡ [] }
    ensures capacity { vec_capacity home.new ≡ vec_capacity home.old }
{
    while let Some(updates) = home.pop() {
        take_list_home(cycles, updates);
    }
}
