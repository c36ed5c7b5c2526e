//! The nodes of an update list, with their triangles.
ghost use Rattle.std.specs.Prelude.{◌≡◌, ◌≢◌, ℕ, [], ◌≤◌, ◌<◌, ◌+◌, max, true, false, length, map, Some, is_some, IfOk, OnOk, OnErr};
ghost use Rattle.std.specs.List.{All};
ghost use Rattle.std.specs.Option.{option_copied, option_map};
ghost use Rattle.std.specs.Vec.{vec_capacity};
ghost use Rattle.pf_model.specs.Kinds.{geom_of};
ghost use Rattle.pf_model.specs.Limits.{IsRising};
ghost use Rattle.pf_model.specs.Copies.{updates_of};
ghost use Rattle.update_lists.specs.Marks.{among};
ghost use Rattle.update_lists.specs.Taking.{CanTake, IsWritten, geode_serial, geode_serials, times_in};
ghost use Rattle.update_lists.specs.Taking.{bare, bare_updates, kind_with, node_with};

use crate::updates::Updates;
use pf_io::NoMemory;
use pf_model::{Arrays, Geom, Kind, Node, NodeView};
use std::alloc::Global;

/// The triangles of a geode.
fn tris_of(kind: &Kind) -> Option<&Geom>
    ensures { option_copied result ≡ geom_of kind.now }
{
    match kind {
        Kind::Geode { geom, .. } | Kind::Glass { geom, .. } => Some(geom),
        _ => None,
    }
}

/// An equal kind, without the triangles of a geode.
fn copied_kind(alloc: Global, kind: &Kind) -> Result<Kind, NoMemory>
    ensures { IfOk result (λ k. k ≡ kind_with [] kind.now) }
{
    match kind {
        Kind::Geode { state, .. } => Ok(Kind::Geode {
            state: *state,
            geom: Geom::new(Vec::new(alloc))?,
        }),
        Kind::Glass { state, alpha, .. } => Ok(Kind::Glass {
            state: *state,
            alpha: *alpha,
            geom: Geom::new(Vec::new(alloc))?,
        }),
        _ => kind.copy(),
    }
}

/// An equal node or none, without the triangles of a geode.
fn copied_node(alloc: Global, node: Option<&Node>) -> Result<Option<Node>, NoMemory>
    ensures { IfOk result (λ n. n ≡ option_map bare (option_copied node.entry)) }
{
    match node {
        Some(node) => Ok(Some(Node {
            serial: node.serial,
            born: node.born,
            kind: copied_kind(alloc, &node.kind)?,
            children: node.children.copy()?,
        })),
        None => Ok(None),
    }
}

/// The update list of these ids, without triangles.
fn copied_nodes<V: NodeView>(
    ids: &[u16],
    scene: &V,
    alloc: Global,
) -> Result<Vec<(u16, Option<Node>)>, NoMemory>
    ensures updates { IfOk result (λ v. v.items ≡ bare_updates (V.look scene.now) ids.now) }
    ensures room { IfOk result (λ v. vec_capacity v ≡ length ids.now) }
{
    let mut entries = Vec::with_capacity(alloc, ids.len())?;
    for id in ids {
        entries.push_reserved((*id, copied_node(alloc, scene.node(*id))?));
    }
    Ok(entries)
}

/// Makes sure that a copy is free under a serial.
fn ready_serial<A: Arrays>(arrays: &mut A, serial: u32) -> Result<(), NoMemory>
    requires { is_some (A.written arrays.old serial) ≡ true }
    ensures ready { OnOk result (0 < A.free arrays.new serial) }
    ensures more { (s : ℕ) → A.free arrays.old s ≤ A.free arrays.new s }
    ensures others { (s : ℕ) → s ≢ serial → A.free arrays.new s ≡ A.free arrays.old s }
    ensures written { (s : ℕ) → A.written arrays.new s ≡ A.written arrays.old s }
    ensures out { (s : ℕ) → A.out arrays.new s ≡ A.out arrays.old s }
    ensures most { A.most arrays.new ≤ max (A.most arrays.old) (A.out arrays.old serial + 1) }
{
    arrays.ready(serial)
}

/// Makes sure that a copy is free for a node, where it is a geode.
fn ready_node<A: Arrays>(arrays: &mut A, node: Option<&Node>) -> Result<(), NoMemory>
    requires { IsWritten (A.written arrays.old) (option_copied node) }
    ensures ready { OnOk result ((s : ℕ) → among s (geode_serial (option_copied node.entry)) ≡ true
        → 0 < A.free arrays.new s) }
    ensures more { (s : ℕ) → A.free arrays.old s ≤ A.free arrays.new s }
    ensures others { (s : ℕ) → among s (geode_serial (option_copied node.entry)) ≡ false
        → A.free arrays.new s ≡ A.free arrays.old s }
    ensures written { (s : ℕ) → A.written arrays.new s ≡ A.written arrays.old s }
    ensures out { (s : ℕ) → A.out arrays.new s ≡ A.out arrays.old s }
    ensures most { (b : ℕ) → A.most arrays.old ≤ b
        → ((s : ℕ) → among s (geode_serial (option_copied node.entry)) ≡ true → A.out arrays.old s < b)
        → A.most arrays.new ≤ b }
{
    match node {
        Some(node) => {
            if node.kind.is_geode() {
                return ready_serial(arrays, node.serial);
            }
            Ok(())
        }
        None => Ok(()),
    }
}

/// Makes sure that a copy is free for each geode among these ids.
fn ready_nodes<V: NodeView, A: Arrays>(
    ids: &[u16],
    scene: &V,
    arrays: &mut A,
) -> Result<(), NoMemory>
    requires { All (λ id. IsWritten (A.written arrays.old) (V.look scene.now id)) ids.now }
    ensures ready { OnOk result ((s : ℕ) → among s (geode_serials (V.look scene.now) ids.now) ≡ true
        → 0 < A.free arrays.new s) }
    ensures more { (s : ℕ) → A.free arrays.old s ≤ A.free arrays.new s }
    ensures others { (s : ℕ) → among s (geode_serials (V.look scene.now) ids.now) ≡ false
        → A.free arrays.new s ≡ A.free arrays.old s }
    ensures written { (s : ℕ) → A.written arrays.new s ≡ A.written arrays.old s }
    ensures out { (s : ℕ) → A.out arrays.new s ≡ A.out arrays.old s }
    ensures most { (b : ℕ) → A.most arrays.old ≤ b
        → ((s : ℕ) → among s (geode_serials (V.look scene.now) ids.now) ≡ true → A.out arrays.old s < b)
        → A.most arrays.new ≤ b }
{
    for id in ids {
        ready_node(arrays, scene.node(*id))?;
    }
    Ok(())
}

/// Gives a geode other triangles.
fn set_tris(kind: &mut Kind, tris: Geom)
    ensures { kind.new ≡ kind_with tris kind.old }
{
    match kind {
        Kind::Geode { geom, .. } => *geom = tris,
        Kind::Glass { geom, .. } => *geom = tris,
        _ => {}
    }
}

/// Gives a node other triangles, where it is a geode.
fn set_node_tris(node: &mut Option<Node>, tris: Geom)
    ensures { node.new ≡ option_map (node_with tris) node.old }
{
    if let Some(node) = node {
        set_tris(&mut node.kind, tris);
    }
}

/// Gives a node without triangles those of the latest node, from a free copy, where that is a geode.
fn fill_node<A: Arrays>(latest: Option<&Node>, arrays: &mut A, node: &mut Option<Node>)
    requires bare { node.old ≡ option_map bare (option_copied latest) }
    requires written { IsWritten (A.written arrays.old) (option_copied latest) }
    requires free { (s : ℕ) → times_in s (geode_serial (option_copied latest)) ≤ A.free arrays.old s }
    ensures node { node.new ≡ option_copied latest.entry }
    ensures free { (s : ℕ) → A.free arrays.new s + times_in s (geode_serial (option_copied latest.entry))
        ≡ A.free arrays.old s }
    ensures written { (s : ℕ) → A.written arrays.new s ≡ A.written arrays.old s }
    ensures out { (s : ℕ) → A.out arrays.new s
        ≡ A.out arrays.old s + times_in s (geode_serial (option_copied latest.entry)) }
    ensures most { A.most arrays.new ≡ A.most arrays.old }
{
    if let Some(latest) = latest {
        if let Some(geom) = tris_of(&latest.kind) {
            let tris = arrays.array(latest.serial, geom);
            set_node_tris(node, tris);
        }
    }
}

/// Gives the geodes among these ids their triangles, each from a free copy.
fn fill_nodes<V: NodeView, A: Arrays>(
    ids: &[u16],
    scene: &V,
    arrays: &mut A,
    entries: &mut Vec<(u16, Option<Node>)>,
)
    requires bare { entries.old.items ≡ bare_updates (V.look scene.now) ids.now }
    requires written { All (λ id. IsWritten (A.written arrays.old) (V.look scene.now id)) ids.now }
    requires free { (s : ℕ) → times_in s (geode_serials (V.look scene.now) ids.now) ≤ A.free arrays.old s }
    ensures updates { entries.new.items ≡ updates_of (V.look scene.now) ids.now }
    ensures room { vec_capacity entries.new ≡ vec_capacity entries.old }
    ensures free { (s : ℕ) → A.free arrays.new s + times_in s (geode_serials (V.look scene.now) ids.now)
        ≡ A.free arrays.old s }
    ensures written { (s : ℕ) → A.written arrays.new s ≡ A.written arrays.old s }
    ensures out { (s : ℕ) → A.out arrays.new s
        ≡ A.out arrays.old s + times_in s (geode_serials (V.look scene.now) ids.now) }
    ensures most { A.most arrays.new ≡ A.most arrays.old }
{
    for place in 0..ids.len() {
        fill_node(scene.node(ids[place]), arrays, &mut entries[place].1);
    }
}

/// The update list of these ids. All growths come before the first array is taken.
pub(crate) fn take<V: NodeView, A: Arrays>(
    ids: &[u16],
    scene: &V,
    arrays: &mut A,
    alloc: Global,
) -> Result<Updates, NoMemory>
    requires rising { IsRising ids.now }
    requires arrays { CanTake (A.written arrays.old) (V.look scene.now) ids.now }
    ensures updates { IfOk result (λ u. u ≡ updates_of (V.look scene.now) ids.now) }
    ensures taken { OnOk result ((s : ℕ) → A.free arrays.old s ≤ A.free arrays.new s + 1) }
    ensures others { (s : ℕ) → among s (geode_serials (V.look scene.now) ids.now) ≡ false
        → A.free arrays.new s ≡ A.free arrays.old s }
    ensures written { (s : ℕ) → A.written arrays.new s ≡ A.written arrays.old s }
    ensures free { OnErr result ((s : ℕ) → A.free arrays.old s ≤ A.free arrays.new s) }
    ensures out { OnOk result ((s : ℕ) → A.out arrays.new s
        ≡ A.out arrays.old s + times_in s (geode_serials (V.look scene.now) ids.now)) }
    ensures none_out { OnErr result ((s : ℕ) → A.out arrays.new s ≡ A.out arrays.old s) }
    ensures most { (b : ℕ) → A.most arrays.old ≤ b
        → ((s : ℕ) → among s (geode_serials (V.look scene.now) ids.now) ≡ true → A.out arrays.old s < b)
        → A.most arrays.new ≤ b }
{
    let mut entries = copied_nodes(ids, scene, alloc)?;
    ready_nodes(ids, scene, arrays)?;
    fill_nodes(ids, scene, arrays, &mut entries);
    Ok(Updates::of(entries))
}
