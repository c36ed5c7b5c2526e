//! Edits that change the kind of one node alone: their faults, and what they make of the kind.
ghost use Rattle.std.specs.Prelude.{◌≡◌, ◌∷◌, [], ◌++◌, ◌≤◌, ℕ, Option, IfOk, true};
ghost use Rattle.std.specs.Option.{option_copied};
ghost use Rattle.fx_math.specs.Within.{IsWithin};
ghost use Rattle.pf_model.specs.Angles.{AreAngles};
ghost use Rattle.pf_model.specs.Kinds.{is_geode, is_switch, is_dcs, is_lod, is_sequence, ranges_of, times_of, with_pick, with_pose, euler_of, moved_to, turned_to, scaled_to, put_at, with_range, with_centre, with_time, run_from, held_at, stopped, with_geom};
ghost use Rattle.pf_model.specs.Graphs.{SceneGraph, node_at};
ghost use Rattle.pf_model.specs.Copies.{named_by};
ghost use Rattle.pf_model.specs.NodeEdits.{is_attribute, kind_after};
ghost use Rattle.pf_model.specs.Edits.{first, node_rules, past, other_count, attribute_rules, fault_of};
ghost use Rattle.pf_model.specs.Fits.{fits};

use crate::edits::{Edit, Fault};
use crate::geometry::Geom;
use crate::lists::{Ranges, Times};
use crate::nodes::{Kind, Node, Pick, Run};
use crate::poses::{Euler, Pose};
use crate::sequences::sequence_place;
use fx_math::{Affine, Vec3};
use pf_io::NoMemory;

// The faults

fn is_switch(kind: &Kind) -> bool
    ensures { result ≡ is_switch kind.now }
{
    matches!(kind, Kind::Switch(_))
}

fn is_dcs(kind: &Kind) -> bool
    ensures { result ≡ is_dcs kind.now }
{
    matches!(kind, Kind::Dcs(_))
}

fn is_lod(kind: &Kind) -> bool
    ensures { result ≡ is_lod kind.now }
{
    matches!(kind, Kind::Lod { .. })
}

fn is_sequence(kind: &Kind) -> bool
    ensures { result ≡ is_sequence kind.now }
{
    matches!(kind, Kind::Seq { .. })
}

/// The fault of an edit of a switch.
fn switch_fault(node: Option<&Node>, id: u16) -> Option<Fault>
    ensures { result ≡ first (node_rules is_switch id (option_copied node.entry)) }
{
    match node {
        None => Some(Fault::Absent(id)),
        Some(node) if is_switch(&node.kind) => None,
        Some(_) => Some(Fault::Kind(id)),
    }
}

/// The fault of an edit of a dynamic coordinate system.
fn dcs_fault(node: Option<&Node>, id: u16) -> Option<Fault>
    ensures { result ≡ first (node_rules is_dcs id (option_copied node.entry)) }
{
    match node {
        None => Some(Fault::Absent(id)),
        Some(node) if is_dcs(&node.kind) => None,
        Some(_) => Some(Fault::Kind(id)),
    }
}

/// The fault of an edit of a level of detail, places aside.
fn lod_fault(node: Option<&Node>, id: u16) -> Option<Fault>
    ensures { result ≡ first (node_rules is_lod id (option_copied node.entry)) }
{
    match node {
        None => Some(Fault::Absent(id)),
        Some(node) if is_lod(&node.kind) => None,
        Some(_) => Some(Fault::Kind(id)),
    }
}

/// The fault of an edit of a sequence, places aside.
fn sequence_fault(node: Option<&Node>, id: u16) -> Option<Fault>
    ensures { result ≡ first (node_rules is_sequence id (option_copied node.entry)) }
{
    match node {
        None => Some(Fault::Absent(id)),
        Some(node) if is_sequence(&node.kind) => None,
        Some(_) => Some(Fault::Kind(id)),
    }
}

/// The fault of setting a range.
fn range_fault(node: Option<&Node>, id: u16, place: u16) -> Option<Fault>
    ensures { result ≡ first (node_rules is_lod id (option_copied node.entry)
        ++ past ranges_of (option_copied node.entry) 256 place ∷ []) }
{
    let node = match node {
        None => return Some(Fault::Absent(id)),
        Some(node) => node,
    };
    match &node.kind {
        Kind::Lod { ranges, .. } => {
            if usize::from(place) > ranges.len() || place > 256 {
                Some(Fault::Place(place))
            } else {
                None
            }
        }
        _ => Some(Fault::Kind(id)),
    }
}

/// The fault of setting a time.
fn time_fault(node: Option<&Node>, id: u16, place: u16) -> Option<Fault>
    ensures { result ≡ first (node_rules is_sequence id (option_copied node.entry)
        ++ past times_of (option_copied node.entry) 255 place ∷ []) }
{
    let node = match node {
        None => return Some(Fault::Absent(id)),
        Some(node) => node,
    };
    match &node.kind {
        Kind::Seq { times, .. } => {
            if usize::from(place) > times.len() || place > 255 {
                Some(Fault::Place(place))
            } else {
                None
            }
        }
        _ => Some(Fault::Kind(id)),
    }
}

/// The fault of replacing the triangles of a geode by so many.
fn geom_fault(node: Option<&Node>, id: u16, count: usize) -> Option<Fault>
    requires { count ≤ 4096 }
    ensures { result ≡ first (node_rules is_geode id (option_copied node.entry)
        ++ other_count (option_copied node.entry) count ∷ []) }
{
    let node = match node {
        None => return Some(Fault::Absent(id)),
        Some(node) => node,
    };
    match &node.kind {
        Kind::Geode { geom, .. } | Kind::Glass { geom, .. } => {
            if geom.len() == count {
                None
            } else {
                Some(Fault::Many(count as u32))
            }
        }
        _ => Some(Fault::Kind(id)),
    }
}

fn fault_by_rules(node: Option<&Node>, e: &Edit) -> Option<Fault>
    requires { is_attribute e.now ≡ true }
    ensures { result ≡ first (attribute_rules e.now (option_copied node.entry)) }
{
    match e {
        Edit::Pick { id, .. } => switch_fault(node, *id),
        Edit::Mat { id, .. } => dcs_fault(node, *id),
        Edit::Trans { id, .. } => dcs_fault(node, *id),
        Edit::Rot { id, .. } => dcs_fault(node, *id),
        Edit::Scale { id, .. } => dcs_fault(node, *id),
        Edit::Range { id, place, .. } => range_fault(node, *id, *place),
        Edit::Centre { id, .. } => lod_fault(node, *id),
        Edit::Times { id, place, .. } => time_fault(node, *id, *place),
        Edit::Run { id } => sequence_fault(node, *id),
        Edit::Stop { id } => sequence_fault(node, *id),
        Edit::Verts { id, geom } => geom_fault(node, *id, geom.len()),
        Edit::Make { .. }
        | Edit::Add { .. }
        | Edit::Insert { .. }
        | Edit::Replace { .. }
        | Edit::Remove { .. }
        | Edit::Delete { .. } => unreachable!(),
    }
}

/// The fault of an edit that changes the kind of one node alone, from the node that it names, where there is one. It
/// looks at no other node.
pub fn attribute_fault(node: Option<&Node>, e: &Edit) -> Option<Fault>
    requires { is_attribute e.now ≡ true }
    ensures rules { result ≡ first (attribute_rules e.now (option_copied node.entry)) }
    ensures fault { (g : SceneGraph) → node_at g.nodes (named_by e.now) ≡ option_copied node.entry
        → result ≡ fault_of g e.now }
{
    fault_by_rules(node, e)
}

// What an edit makes of a kind

fn with_pick(kind: &Kind, pick: Pick) -> Result<Kind, NoMemory>
    ensures { IfOk result (λ k. k ≡ with_pick pick kind.now) }
{
    match kind {
        Kind::Switch(_) => Ok(Kind::Switch(pick)),
        _ => kind.copy(),
    }
}

fn with_matrix(kind: &Kind, matrix: Affine) -> Result<Kind, NoMemory>
    ensures { IfOk result (λ k. k ≡ with_pose (λ _. Pose.Matrix matrix) kind.now) }
{
    match kind {
        Kind::Dcs(_) => Ok(Kind::Dcs(Pose::Matrix(matrix))),
        _ => kind.copy(),
    }
}

/// A pose as an Euler pose: of a matrix its translation alone.
fn euler_of(pose: &Pose) -> Euler
    ensures { result ≡ euler_of pose.now }
{
    match pose {
        Pose::Matrix(matrix) => Euler {
            scale: 65_536,
            h: 0,
            p: 0,
            r: 0,
            t: matrix.t,
        },
        Pose::Euler(euler) => *euler,
    }
}

fn with_translation(kind: &Kind, t: Vec3) -> Result<Kind, NoMemory>
    ensures { IfOk result (λ k. k ≡ with_pose (moved_to t) kind.now) }
{
    match kind {
        Kind::Dcs(pose) => {
            let mut euler = euler_of(pose);
            euler.t = t;
            Ok(Kind::Dcs(Pose::Euler(euler)))
        }
        _ => kind.copy(),
    }
}

fn with_angles(kind: &Kind, h: i32, p: i32, r: i32) -> Result<Kind, NoMemory>
    requires { AreAngles h p r }
    ensures { IfOk result (λ k. k ≡ with_pose (turned_to h p r) kind.now) }
{
    match kind {
        Kind::Dcs(pose) => {
            let mut euler = euler_of(pose);
            euler.h = h;
            euler.p = p;
            euler.r = r;
            Ok(Kind::Dcs(Pose::Euler(euler)))
        }
        _ => kind.copy(),
    }
}

fn with_scale(kind: &Kind, s: i32) -> Result<Kind, NoMemory>
    requires { IsWithin 1048576 s }
    ensures { IfOk result (λ k. k ≡ with_pose (scaled_to s) kind.now) }
{
    match kind {
        Kind::Dcs(pose) => {
            let mut euler = euler_of(pose);
            euler.scale = s;
            Ok(Kind::Dcs(Pose::Euler(euler)))
        }
        _ => kind.copy(),
    }
}

fn with_centre(kind: &Kind, centre: Vec3) -> Result<Kind, NoMemory>
    ensures { IfOk result (λ k. k ≡ with_centre centre kind.now) }
{
    match kind {
        Kind::Lod { ranges, .. } => {
            let ranges = ranges.copy()?;
            Ok(Kind::Lod { centre, ranges })
        }
        _ => kind.copy(),
    }
}

fn run_from(kind: &Kind, time: u32) -> Result<Kind, NoMemory>
    ensures { IfOk result (λ k. k ≡ run_from time kind.now) }
{
    match kind {
        Kind::Seq { times, .. } => {
            let times = times.copy()?;
            let run = Run::Since(time);
            Ok(Kind::Seq { times, run })
        }
        _ => kind.copy(),
    }
}

/// A run held where it stands at a time.
fn held_at(times: &Times, children: usize, time: u32, run: Run) -> Run
    requires { children ≤ 256 }
    ensures { result ≡ held_at times.now children time run }
{
    match run {
        Run::Held(place) => Run::Held(place),
        Run::Since(_) => Run::Held(sequence_place(times.as_slice(), run, children, time).unwrap_or(
            0,
        )),
    }
}

fn stopped(kind: &Kind, children: usize, time: u32) -> Result<Kind, NoMemory>
    requires { children ≤ 256 }
    ensures { IfOk result (λ k. k ≡ stopped time children kind.now) }
{
    match kind {
        Kind::Seq { times, run } => {
            let run = held_at(times, children, time, *run);
            let times = times.copy()?;
            Ok(Kind::Seq { times, run })
        }
        _ => kind.copy(),
    }
}

fn with_geom(kind: &Kind, geom: &Geom) -> Result<Kind, NoMemory>
    ensures { IfOk result (λ k. k ≡ with_geom geom.now kind.now) }
{
    match kind {
        Kind::Geode { state, .. } => {
            let geom = geom.copy()?;
            Ok(Kind::Geode {
                state: *state,
                geom,
            })
        }
        Kind::Glass { state, alpha, .. } => {
            let geom = geom.copy()?;
            Ok(Kind::Glass {
                state: *state,
                alpha: *alpha,
                geom,
            })
        }
        _ => kind.copy(),
    }
}

#[tactic(auto, using(crate::proofs::Entries::put_within, crate::proofs::Entries::put_past))]
fn ranges_with(ranges: &Ranges, place: usize, value: u32) -> Result<Ranges, NoMemory>
    requires { place ≤ 256 }
    ensures { IfOk result (λ rs. rs ≡ put_at ranges.now place value) }
{
    let mut ranges = ranges.copy()?;
    let end = ranges.len();
    if place < end {
        ranges.set(place, value);
    } else {
        ranges.insert(end, value)?;
    }
    Ok(ranges)
}

#[tactic(auto, using(crate::proofs::Entries::put_within, crate::proofs::Entries::put_past))]
fn times_with(times: &Times, place: usize, frames: u16) -> Result<Times, NoMemory>
    requires { place ≤ 255 }
    ensures { IfOk result (λ ts. ts ≡ put_at times.now place frames) }
{
    let mut times = times.copy()?;
    let end = times.len();
    if place < end {
        times.set(place, frames);
    } else {
        times.insert(end, frames)?;
    }
    Ok(times)
}

fn with_range(kind: &Kind, place: usize, value: u32) -> Result<Kind, NoMemory>
    requires { place ≤ 256 }
    ensures { IfOk result (λ k. k ≡ with_range place value kind.now) }
{
    match kind {
        Kind::Lod { centre, ranges } => {
            let ranges = ranges_with(ranges, place, value)?;
            Ok(Kind::Lod {
                centre: *centre,
                ranges,
            })
        }
        _ => kind.copy(),
    }
}

fn with_time(kind: &Kind, place: usize, frames: u16) -> Result<Kind, NoMemory>
    requires { place ≤ 255 }
    ensures { IfOk result (λ k. k ≡ with_time place frames kind.now) }
{
    match kind {
        Kind::Seq { times, run } => {
            let times = times_with(times, place, frames)?;
            Ok(Kind::Seq { times, run: *run })
        }
        _ => kind.copy(),
    }
}

/// What an edit that fits makes of the kind of its node at a time: another kind where it changes the kind alone, else an
/// equal one.
pub fn kind_after(node: &Node, time: u32, e: &Edit) -> Result<Kind, NoMemory>
    requires { fits e.now ≡ true }
    ensures { IfOk result (λ k. k ≡ kind_after time e.now node.now) }
{
    match e {
        Edit::Pick { pick, .. } => with_pick(&node.kind, *pick),
        Edit::Mat { mat, .. } => with_matrix(&node.kind, *mat),
        Edit::Trans { t, .. } => with_translation(&node.kind, *t),
        Edit::Rot { h, p, r, .. } => with_angles(&node.kind, *h, *p, *r),
        Edit::Scale { s, .. } => with_scale(&node.kind, *s),
        Edit::Range { place, value, .. } => with_range(&node.kind, usize::from(*place), *value),
        Edit::Centre { at, .. } => with_centre(&node.kind, *at),
        Edit::Times { place, frames, .. } => with_time(&node.kind, usize::from(*place), *frames),
        Edit::Run { .. } => run_from(&node.kind, time),
        Edit::Stop { .. } => stopped(&node.kind, node.children.len(), time),
        Edit::Verts { geom, .. } => with_geom(&node.kind, geom),
        Edit::Make { .. }
        | Edit::Add { .. }
        | Edit::Insert { .. }
        | Edit::Replace { .. }
        | Edit::Remove { .. }
        | Edit::Delete { .. } => node.kind.copy(),
    }
}
