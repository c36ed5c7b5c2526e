//! Edits whose numbers are in the ranges of a play.
ghost use Rattle.std.specs.Prelude.{◌≡◌, ◌&&◌, nat_lt};
ghost use Rattle.std.specs.List.{list_all};
ghost use Rattle.pf_model.specs.Fits.{is_at_most, pick_fits, range_fits, time_fits, run_fits, geom_fits, kind_fits, fits};

use crate::edits::Edit;
use crate::geometry::Geom;
use crate::nodes::{Kind, Pick, Run};

fn is_at_most(bound: u32, z: i32) -> bool
    ensures { result ≡ is_at_most bound z }
{
    z.unsigned_abs() <= bound
}

/// Every id of this type is below 65,536, which definitions over whole numbers ask.
fn is_id(id: u16) -> bool
    ensures { result ≡ nat_lt id 65536 }
{
    u32::from(id) < 65_536
}

fn pick_fits(pick: Pick) -> bool
    ensures { result ≡ pick_fits pick }
{
    match pick {
        Pick::One(place) => place <= 255,
        _ => true,
    }
}

fn range_fits(range: u32) -> bool
    ensures { result ≡ range_fits range }
{
    range <= 2_147_483_647
}

fn ranges_fit(ranges: &[u32]) -> bool
    ensures { result ≡ list_all range_fits ranges.now }
{
    ranges.iter().all(|range| range_fits(*range))
}

fn time_fits(frames: u16) -> bool
    ensures { result ≡ time_fits frames }
{
    frames > 0
}

fn times_fit(times: &[u16]) -> bool
    ensures { result ≡ list_all time_fits times.now }
{
    times.iter().all(|frames| time_fits(*frames))
}

fn run_fits(run: Run) -> bool
    ensures { result ≡ run_fits run }
{
    match run {
        Run::Since(start) => start == 0,
        Run::Held(place) => place <= 255,
    }
}

fn geom_fits(geom: &Geom) -> bool
    ensures { result ≡ geom_fits geom.now }
{
    geom.len() <= 4_096
}

fn kind_fits(kind: &Kind) -> bool
    ensures { result ≡ kind_fits kind.now }
{
    match kind {
        Kind::Switch(pick) => pick_fits(*pick),
        Kind::Lod { ranges, .. } => ranges.len() <= 257 && ranges_fit(ranges.as_slice()),
        Kind::Seq { times, run } => {
            times.len() <= 256 && times_fit(times.as_slice()) && run_fits(*run)
        }
        Kind::Geode { geom, .. } | Kind::Glass { geom, .. } => geom_fits(geom),
        _ => true,
    }
}

fn are_angles(h: i32, p: i32, r: i32) -> bool
    ensures { result ≡ (is_at_most 3600 h && (is_at_most 3600 p && is_at_most 3600 r)) }
{
    is_at_most(3_600, h) && is_at_most(3_600, p) && is_at_most(3_600, r)
}

impl Edit {
    /// Whether the numbers of the edit are in the ranges of a play: angles of a magnitude of at most 3,600, a scale of at
    /// most 1,048,576, a place of an Insert, a Times or a pick up to 255 and one of a Range up to 256, a range up to
    /// 2,147,483,647, a time of at least 1 frame, and at most 4,096 triangles. Of a node that is made, its kind's numbers
    /// likewise, with at most 257 ranges and 256 times, and with a sequence that runs since 0 or is held.
    pub fn fits(&self) -> bool
        ensures { result ≡ fits self.now }
    {
        match self {
            Edit::Make { id, kind } => is_id(*id) && kind_fits(kind),
            Edit::Insert { place, .. } => *place <= 255,
            Edit::Pick { pick, .. } => pick_fits(*pick),
            Edit::Rot { h, p, r, .. } => are_angles(*h, *p, *r),
            Edit::Scale { s, .. } => is_at_most(1_048_576, *s),
            Edit::Range { place, value, .. } => *place <= 256 && range_fits(*value),
            Edit::Times { place, frames, .. } => *place <= 255 && time_fits(*frames),
            Edit::Verts { geom, .. } => geom_fits(geom),
            Edit::Add { .. }
            | Edit::Replace { .. }
            | Edit::Remove { .. }
            | Edit::Delete { .. }
            | Edit::Mat { .. }
            | Edit::Trans { .. }
            | Edit::Centre { .. }
            | Edit::Run { .. }
            | Edit::Stop { .. } => true,
        }
    }
}
