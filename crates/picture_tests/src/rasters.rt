//! Pictures of draw lists, by one thread and by many.
ghost use Rattle.std.specs.Prelude.{◌<◌, length};

use depth_raster::{PieceRaster, Raster};
use draw_list::{DrawList, Item, Tint};
use fx_math::{Lens, MAX_COORDINATE, Vec3};
use pf_model::{Geom, Tri};
use ppm_out::{Image, append_ppm};
use std::alloc::Global;
use std::process::Abort;
use std::test::Fail;
use std::thread::Threads;

const RED: [u8; 3] = [255, 0, 0];

const GREEN: [u8; 3] = [0, 255, 0];

const BLUE: [u8; 3] = [0, 0, 255];

/// So many equal triangles of one colour, which face the eye at a depth and cover the whole picture.
fn facing(alloc: Global, depth: i32, colour: [u8; 3], count: usize) -> Result<Geom, Fail> {
    let corner = |x, z| Vec3::new(x, depth, z).ok_or("a coordinate out of range");
    let tri = Tri {
        v: [
            corner(-40_960, -40_960)?,
            corner(40_960, -40_960)?,
            corner(0, 81_920)?,
        ],
        c: [colour; 3],
    };
    if count > 4_096 {
        return Err("too many triangles".into());
    }
    Ok(Geom::new(vec![in alloc; tri; count]?)?)
}

/// Appends an item of the triangles that are kept for an id.
fn put(list: &mut DrawList, id: u16, geom: &Geom, tint: Option<Tint>) -> Result<(), Fail>
    requires { 0 < length list.old.joints.lists }
    ensures { 0 < length list.new.joints.lists }
{
    let geom = list.keep(id, geom).ok_or("no room for triangles")?;
    let item = Item {
        state: 0,
        place: list.len() as u32,
        shift: 0,
        joint: 0,
        geom,
        tint,
    };
    list.push_reserved(item).map_err(|_| "no room for an item")?;
    Ok(())
}

/// Each pixel of a list's picture, so wide and so high, has a colour.
fn shows<R: Abort + Threads + Sync>(
    rt: &R,
    alloc: Global,
    list: &DrawList,
    size: (u16, u16),
    want: [u8; 3],
) -> Result<(), Fail> {
    let (w, h) = size;
    let lens = Lens::new(w, h, 256, 1, MAX_COORDINATE).ok_or("a lens out of range")?;
    let mut image = Image::new(alloc, lens.w, lens.h)?;
    Raster::new(alloc, &lens)?.draw(rt, list, [10, 20, 30], &mut image);
    for py in 0..image.height() {
        for px in 0..image.width() {
            assert_eq!(rt; image.get(px, py), want, "at {px} {py} of {w} {h}");
        }
    }
    Ok(())
}

/// Three panes over a red ground of three, in pictures that are too small for threads and just large enough for them.
#[test]
fn glass_by_one_thread_and_by_many(rt: HostRuntime) -> Result<(), Fail> {
    let mut list = DrawList::new(rt.alloc());
    list.reserve(2, 6)?;
    put(&mut list, 1, &facing(rt.alloc(), 4_096, RED, 3)?, None)?;
    let tint = Some(Tint { alpha: 128, far: 9 });
    put(&mut list, 2, &facing(rt.alloc(), 2_048, BLUE, 3)?, tint)?;
    for size in [(37, 35), (1024, 853), (1024, 854)] {
        shows(&rt, rt.alloc(), &list, size, [31, 0, 223])?;
    }
    Ok(())
}

/// Appends four items of the same triangles.
fn put_four(list: &mut DrawList, id: u16, geom: &Geom) -> Result<(), Fail>
    requires { 0 < length list.old.joints.lists }
    ensures { 0 < length list.new.joints.lists }
{
    put(list, id, geom, None)?;
    put(list, id, geom, None)?;
    put(list, id, geom, None)?;
    put(list, id, geom, None)
}

/// A green triangle, 16,384 red ones two units away, and another green one.
fn crowd(alloc: Global, first: i32, last: i32) -> Result<DrawList, Fail> {
    let mut list = DrawList::new(alloc);
    list.reserve(6, 4_098)?;
    put(&mut list, 1, &facing(alloc, first, GREEN, 1)?, None)?;
    put_four(&mut list, 2, &facing(alloc, 8_192, RED, 4_096)?)?;
    put(&mut list, 3, &facing(alloc, last, GREEN, 1)?, None)?;
    Ok(list)
}

/// Of more triangles than are drawn together the nearest is seen, be it the first or the last.
#[test]
fn more_than_one_go(rt: HostRuntime) -> Result<(), Fail> {
    for (first, last) in [(4_096, 16_384), (16_384, 4_096)] {
        let list = crowd(rt.alloc(), first, last)?;
        shows(&rt, rt.alloc(), &list, (2, 2), GREEN)?;
    }
    Ok(())
}

/// The bytes of a picture.
fn bytes_of(alloc: Global, image: &Image) -> Result<Vec<u8>, Fail> {
    let mut bytes = Vec::new(alloc);
    append_ppm(&mut bytes, image)?;
    Ok(bytes)
}

/// A list of a red ground.
fn ground(alloc: Global) -> Result<DrawList, Fail> {
    let mut list = DrawList::new(alloc);
    list.reserve(1, 1)?;
    put(&mut list, 1, &facing(alloc, 4_096, RED, 1)?, None)?;
    Ok(list)
}

/// A list of a pane, which stands before the ground.
fn pane(alloc: Global) -> Result<DrawList, Fail> {
    let mut list = DrawList::new(alloc);
    list.reserve(1, 1)?;
    let tint = Some(Tint { alpha: 128, far: 9 });
    put(&mut list, 2, &facing(alloc, 2_048, BLUE, 1)?, tint)?;
    Ok(list)
}

/// A list of both.
fn both(alloc: Global) -> Result<DrawList, Fail> {
    let mut list = DrawList::new(alloc);
    list.reserve(2, 2)?;
    put(&mut list, 1, &facing(alloc, 4_096, RED, 1)?, None)?;
    let tint = Some(Tint { alpha: 128, far: 9 });
    put(&mut list, 2, &facing(alloc, 2_048, BLUE, 1)?, tint)?;
    Ok(list)
}

/// The picture of the one list.
fn whole<R: Threads + Sync>(rt: &R, alloc: Global, lens: &Lens) -> Result<Vec<u8>, Fail> {
    let list = both(alloc)?;
    let mut image = Image::new(alloc, lens.w, lens.h)?;
    Raster::new(alloc, lens)?.draw(rt, &list, [10, 20, 30], &mut image);
    bytes_of(alloc, &image)
}

/// The picture of the ground and the pane, each in a piece of its own.
fn in_pieces<R: Threads + Sync>(rt: &R, alloc: Global, lens: &Lens) -> Result<Vec<u8>, Fail> {
    let mut image = Image::new(alloc, lens.w, lens.h)?;
    let mut raster = PieceRaster::new(alloc, lens)?;
    raster.begin([10, 20, 30]);
    raster.add(rt, &ground(alloc)?);
    raster.add(rt, &pane(alloc)?);
    raster.finish(rt, &mut image);
    bytes_of(alloc, &image)
}

/// The picture is that of the whole list, be it drawn at once or in pieces.
#[test]
fn pieces_as_one_list(rt: HostRuntime) -> Result<(), Fail> {
    let lens = Lens::new(2, 1, 256, 1, MAX_COORDINATE).ok_or("a lens out of range")?;
    let want = b"P6\n2 1\n255\n\x7f\0\x80\x7f\0\x80";
    assert_eq!(rt; whole(&rt, rt.alloc(), &lens)?.as_slice(), want.as_slice());
    assert_eq!(rt;
        in_pieces(&rt, rt.alloc(), &lens)?.as_slice(),
        want.as_slice()
    );
    Ok(())
}
