//! Triangles made ready for the pixels of small pictures, and stepped along a row.
use fx_math::{Lens, MAX_COORDINATE, Vec3};
use pf_model::Tri;
use std::test::Fail;
use tri_cover::{Hit, Stepper, face_of};

/// A triangle that is red, green and blue at these corners.
fn tri(corners: [[i32; 3]; 3]) -> Option<Tri> {
    let [[a, b, c], [d, e, f], [g, h, i]] = corners;
    Some(Tri {
        v: [
            Vec3::new(a, b, c)?,
            Vec3::new(d, e, f)?,
            Vec3::new(g, h, i)?,
        ],
        c: [[255, 0, 0], [0, 255, 0], [0, 0, 255]],
    })
}

/// The first and last of the columns, and of the rows, that a triangle is ready for.
fn readied(corners: [[i32; 3]; 3], w: u16, h: u16) -> Option<[u16; 4]> {
    let lens = Lens::new(w, h, 1, 1, MAX_COORDINATE)?;
    let face = face_of(&tri(corners)?, &lens)?;
    let (columns, rows) = (face.extent.columns, face.extent.rows);
    Some([columns.first, columns.last, rows.first, rows.last])
}

#[test]
fn readies_triangles(rt: HostRuntime) {
    let covering = [
        [-40_960, 4_096, -40_960],
        [40_960, 4_096, -40_960],
        [0, 4_096, 81_920],
    ];
    let small = [[0, 4_096, 0], [4_096, 4_096, 0], [0, 4_096, 4_096]];
    let across = [
        [4_096, -4_096, 0],
        [4_096, 12_288, -8_192],
        [4_096, 12_288, 8_192],
    ];
    let edge_on = [[0, 4_096, 0], [0, 8_192, 0], [0, 4_096, 4_096]];
    let behind = [[0, -4_096, 0], [4_096, -4_096, 0], [0, -4_096, 4_096]];
    for (corners, w, h, want) in [
        (covering, 2, 2, Some([0, 1, 0, 1])),
        (small, 8, 8, Some([4, 4, 3, 3])),
        (across, 3, 1, Some([0, 2, 0, 0])),
        (edge_on, 2, 2, None),
        (behind, 2, 2, None),
    ] {
        assert_eq!(rt; readied(corners, w, h), want, "{corners:?}");
    }
}

#[test]
fn steps_along_a_row(rt: HostRuntime) -> Result<(), Fail> {
    let lens = Lens::new(3, 1, 1, 1, MAX_COORDINATE).ok_or("a lens out of range")?;
    let shaded = tri([
        [4_096, -4_096, 0],
        [4_096, 12_288, -8_192],
        [4_096, 12_288, 8_192],
    ]);
    assert_eq!(rt; (lens.w, lens.h), (3, 1));
    let mut stepper = Stepper::start(&shaded.ok_or("a coordinate out of range")?, 0, &lens);
    assert_eq!(rt; stepper.here(), None);
    stepper.right();
    assert_eq!(rt; stepper.here(), None);
    stepper.right();
    let depth = 4_096;
    let colour = [127, 63, 63];
    assert_eq!(rt; stepper.here(), Some(Hit { depth, colour }));
    Ok(())
}
