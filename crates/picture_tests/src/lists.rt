//! The room of a draw list.
use draw_list::{DrawList, Span};
use fx_math::{Affine, Vec3};
use pf_model::{Geom, Pose, Tri, View};
use std::test::Fail;

/// The colour of the first corner of the only triangle.
fn colour(list: &DrawList) -> Option<[u8; 3]> {
    Some(list.tri(Span { from: 0, len: 1 }, 0)?.c[0])
}

/// Triangles are kept once for each id, and read back until the list is cleared; the room stays.
#[test]
fn triangles_kept_once(rt: HostRuntime) -> Result<(), Fail> {
    let mut list = DrawList::new(rt.alloc());
    list.reserve(2, 1)?;
    let red = Tri {
        v: [Vec3::ORIGIN; 3],
        c: [[255, 0, 0]; 3],
    };
    let geom = Geom::new(vec![in rt.alloc(); red]?)?;
    for (id, want) in [(3, true), (3, true), (4, false)] {
        assert_eq!(rt; list.keep(id, &geom).is_some(), want);
    }
    assert_eq!(rt; (list.spare_tris(), colour(&list)), (0, Some([255, 0, 0])));
    list.clear(&View::home());
    assert_eq!(rt; (list.spare_tris(), colour(&list)), (1, None));
    assert_eq!(rt; (list.spare(), list.spare_joints()), (2, 2));
    Ok(())
}

#[test]
fn joint_without_room(rt: HostRuntime) {
    let mut list = DrawList::new(rt.alloc());
    assert!(rt; list.push_joint(0, Pose::Matrix(Affine::IDENTITY)).is_err());
}
