//! Ranges, and a box that is turned.
use fx_math::{Affine, Box3, MAX_ENTRY, Vec3, apply_box};
use std::test::Fail;

#[test]
fn what_is_out_of_range(rt: HostRuntime) -> Result<(), Fail> {
    assert_eq!(rt; Vec3::new(0, 0, 1_073_741_824), None);
    let p = Vec3::new(1, 2, 3).ok_or("range")?;
    let q = Vec3::new(1, 3, 4).ok_or("range")?;
    assert_eq!(rt; Box3::new(q, p), None);
    let rows = [[MAX_ENTRY, 0, 0], [0, MAX_ENTRY + 1, 0], [0, 0, 1]];
    assert_eq!(rt; Affine::new(rows, p), None);
    Ok(())
}

#[test]
fn a_turned_box(rt: HostRuntime) -> Result<(), Fail> {
    let quarter = Affine::new(
        [[0, 65_536, 0], [-65_536, 0, 0], [0, 0, 65_536]],
        Vec3::ORIGIN,
    )
    .ok_or("entries")?;
    let lo = Vec3::new(1, 2, 3).ok_or("range")?;
    let hi = Vec3::new(4, 5, 6).ok_or("range")?;
    let turned = apply_box(&quarter, &Box3::new(lo, hi).ok_or("order")?);
    assert_eq!(rt; turned.lo, Vec3::new(-5, 1, 3).ok_or("range")?);
    assert_eq!(rt; turned.hi, Vec3::new(-2, 4, 6).ok_or("range")?);
    Ok(())
}
