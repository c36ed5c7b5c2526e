//! An image and its bands, and its bytes where room was made for them or where they go to a sink.
use pf_io::MemSink;
use ppm_out::{BAND_ROWS, Image, append_ppm, append_ppm_reserved, ppm_len, write_ppm};
use std::test::Fail;

#[test]
fn rows_come_from_the_top(rt: HostRuntime) -> Result<(), Fail> {
    let mut image = Image::new(rt.alloc(), 3, 2)?;
    assert_eq!(rt; (image.width(), image.height()), (3, 2));
    image.set(2, 0, [1, 2, 3]);
    image.set(0, 1, [4, 5, 6]);
    assert_eq!(rt; image.get(2, 0), [1, 2, 3]);
    assert_eq!(rt; image.get(1, 0), [0, 0, 0]);
    let mut out = Vec::with_capacity(rt.alloc(), ppm_len(3, 2))?;
    append_ppm_reserved(&mut out, &image);
    let want = b"P6\n3 2\n255\n\0\0\0\0\0\0\x01\x02\x03\x04\x05\x06\0\0\0\0\0\0";
    assert_eq!(rt; out.as_slice(), want.as_slice());
    Ok(())
}

#[test]
fn bands_are_exchanged(rt: HostRuntime) -> Result<(), Fail> {
    let mut image = Image::new(rt.alloc(), 3, 40)?;
    assert_eq!(rt; (image.bands(), BAND_ROWS), (3, 16));
    assert_eq!(rt; (image.band(0).len(), image.band(2).len()), (144, 72));
    image.set(2, 33, [1, 2, 3]);
    image.set(1, 17, [7, 8, 9]);
    let mut rows = vec![in rt.alloc(); 5; 72]?;
    image.swap_band(2, &mut rows);
    assert_eq!(rt; image.get(2, 33), [5, 5, 5]);
    assert_eq!(rt; image.get(1, 17), [7, 8, 9]);
    assert_eq!(rt; &rows[15..18], &[1, 2, 3][..]);
    Ok(())
}

#[test]
fn a_picture_goes_to_a_sink_band_by_band(rt: HostRuntime) -> Result<(), Fail> {
    let mut image = Image::new(rt.alloc(), 3, 40)?;
    image.set(1, 17, [7, 8, 9]);
    let mut out = Vec::new(rt.alloc());
    append_ppm(&mut out, &image)?;
    assert_eq!(rt; out.len(), 372);
    assert_eq!(rt; &out[..12], b"P6\n3 40\n255\n".as_slice());
    assert_eq!(rt; &out[168..171], &[7, 8, 9][..]);
    let mut sink = MemSink::new(rt.alloc(), 1000, Vec::new(rt.alloc()))?;
    assert_eq!(rt; write_ppm(&image, &mut sink), Ok(()));
    assert_eq!(rt; sink.bytes(), out.as_slice());
    Ok(())
}
