//! Pictures of the one-thread object by the slow renderer.
use crate::wrong::Wrong;
use fx_math::Lens;
use one_thread::Sequential;
use pf_picture::draw_plain;
use ppm_out::append_ppm;
use std::alloc::Global;

/// What all pictures of a play have.
#[derive(Clone, Copy)]
pub struct Look {
    pub lens: Lens,
    pub back: [u8; 3],
    pub channels: u8,
}

fn draw_channel(
    alloc: Global,
    look: Look,
    object: &Sequential,
    channel: u8,
    out: &mut Vec<u8>,
) -> Result<(), Wrong> {
    let view = object.view(channel).ok_or(Wrong::Pictures)?;
    let scene = object.graph();
    scene.keeps_limits();
    let image = draw_plain(alloc, scene, scene.time(), &view, &look.lens, look.back)?;
    append_ppm(out, &image)?;
    Ok(())
}

/// Appends the pictures of the frame that an object has in preparation, one for each channel.
pub fn draw_frame(
    alloc: Global,
    look: Look,
    object: &Sequential,
    out: &mut Vec<u8>,
) -> Result<(), Wrong> {
    for channel in 0..look.channels {
        draw_channel(alloc, look, object, channel, out)?;
    }
    Ok(())
}
