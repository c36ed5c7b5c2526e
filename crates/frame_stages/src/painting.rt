//! The pictures of a load.
ghost use Rattle.std.specs.Prelude.{◌≡◌, ◌<◌, length};
ghost use Rattle.stage_parts.specs.Loads.{IsOfSize};
ghost use Rattle.stage_parts.specs.Steps.{Draws};
ghost use Rattle.frame_stages.specs.Painting.{IsPainted};

use depth_raster::Raster;
use ppm_out::Image;
use stage_parts::Load;
use std::thread::Threads;

/// Draws the picture of a channel's list into an image of the lens's size, and exchanges it with that of the channel,
/// where this has the lens's size too.
pub(crate) fn paint_channel<R: Threads + Sync>(
    rt: &R,
    raster: &mut Raster,
    back: [u8; 3],
    channel: usize,
    image: &mut Image,
    load: &mut Load,
)
    requires channel { channel < length load.old.lists }
    requires size { IsOfSize raster.old image.old }
    ensures raster { raster.new ≡ raster.old }
    ensures size { IsOfSize raster.old image.new }
    ensures load { load.new ≡ record load.old { images = load.new.images } }
    ensures painted { IsPainted raster.old back load.old.lists channel load.old.images load.new.images }
{
    raster.draw(rt, &load.lists()[channel], back, image);
    let _ = load.swap_image(channel, image);
}

/// Draws the pictures of all channels of a load, and puts their bytes in its buffer.
pub(crate) fn paint<R: Threads + Sync>(
    rt: &R,
    raster: &mut Raster,
    back: [u8; 3],
    image: &mut Image,
    load: &mut Load,
)
    requires size { IsOfSize raster.old image.old }
    ensures raster { raster.new ≡ raster.old }
    ensures size { IsOfSize raster.old image.new }
    ensures draws { Draws raster.old back load.old load.new }
{
    for channel in 0..load.lists().len() {
        paint_channel(rt, raster, back, channel, image, load);
    }
    load.write_bytes();
}
