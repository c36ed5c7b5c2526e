//! An image of three bytes a pixel.
ghost use Rattle.std.specs.Prelude.{◌≡◌, ◌≢◌, ℕ, ◌+◌, ◌*◌, ◌/◌, ◌%◌, ◌<◌, ◌≤◌, List, length, replicate, IfOk};
ghost use Rattle.ppm_out.specs.Pixmap.{Pixmap, IsPixmap, SetsPixel, pixel, pixel_in, place_of};
ghost use Rattle.ppm_out.specs.Bands.{band_count, band_size, band_of};
ghost use Rattle.ppm_out.specs.Ppm.{ppm_header};

use crate::bands::{BAND_ROWS, black_bands, bytes_of, exchange, set_in_band};
use crate::ppm::header;
use pf_io::NoMemory;
use std::alloc::Global;
use std::marker::Model;

/// An image of 1 to 1,024 pixels in width and in height, each with a red, a green and a blue byte. Its pixels are kept in bands of
/// `BAND_ROWS` rows from the top, one vector each, so that a band can be taken out, drawn by itself, and put back.
#[derive(Drop)]
pub struct Image {
    width: u16,
    height: u16,
    header: Vec<u8>,
    bands: Vec<Vec<u8>>,
}

impl Model for Image {
    ghost use Rattle.std.specs.Prelude.{◌≡◌};
    ghost use Rattle.std.specs.List.{concat};
    ghost use Rattle.ppm_out.specs.Pixmap.{Pixmap, IsPixmap};
    ghost use Rattle.ppm_out.specs.Bands.{bytes_of_each, AreBands};
    ghost use Rattle.ppm_out.specs.Ppm.{ppm_header};

    ghost Value = { Pixmap };

    ghost view = { λ i. record { width = i.width; height = i.height; bytes = concat (bytes_of_each i.bands.items) } };

    ghost invariant = { λ i. IsPixmap (record { width = i.width; height = i.height; bytes = concat (bytes_of_each i.bands.items) })
        × (i.header.items ≡ ppm_header i.width i.height)
        × AreBands i.width i.height (bytes_of_each i.bands.items) };
}

impl Image {
    /// A black image, of 1 to 1,024 pixels in width and in height.
    pub fn new(alloc: Global, width: u16, height: u16) -> Result<Image, NoMemory>
        requires wide { (1 ≤ width) × (width ≤ 1024) }
        requires high { (1 ≤ height) × (height ≤ 1024) }
        ensures black { IfOk result (λ i. i ≡ record {
          width = width;
          height = height;
          bytes = replicate (3 * (height * width)) 0;
        }) }
        ensures whole { IfOk result IsPixmap }
    {
        let header = header(alloc, width, height)?;
        let bands = black_bands(alloc, width, height)?;
        Ok(Image {
            width,
            height,
            header,
            bands,
        })
    }

    /// The width in pixels.
    pub fn width(&self) -> u16
        ensures exact { result ≡ self.now.width }
        ensures whole { IsPixmap self.now }
    {
        self.width
    }

    /// The height in pixels.
    pub fn height(&self) -> u16
        ensures exact { result ≡ self.now.height }
        ensures whole { IsPixmap self.now }
    {
        self.height
    }

    /// The red, green and blue of the pixel in column `px` from the left and row `py` from the top.
    pub fn get(&self, px: u16, py: u16) -> [u8; 3]
        requires column { px < self.now.width }
        requires row { py < self.now.height }
        ensures { result ≡ pixel self.now px py }
    {
        let place = self.place(px, py);
        let band = self.band((py / BAND_ROWS) as usize);
        [band[place], band[place + 1], band[place + 2]]
    }

    /// Gives a colour to the pixel in column `px` from the left and row `py` from the top.
    pub fn set(&mut self, px: u16, py: u16, colour: [u8; 3])
        requires column { px < self.old.width }
        requires row { py < self.old.height }
        ensures pixel { SetsPixel self.old self.new px py colour }
        ensures whole { IsPixmap self.new }
    {
        let place = self.place(px, py);
        set_in_band(&mut self.bands, (py / BAND_ROWS) as usize, place, colour);
    }

    /// How many bands it has.
    pub fn bands(&self) -> usize
        ensures exact { result ≡ band_count self.now.height }
        ensures whole { IsPixmap self.now }
    {
        self.bands.len()
    }

    /// The bytes of a band: three a pixel, its red, its green and its blue, the pixels of a row from the left and the rows from the
    /// top.
    pub fn band(&self, i: usize) -> &[u8]
        requires { i < band_count self.now.height }
        ensures exact { result.now ≡ band_of self.now i }
        ensures count { length result.now ≡ band_size self.now.width self.now.height i }
        ensures pixels { (px py : ℕ) → px < self.now.width → py < self.now.height → py / 16 ≡ i
            → pixel self.now px py ≡ pixel_in result.now self.now.width px (py % 16) }
    {
        bytes_of(&self.bands, i)
    }

    /// The header of its picture, as a raw portable pixmap.
    pub fn header(&self) -> &[u8]
        ensures exact { result.now ≡ ppm_header self.now.width self.now.height }
        ensures whole { IsPixmap self.now }
    {
        &self.header
    }

    /// Exchanges the bytes of a band with those handed in, as many.
    pub fn swap_band(&mut self, i: usize, rows: &mut Vec<u8>)
        requires within { i < band_count self.old.height }
        requires size { length rows.old.items ≡ band_size self.old.width self.old.height i }
        ensures width { self.new.width ≡ self.old.width }
        ensures height { self.new.height ≡ self.old.height }
        ensures band { band_of self.new i ≡ rows.old.items }
        ensures others { (j : ℕ) → j < band_count self.old.height → j ≢ i → band_of self.new j ≡ band_of self.old j }
        ensures back { rows.new.items ≡ band_of self.old i }
        ensures count { length rows.new.items ≡ length rows.old.items }
        ensures pixels { (px py : ℕ) → px < self.old.width → py < self.old.height
            → pixel self.new px py ≡ pixel_in (band_of self.new (py / 16)) self.old.width px (py % 16) }
        ensures whole { IsPixmap self.new }
    {
        exchange(&mut self.bands, i, rows);
    }

    // Where the bytes of a pixel begin in those of its band.
    fn place(&self, px: u16, py: u16) -> usize
        requires column { px < self.now.width }
        requires row { py < self.now.height }
        ensures exact { result ≡ place_of self.now.width px (py % 16) }
        ensures inside { result + 3 ≤ band_size self.now.width self.now.height (py / 16) }
        ensures band { py / 16 < band_count self.now.height }
    {
        3 * ((py % BAND_ROWS) as usize * self.width as usize + px as usize)
    }
}
