//! The colours of a face along a row, by steps from each pixel to the next.
ghost use Rattle.std.specs.Prelude.{◌≡◌, ℕ, ◌+◌, ◌<◌, ◌^◌, pos, ◌≤ℤ◌, IfSome, IsTrue, ◌↔◌};
ghost use Rattle.fx_math.specs.Limits.{size_limit};
ghost use Rattle.tri_cover.specs.Faces.{face_hit};
ghost use Rattle.tri_cover.specs.declared.face.Face as faces;
ghost use Rattle.depth_raster.specs.Means.{IsWeightAt};

use crate::sums::Sums;
use span_shading::{Mean, WideWeight};
use tri_cover::Face;

/// The means of a face's channels at a pixel of a row.
#[derive(Clone, Copy)]
pub(crate) struct Means {
    red: Mean,
    green: Mean,
    blue: Mean,
    weight: WideWeight,
}

impl Means {
    ghost use Rattle.depth_raster.specs.Means.{AreMeansAt, AreSmallMeans, DoFit, AreEven, colour_by};

    /// Those of a face at a pixel, of which nothing is known but a guess.
    #[inline(always)]
    pub(crate) fn at(face: &Face, px: u16, py: u16, guess: [u8; 3]) -> Means
        requires x { px < size_limit }
        requires y { py < size_limit }
        ensures { AreMeansAt face.now px py result }
    {
        let weight = weight_at(face, px, py);
        let here = Sums::at(face, px, py);
        let step = Sums::steps(face);
        Means {
            red: Mean::new(here.red, step.red, &weight, guess[0]),
            green: Mean::new(here.green, step.green, &weight, guess[1]),
            blue: Mean::new(here.blue, step.blue, &weight, guess[2]),
            weight,
        }
    }

    /// The colour, once the means are settled.
    #[inline(always)]
    pub(crate) fn colour(&self) -> [u8; 3]
        ensures { result ≡ colour_by self.now }
    {
        [self.red.mean, self.green.mean, self.blue.mean]
    }

    /// Makes them the quotients, where the face is hit.
    #[inline(always)]
    pub(crate) fn settle(&mut self)
        requires { AreSmallMeans self.old }
        ensures kept { (f : faces.Face) (px py : ℕ) → AreMeansAt f px py self.old → AreMeansAt f px py self.new }
        ensures colour { (f : faces.Face) (px py : ℕ) → AreMeansAt f px py self.old
            → IfSome (face_hit f px py) (λ h. colour_by self.new ≡ h.colour) }
    {
        let weight = self.weight;
        self.red.settle(&weight);
        self.green.settle(&weight);
        self.blue.settle(&weight);
    }

    /// Goes to the next pixel of the row, where they are not yet settled.
    #[inline(always)]
    pub(crate) fn advance(&mut self)
        requires { DoFit self.old }
        ensures { (f : faces.Face) (px py : ℕ) → AreMeansAt f px py self.old → AreMeansAt f (px + 1) py self.new }
    {
        self.red.advance();
        self.green.advance();
        self.blue.advance();
        self.weight.advance();
    }

    /// Whether the means are the quotients at this pixel and at one so many further on in the row; they are those of all pixels
    /// between them then.
    #[inline(always)]
    pub(crate) fn are_even(&self, count: u16) -> bool
        requires { AreSmallMeans self.now }
        ensures { IsTrue result ↔ AreEven self.now count }
    {
        let there = self.weight.ahead(count);
        self.red.stays(&self.weight, count, there)
            && self.green.stays(&self.weight, count, there)
            && self.blue.stays(&self.weight, count, there)
    }
}

/// The sum of a face's edge values at a pixel, and by how much it changes to the next one of its row.
#[inline(always)]
pub(crate) fn weight_at(face: &Face, px: u16, py: u16) -> WideWeight
    requires x { px < size_limit }
    requires y { py < size_limit }
    ensures { IsWeightAt face.now px py result }
{
    WideWeight {
        here: face.edges.sum.at(px, py),
        step: face.edges.sum.step(),
    }
}

/// The sum of edge values none of which is below 0.
#[inline(always)]
pub(crate) fn natural(weight: &WideWeight) -> u128
    requires { pos 0 ≤ℤ weight.now.here }
    ensures value { pos result ≡ weight.now.here }
    ensures bound { result < 2 ^ 84 }
{
    weight.here as u128
}
