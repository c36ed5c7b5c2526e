//! The colours of a triangle along a span of pixels, by steps from each pixel to the next.
//!
//! A channel is the mean of those of the vertices, each weighed by its edge value, rounded down: the quotient of a weighed sum and
//! a weight, both linear in the pixel. It is guessed by a product with the weight's inverse, and judged by what it leaves. The
//! inverse is divided out once, and goes on from pixel to pixel by one step of Newton's method.
ghost use Rattle.std.specs.Prelude.{◌<◌, ◌^◌, pos, ◌<ℤ◌, IsTrue, ◌↔◌};
ghost use Rattle.span_shading.specs.Quotients.{IsMean, IsChannel, IsInverse};
ghost use Rattle.span_shading.specs.Spans.{HasMeanAtEnds};

use crate::lines::{Sum, Weight};
use crate::quotients::{fits, guess, inverse, is_mean, quotient, refined};

/// The means of three channels.
#[derive(Clone, Copy)]
pub struct Shade {
    pub red: u8,
    pub green: u8,
    pub blue: u8,
}

/// The weighed sums of three channels and their weight at a pixel of a row. The inverse is about that of the weight.
#[derive(Clone, Copy)]
pub struct Span {
    pub red: Sum,
    pub green: Sum,
    pub blue: Sum,
    pub weight: Weight,
    inverse: u64,
}

impl Span {
    ghost use Rattle.span_shading.specs.Spans.{IsSpanOf, HasShade, IsShade, IsNextSpan, DoFit, HasShadeAtEnds, HasShadeTo};

    /// That of three weighed sums and their weight, with the inverse of the weight.
    #[inline(always)]
    pub fn new(red: Sum, green: Sum, blue: Sum, weight: Weight) -> Span
        ensures sums { IsSpanOf red green blue weight result }
        ensures inverse { IsInverse weight.here result.inverse }
    {
        Span {
            red,
            green,
            blue,
            weight,
            inverse: inverse(weight.here),
        }
    }

    /// The means at the pixel, if it is covered.
    #[inline(always)]
    pub fn shade(&self) -> Shade
        ensures { IsShade self.now result }
    {
        let guessed = self.guessed();
        if self.fits(&guessed) {
            guessed
        } else {
            let weight = self.weight.here;
            divided(self.red.here, self.green.here, self.blue.here, weight)
        }
    }

    /// Goes to the next pixel of the row.
    #[inline(always)]
    pub fn advance(&mut self)
        requires { DoFit self.old }
        ensures { IsNextSpan self.old self.new }
    {
        let weight = self.weight.next();
        *self = Span {
            red: self.red.next(),
            green: self.green.next(),
            blue: self.blue.next(),
            weight,
            inverse: refined(self.inverse, weight.here),
        };
    }

    /// Whether these are the means at this pixel and at one so many further on in the row; they are those of all pixels between
    /// them then.
    #[inline(always)]
    pub fn is_even(&self, shade: &Shade, count: u16) -> bool
        requires { count < 2 ^ 10 }
        ensures ends { IsTrue result ↔ HasShadeAtEnds self.now count shade.now }
        ensures between { IsTrue result → HasShadeTo self.now count shade.now }
    {
        is_kept(&self.red, &self.weight, shade.red, count)
            && is_kept(&self.green, &self.weight, shade.green, count)
            && is_kept(&self.blue, &self.weight, shade.blue, count)
    }

    #[inline(always)]
    fn guessed(&self) -> Shade {
        Shade {
            red: guess(self.red.here, self.inverse),
            green: guess(self.green.here, self.inverse),
            blue: guess(self.blue.here, self.inverse),
        }
    }

    /// Whether these are the means, where the weight is above 0.
    #[inline(always)]
    fn fits(&self, shade: &Shade) -> bool
        ensures { pos 0 <ℤ self.now.weight.here → (IsTrue result ↔ HasShade self.now shade.now) }
    {
        let weight = self.weight.here;
        fits(self.red.here, weight, shade.red)
            & fits(self.green.here, weight, shade.green)
            & fits(self.blue.here, weight, shade.blue)
    }
}

/// The means of three weighed sums, divided out.
#[cold]
#[inline(never)]
fn divided(red: i64, green: i64, blue: i64, weight: i64) -> Shade
    ensures red { IsChannel red weight → IsMean red weight result.red }
    ensures green { IsChannel green weight → IsMean green weight result.green }
    ensures blue { IsChannel blue weight → IsMean blue weight result.blue }
{
    Shade {
        red: quotient(red, weight),
        green: quotient(green, weight),
        blue: quotient(blue, weight),
    }
}

/// Whether this is the mean of a channel at a pixel and at one so many further on.
#[inline(always)]
fn is_kept(sum: &Sum, weight: &Weight, mean: u8, count: u16) -> bool
    requires { count < 2 ^ 10 }
    ensures { IsTrue result ↔ HasMeanAtEnds sum.now weight.now count mean }
{
    is_mean(sum.here, weight.here, mean) && is_mean(sum.ahead(count), weight.ahead(count), mean)
}
