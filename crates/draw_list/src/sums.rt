//! Sums of products in fixed point: coordinates after a turn or a scaling.
//!
//! A product of a coordinate and an entry is below 2^50 in magnitude. The shift by 16 places is the division by 65536
//! rounded down.
ghost use Rattle.std.specs.Prelude.{◌≡◌, pos, ◌*ℤ◌, ◌+ℤ◌};
ghost use Rattle.fx_math.specs.Limits.{product_limit, dot_limit};
ghost use Rattle.fx_math.specs.Within.{IsWithin, IsCoordinate, IsEntry};
ghost use Rattle.fx_math.specs.Fixed.{clamp, floor_div, moved};

const MOST: i64 = 1_073_741_823;

const LEAST: i64 = -1_073_741_823;

/// The sum of two products, as a coordinate: rounded down and clamped.
pub(crate) fn blended(p: i32, a: i32, q: i32, b: i32) -> i32
    requires p { IsCoordinate p }
    requires a { IsEntry a }
    requires q { IsCoordinate q }
    requires b { IsEntry b }
    ensures value { result ≡ moved (p *ℤ a +ℤ q *ℤ b) (pos 0) }
    ensures bound { IsCoordinate result }
{
    narrowed(sum(product(p, a), product(q, b)))
}

/// A product as a coordinate: rounded down and clamped.
pub(crate) fn multiplied(z: i32, a: i32) -> i32
    requires z { IsCoordinate z }
    requires a { IsEntry a }
    ensures value { result ≡ moved (z *ℤ a) (pos 0) }
    ensures bound { IsCoordinate result }
{
    narrowed(product(z, a))
}

fn product(z: i32, a: i32) -> i64
    requires z { IsCoordinate z }
    requires a { IsEntry a }
    ensures value { result ≡ z *ℤ a }
    ensures bound { IsWithin product_limit result }
    ensures wide_bound { IsWithin dot_limit result }
{
    i64::from(z) * i64::from(a)
}

fn sum(x: i64, y: i64) -> i64
    requires x { IsWithin product_limit x }
    requires y { IsWithin product_limit y }
    ensures value { result ≡ x +ℤ y }
    ensures bound { IsWithin dot_limit result }
{
    x + y
}

fn narrowed(sum: i64) -> i32
    requires { IsWithin dot_limit sum }
    ensures value { result ≡ moved sum (pos 0) }
    ensures bound { IsCoordinate result }
{
    clamped(whole(sum))
}

fn whole(sum: i64) -> i64
    requires { IsWithin dot_limit sum }
    ensures { result ≡ floor_div sum (pos 65536) }
{
    sum >> 16
}

#[tactic(auto, unfolding(fx_math::specs::Fixed::clamp))]
fn clamped(z: i64) -> i32
    ensures value { result ≡ clamp z }
    ensures bound { IsCoordinate result }
{
    z.clamp(LEAST, MOST) as i32
}
