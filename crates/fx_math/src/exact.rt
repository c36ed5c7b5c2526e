//! Determinants and quotients without rounding of their operands.
//!
//! Of rows of magnitude at most 2^31 a product of two entries is at most 2^62 and fits i64. The difference of two may reach
//! 2^63, so minors are i128: the determinant is at most 6 * 2^93 in magnitude.
ghost use Rattle.std.specs.Prelude.{◌≡◌, ◌≢◌, ◌<◌, ◌^◌, List, ℤ, pos, unsigned_abs, ◌+ℤ◌, ◌-ℤ◌, ◌*ℤ◌};
ghost use Rattle.fx_math.specs.Limits.{row_limit, minor_limit, term_limit, det_limit};
ghost use Rattle.fx_math.specs.Within.{IsWithin, AreSmall};
ghost use Rattle.fx_math.specs.Plain.{vector};
ghost use Rattle.fx_math.specs.Fixed.{floor_div};
ghost use Rattle.fx_math.specs.Hit.{det3};
ghost use Rattle.fx_math.specs.Laws.{IsFloor};

/// The determinant of three rows.
pub fn det(a: [i64; 3], b: [i64; 3], c: [i64; 3]) -> i128
    requires a { AreSmall a }
    requires b { AreSmall b }
    requires c { AreSmall c }
    ensures value { result ≡ det3 (vector a) (vector b) (vector c) }
    ensures bound { IsWithin det_limit result }
{
    let [ax, ay, az] = a;
    let [bx, by, bz] = b;
    let [cx, cy, cz] = c;
    sum(
        weigh(ax, minor(by, bz, cy, cz)),
        weigh(ay, minor(bz, bx, cz, cx)),
        weigh(az, minor(bx, by, cx, cy)),
    )
}

fn times(a: i64, b: i64) -> i64
    requires a { IsWithin row_limit a }
    requires b { IsWithin row_limit b }
    ensures value { result ≡ a *ℤ b }
    ensures bound { IsWithin (row_limit ^ 2) result }
{
    a * b
}

fn minor(a: i64, b: i64, c: i64, d: i64) -> i128
    requires a { IsWithin row_limit a }
    requires b { IsWithin row_limit b }
    requires c { IsWithin row_limit c }
    requires d { IsWithin row_limit d }
    ensures value { result ≡ a *ℤ d -ℤ b *ℤ c }
    ensures bound { IsWithin minor_limit result }
{
    i128::from(times(a, d)) - i128::from(times(b, c))
}

fn weigh(a: i64, m: i128) -> i128
    requires a { IsWithin row_limit a }
    requires m { IsWithin minor_limit m }
    ensures value { result ≡ a *ℤ m }
    ensures bound { IsWithin term_limit result }
{
    i128::from(a) * m
}

fn sum(x: i128, y: i128, z: i128) -> i128
    requires x { IsWithin term_limit x }
    requires y { IsWithin term_limit y }
    requires z { IsWithin term_limit z }
    ensures value { result ≡ x +ℤ y +ℤ z }
    ensures bound { IsWithin det_limit result }
{
    x + y + z
}

/// The greatest whole number that is not above `n / d`.
pub fn floor_div(n: i128, d: i128) -> i128
    requires nonzero { d ≢ pos 0 }
    requires small { unsigned_abs n < 2 ^ 120 }
    ensures value { result ≡ floor_div n d }
    ensures greatest { IsFloor n d result }
{
    rounded_down(n, d)
}

#[tactic(auto, unfolding(crate::specs::Fixed::floor_div))]
fn rounded_down(n: i128, d: i128) -> i128
    requires nonzero { d ≢ pos 0 }
    requires small { unsigned_abs n < 2 ^ 120 }
    ensures { result ≡ floor_div n d }
{
    if n > 0 && d < 0 {
        (n - 1) / d - 1
    } else if n < 0 && d > 0 {
        (n + 1) / d - 1
    } else {
        n / d
    }
}
