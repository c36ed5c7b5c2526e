//! Sines of angles in tenths of a degree, in 1/65536, by Bhaskara's formula.
//!
//! Within a half turn the product of the two parts of the half turn is at most 810,000, so the numerator of the formula is
//! below 2^38 and is reckoned in u64.
ghost use Rattle.std.specs.Prelude.{◌≡◌, ◌<◌, ◌≤◌, ◌*◌, ◌+ℤ◌, pos, unsigned_abs};
ghost use Rattle.std.specs.Int.{int_rem_euclid};
ghost use Rattle.fx_math.specs.Limits.{unit, whole_turn};
ghost use Rattle.fx_math.specs.Within.{IsWithin};
ghost use Rattle.fx_math.specs.Steps.{half_wave, sine, cosine};

/// A quarter turn, a half turn and a whole turn.
const QUARTER_TURN: i32 = 900;

const HALF_TURN: u64 = 1_800;

const WHOLE_TURN: i32 = 3_600;

/// The sine of an angle of at most two whole turns either way. The angle is first taken modulo a whole turn, and the second
/// half of a turn is the first half with the opposite sign.
pub fn sine(x: i32) -> i32
    requires { IsWithin (2 * whole_turn) x }
    ensures value { result ≡ sine x }
    ensures bound { IsWithin unit result }
{
    wave(x)
}

/// The cosine of an angle of at most two whole turns either way: the sine a quarter turn further on.
pub fn cosine(x: i32) -> i32
    requires { IsWithin (2 * whole_turn) x }
    ensures value { result ≡ cosine x }
    ensures bound { IsWithin unit result }
{
    wave(x + QUARTER_TURN)
}

fn wave(x: i32) -> i32
    ensures value { result ≡ sine x }
    ensures bound { IsWithin unit result }
{
    let part = part_of_turn(x);
    if part <= HALF_TURN {
        half_wave(part)
    } else {
        -half_wave(part - HALF_TURN)
    }
}

fn part_of_turn(x: i32) -> u64
    ensures value { result ≡ unsigned_abs (int_rem_euclid x (pos whole_turn)) }
    ensures bound { result < whole_turn }
{
    x.rem_euclid(WHOLE_TURN) as u64
}

fn half_wave(x: u64) -> i32
    requires { x ≤ 1800 }
    ensures value { result ≡ pos (half_wave x) }
    ensures bound { IsWithin unit result }
{
    let product = x * (HALF_TURN - x);
    (65_536 * (4 * product) / (4_050_000 - product)) as i32
}
