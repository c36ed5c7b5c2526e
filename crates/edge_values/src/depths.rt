//! The depth of a triangle at a pixel from the sum of its edge values there, with no division where it is not before a limit.
ghost use Rattle.std.specs.Prelude.{◌≡◌, ◌/◌, ◌<◌, ◌≤◌, ◌^◌, IfSome, IfNone, IsTrue, ◌↔◌};

use crate::quotients::{guessed_quotient, product};

/// What tells the depth of a triangle at a pixel: it is the dividend divided by the sum of the edge values there, rounded down,
/// and the triangle is seen there where it is neither below `near` nor above `far`.
#[derive(Clone, Copy)]
pub struct Depths {
    pub dividend: u128,
    pub near: u32,
    pub far: u32,
}

impl Depths {
    ghost use Rattle.edge_values.specs.Seen.{IsSeenBefore};

    /// The depth where the edge values have this sum, if a float that is about it, rounded down, is right; seen or not. Where it
    /// is none, which is rare, `divided` tells it.
    #[inline(always)]
    pub fn guessed(self, about: f64, sum: u128) -> Option<u64>
        requires { sum < 2 ^ 84 }
        ensures { IfSome result (λ d. (0 < sum) × (d ≡ self.dividend / sum) × (d < 2 ^ 32)) }
    {
        guessed_quotient(self.dividend, sum, about)
    }

    /// Whether anything is seen at a depth. A triangle all of which lies between the depths of the lens is seen at any.
    #[inline(always)]
    pub fn are_seen_at(self, depth: u64) -> bool
        requires { depth < 2 ^ 32 }
        ensures { IsTrue result ↔ (self.near ≤ depth) × (depth ≤ self.far) }
    {
        if (self.near == 0) & (self.far == u32::MAX) {
            return true;
        }
        u64::from(self.near) <= depth && depth <= u64::from(self.far)
    }

    /// The depth where the edge values have this sum, if it is seen there, by a division; none where the sum is 0.
    #[cold]
    #[inline(never)]
    pub fn divided(self, sum: u128) -> Option<u32>
        ensures some { IfSome result (λ d. (0 < sum) × (d ≡ self.dividend / sum) × (self.near ≤ d) × (d ≤ self.far)) }
        ensures none { IfNone result (0 < sum → self.near ≤ self.dividend / sum → self.far < self.dividend / sum) }
    {
        if sum == 0 {
            return None;
        }
        let depth = self.dividend / sum;
        if depth < u128::from(self.near) || u128::from(self.far) < depth {
            return None;
        }
        Some(depth as u32)
    }

    /// Whether the depth where the edge values have this sum is seen, and lies before a limit.
    pub fn are_before(self, limit: u64, sum: u128) -> bool
        requires limit { limit < 2 ^ 40 }
        requires some { 0 < sum }
        requires sum { sum < 2 ^ 84 }
        ensures { IsTrue result ↔ IsSeenBefore self limit sum }
    {
        let far = limit.min(u64::from(self.far) + 1);
        product(u64::from(self.near), sum) <= self.dividend && self.dividend < product(far, sum)
    }
}
