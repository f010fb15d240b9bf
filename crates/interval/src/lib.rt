//! Intervals on the circle of keys (docs/RULES.md, section 3).
#![tactic(auto, unfolding(crate::specs::Interval::between, crate::specs::Interval::within))]

ghost use Rattle.std.specs.Prelude.{◌≡◌};
ghost use Rattle.interval.specs.Interval.{between, within};

/// Whether u lies in (a, b).
pub fn is_between(a: u32, b: u32, u: u32) -> bool
    ensures { result ≡ between a b u }
{
    ((a < b) & ((a < u) & (u < b))) | (((b < a) & ((a < u) | (u < b))) | ((a == b) & (u != a)))
}

/// Whether u lies in [a, b).
pub fn is_within(a: u32, b: u32, u: u32) -> bool
    ensures { result ≡ within a b u }
{
    (u == a) | is_between(a, b, u)
}
