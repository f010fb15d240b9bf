//! Sequence numbers (R1.2): made, compared and advanced here and nowhere else.
#![tactic(auto, unfolding(crate::specs::Sequence::first_seq, crate::specs::Sequence::last_seq, crate::specs::Sequence::next_seq, crate::specs::Sequence::same, crate::specs::Sequence::newer, crate::specs::Sequence::has_next, crate::specs::Sequence::capped_next))]

ghost use Rattle.std.specs.Prelude.{◌≡◌};
ghost use Rattle.sequence.specs.Sequence.{first_seq, same, newer, has_next, capped_next};

/// Which of two is newer, and what comes next, the functions below say and nothing else: a number
/// is to become a pair.
pub type Number = u16;

/// The first number, for constants: a constant's value can call no function.
pub const FIRST: Number = 0;

pub fn first() -> Number
    ensures { result ≡ first_seq }
{
    FIRST
}

pub fn is_same(n: Number, m: Number) -> bool
    ensures { result ≡ same n m }
{
    n == m
}

pub fn is_newer(n: Number, than: Number) -> bool
    ensures { result ≡ newer n than }
{
    than < n
}

pub fn has_next(n: Number) -> bool
    ensures { result ≡ has_next n }
{
    n < 65_535
}

pub fn capped_next(n: Number) -> Number
    ensures { result ≡ capped_next n }
{
    n.saturating_add(1)
}
