//! The words for what a step did (R9.7).
#![tactic(auto)]

ghost use Rattle.std.specs.Prelude.{◌≡◌};
ghost use Rattle.words.specs.Words.{outcome_word};

use node::Outcome;

/// The word for an outcome. No `impl Display`: that a `write!` answers `Ok` is promised nowhere,
/// and so no byte of a line could be.
pub fn word(outcome: Outcome) -> &'static [u8]
    ensures { result.now ≡ outcome_word outcome }
{
    match outcome {
        Outcome::Created => b"created",
        Outcome::Waiting => b"waiting",
        Outcome::LeftAlone => b"out",
        Outcome::Granted => b"granted",
        Outcome::Denied => b"denied",
        Outcome::Joined => b"joined",
        Outcome::Gone => b"gone",
        Outcome::JoinDenied => b"join-denied",
        Outcome::LeaveDenied => b"leave-denied",
        Outcome::LeftSet => b"left-set",
        Outcome::LeftOld => b"left-old",
        Outcome::Dropped => b"dropped",
    }
}
