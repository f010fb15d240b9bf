//! The refusals (docs/RULES.md, section 6): a named case for each number, the number of a case, and
//! rules of refusal in their order (R6.1).
#![tactic(auto)]

ghost use Rattle.std.specs.Prelude.{◌≡◌, cond, Some, None};
ghost use Rattle.refusal.specs.Code.{code, reason};
ghost use Rattle.refusal.specs.Rules.{checked};

/// No case carries anything but its number.
#[derive(Clone, Copy, Debug, PartialEq, Eq)]
pub enum Refusal {
    // From the input.
    UnknownMark = 1,
    CutShort = 2,
    BadDigit = 3,
    SerialTooLarge = 4,
    Undeclared = 5,
    Malformed = 6,
    ScriptTooLong = 7,
    // From the state.
    NetworkFull = 20,
    KeyTaken = 21,
    NotAllOut = 22,
    NotOut = 23,
    NotBetween = 24,
    NoticeWaiting = 25,
    NotIn = 26,
    SequenceSpent = 27,
    QueueFull = 28,
    NoMessage = 29,
    StartNotInserted = 30,
    OwnerNotFound = 31,
}

impl Refusal {
    /// The number of a refusal. By name, and not as a `From`: `u8::from(refusal)` does not say
    /// which number it is.
    pub fn number(self) -> u8
        ensures { result ≡ code self }
    {
        self as u8
    }
}

/// One rule of a call, which goes on with `?` where it does not refuse.
pub fn refuse_if(refuses: bool, refusal: Refusal) -> Result<(), Refusal>
    ensures { checked result ≡ cond refuses (Some (reason refusal)) None }
{
    if refuses { Err(refusal) } else { Ok(()) }
}
