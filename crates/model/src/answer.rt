//! What a record is answered, and the words for it.
use std::fmt;

/// What a call did.
#[derive(Clone, Copy, Eq, Ord, PartialEq, PartialOrd)]
pub enum Outcome {
    Created,
    Waiting,
    Out,
    Granted,
    Denied,
    Joined,
    Gone,
    JoinDenied,
    LeaveDenied,
    LeftSet,
    LeftOld,
    Dropped,
}

impl fmt::Display for Outcome {
    fn fmt<W: fmt::Write>(&self, f: &mut fmt::Formatter<W>) -> fmt::Result {
        f.write_str(match self {
            Outcome::Created => "created",
            Outcome::Waiting => "waiting",
            Outcome::Out => "out",
            Outcome::Granted => "granted",
            Outcome::Denied => "denied",
            Outcome::Joined => "joined",
            Outcome::Gone => "gone",
            Outcome::JoinDenied => "join-denied",
            Outcome::LeaveDenied => "leave-denied",
            Outcome::LeftSet => "left-set",
            Outcome::LeftOld => "left-old",
            Outcome::Dropped => "dropped",
        })
    }
}

/// Why a record or a script is refused, by its number.
#[derive(Clone, Copy, Eq, Ord, PartialEq, PartialOrd)]
pub enum Refusal {
    UnknownMark = 1,
    CutShort = 2,
    BadDigit = 3,
    SerialTooLarge = 4,
    NotDeclared = 5,
    ScriptTooLong = 7,
    NoRoom = 20,
    KeyTaken = 21,
    NotAllOut = 22,
    NotOut = 23,
    NotBetween = 24,
    NoticeWaits = 25,
    NotIn = 26,
    LastNumber = 27,
    QueueFull = 28,
    NoMessage = 29,
    NotInserted = 30,
    NotFound = 31,
}

impl fmt::Display for Refusal {
    fn fmt<W: fmt::Write>(&self, f: &mut fmt::Formatter<W>) -> fmt::Result {
        let number = *self as u8;
        write!(f, "no {number}")
    }
}

#[derive(Clone, Copy)]
pub enum Answer {
    Declared { node: u8, key: u32 },
    Owner { node: u8, hops: usize },
    Ran { deliveries: usize, left: usize },
    Done(Outcome),
}

impl From<Outcome> for Answer {
    fn from(outcome: Outcome) -> Self {
        Answer::Done(outcome)
    }
}

impl fmt::Display for Answer {
    fn fmt<W: fmt::Write>(&self, f: &mut fmt::Formatter<W>) -> fmt::Result {
        match self {
            Answer::Declared { node, key } => write!(f, "bench {node} key {key}"),
            Answer::Owner { node, hops } => write!(f, "owner {node} hops {hops}"),
            Answer::Ran { deliveries, left } => write!(f, "ran {deliveries} left {left}"),
            Answer::Done(outcome) => write!(f, "{outcome}"),
        }
    }
}
