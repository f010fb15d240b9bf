//! Reading a script (R9.2, R9.3, R9.4, R9.5): the record at a cursor, for every slice of bytes and
//! every cursor. A record's serial is read in its form, and stands in the record as a number or as
//! the refusal that comes at the serial's turn, after those of the fields before it.
#![tactic(auto)]

ghost use Rattle.std.specs.Prelude.{◌≡◌, length, cond, ltb, None, Some};
ghost use Rattle.script.specs.Script.{mark_of, size_of, record_of, read_at, reading};

use protocol::{Call, Order};
use refusal::Refusal;
use serial::SerialError;

/// The rows of the table of marks: which fields follow, and how a serial is written there.
#[derive(Clone, Copy, Debug, PartialEq, Eq)]
pub enum Mark {
    PackedDeclare,
    BinaryDeclare,
    Create,
    Join,
    Leave,
    Deliver,
    PackedOwner,
    BinaryOwner,
    Drain,
    Peek,
}

/// What a record asks: a call; a declaration, whose serial may be refused at its turn; the owner of
/// a serial; a drain; how many messages wait.
#[derive(Clone, Copy, Debug, PartialEq, Eq)]
pub enum Record {
    Call(Call),
    Declare(Result<u32, SerialError>),
    Owner {
        start: u8,
        serial: Result<u32, SerialError>,
    },
    Drain(u16),
    Peek,
}

/// A record that was read, and the cursor after it.
#[derive(Clone, Copy, Debug, PartialEq, Eq)]
pub struct Next {
    pub record: Record,
    pub after: usize,
}

// The letters of each mark as one number, the first its high byte: the look-up is then a search
// among ten numbers. Two tests for each mark in turn cost 32 instructions a record more.
const BC: u16 = 0x4243;

const BN: u16 = 0x424E;

const CR: u16 = 0x4352;

const JN: u16 = 0x4A4E;

const LV: u16 = 0x4C56;

const DL: u16 = 0x444C;

const OC: u16 = 0x4F43;

const ON: u16 = 0x4F4E;

const RD: u16 = 0x5244;

const PK: u16 = 0x504B;

impl Mark {
    // An `Option`, as of `char::from_digit`, and no `TryFrom`: that no mark is a refusal, and
    // which, `read` says.
    fn from_letters(first: u8, second: u8) -> Option<Mark>
        ensures { result ≡ mark_of first second }
    {
        match u16::from_be_bytes([first, second]) {
            BC => Some(Mark::PackedDeclare),
            BN => Some(Mark::BinaryDeclare),
            CR => Some(Mark::Create),
            JN => Some(Mark::Join),
            LV => Some(Mark::Leave),
            DL => Some(Mark::Deliver),
            OC => Some(Mark::PackedOwner),
            ON => Some(Mark::BinaryOwner),
            RD => Some(Mark::Drain),
            PK => Some(Mark::Peek),
            _ => None,
        }
    }

    // How many bytes its fields have.
    fn size(self) -> usize
        ensures { result ≡ size_of self }
    {
        match self {
            Mark::Peek => 0,
            Mark::Create | Mark::Leave | Mark::Deliver => 1,
            Mark::Drain => 2,
            Mark::Join => 3,
            Mark::PackedDeclare | Mark::BinaryDeclare => 4,
            Mark::PackedOwner | Mark::BinaryOwner => 5,
        }
    }
}

// The record that the fields make, and none where they are too few.
#[inline(always)]
fn record_of(mark: Mark, fields: &[u8]) -> Option<Record>
    ensures { result ≡ cond (ltb (length fields.now) (size_of mark)) None (Some (record_of mark fields.now)) }
{
    match (mark, fields) {
        (Mark::PackedDeclare, &[a, b, c, d, ..]) => {
            Some(Record::Declare(serial::packed([a, b, c, d])))
        }
        (Mark::BinaryDeclare, &[a, b, c, d, ..]) => {
            Some(Record::Declare(serial::binary([a, b, c, d])))
        }
        (Mark::Create, &[node, ..]) => Some(Record::Call(Call::Order(Order::Create(node)))),
        (Mark::Join, &[node, left, right, ..]) => Some(Record::Call(Call::Order(Order::Join {
            node,
            left,
            right,
        }))),
        (Mark::Leave, &[node, ..]) => Some(Record::Call(Call::Order(Order::Leave(node)))),
        (Mark::Deliver, &[place, ..]) => Some(Record::Call(Call::Deliver(place))),
        (Mark::PackedOwner, &[start, a, b, c, d, ..]) => Some(Record::Owner {
            start,
            serial: serial::packed([a, b, c, d]),
        }),
        (Mark::BinaryOwner, &[start, a, b, c, d, ..]) => Some(Record::Owner {
            start,
            serial: serial::binary([a, b, c, d]),
        }),
        (Mark::Drain, &[low, high, ..]) => Some(Record::Drain(u16::from_le_bytes([low, high]))),
        (Mark::Peek, _) => Some(Record::Peek),
        _ => None,
    }
}

/// The record at a cursor, or none at the end; a refusal stops the reading.
#[inline(always)]
#[tactic(auto, unfolding(crate::specs::Script::read_at))]
pub fn read(script: &[u8], at: usize) -> Result<Option<Next>, Refusal>
    ensures { reading result ≡ read_at script.now at }
{
    if script.len() <= at {
        return Ok(None);
    }
    let [first, second, fields @ ..] = &script[at..] else {
        return Err(Refusal::CutShort);
    };
    let mark = Mark::from_letters(*first, *second).ok_or(Refusal::UnknownMark)?;
    let record = record_of(mark, fields).ok_or(Refusal::CutShort)?;
    Ok(Some(Next {
        record,
        after: at + 2 + mark.size(),
    }))
}
