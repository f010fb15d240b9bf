//! A script, read byte by byte: a machine that is fed one byte at a time, and answers when that
//! byte completes a record.
use crate::answer::{Answer, Refusal};
use crate::network::Network;
use crate::script::{Mark, Record};
use arrayvec::ArrayVec;
use std::fmt;

/// What came of a record, its mark, if it has one, and the record, if it has all its bytes.
#[derive(Clone, Copy)]
pub struct Line {
    pub mark: Option<Mark>,
    pub record: Option<Record>,
    pub reply: Result<Answer, Refusal>,
}

impl fmt::Display for Line {
    fn fmt<W: fmt::Write>(&self, f: &mut fmt::Formatter<W>) -> fmt::Result {
        match self.reply {
            Ok(answer) => write!(f, "{answer}"),
            Err(refusal) => write!(f, "{refusal}"),
        }
    }
}

/// `taken` has the bytes of the record that is under way. It is gone after a mark that is none:
/// then nothing is read any more.
#[derive(Drop)]
pub struct Player {
    network: Network,
    taken: Option<ArrayVec<u8, 8>>,
}

// The record that some bytes begin with a mark of, once all its bytes are there.
fn record_of(taken: &[u8]) -> Option<Result<Record, Refusal>> {
    let [first, second, fields @ ..] = taken else {
        return None;
    };
    Mark::try_from([*first, *second])
        .map(|mark| Record::from_fields(mark, fields))
        .transpose()
}

fn mark_of(taken: &[u8]) -> Option<Mark> {
    match taken {
        [first, second, ..] => Mark::try_from([*first, *second]).ok(),
        _ => None,
    }
}

impl Player {
    pub fn new() -> Self {
        Player {
            network: Network::default(),
            taken: Some(ArrayVec::new()),
        }
    }

    pub fn network(&self) -> &Network {
        &self.network
    }

    // The fields are judged in their order, and then the call.
    fn execute(&mut self, record: Record) -> Result<Answer, Refusal> {
        let network = &mut self.network;
        let step = match record {
            Record::Declare(serial) => return network.declare(serial.value()?),
            Record::Create { node } => network.creation(network.declared(node)?)?,
            Record::Join { node, left, right } => network.joining(
                network.declared(node)?,
                network.declared(left)?,
                network.declared(right)?,
            )?,
            Record::Leave { node } => network.leaving(network.declared(node)?)?,
            Record::Deliver { place } => {
                return Ok(network.deliver(usize::from(place))?.into());
            }
            Record::Owner { start, serial } => {
                return network.owner(network.declared(start)?, serial.value()?);
            }
            Record::Drain { budget } => return Ok(network.drain(budget)),
            Record::Peek => return Ok(network.peek()),
        };
        Ok(network.take(step).into())
    }

    /// One byte more, and what comes of the record that it completes, or of a mark that is none.
    pub fn feed(&mut self, byte: u8) -> Option<Line> {
        let taken = self.taken.as_mut()?;
        taken.try_push(byte).ok()?;
        match record_of(taken.as_slice())? {
            Ok(record) => {
                taken.clear();
                Some(Line {
                    mark: Some(record.mark()),
                    record: Some(record),
                    reply: self.execute(record),
                })
            }
            Err(refusal) => {
                self.taken = None;
                Some(Line {
                    mark: None,
                    record: None,
                    reply: Err(refusal),
                })
            }
        }
    }

    /// What comes of the end of the script: a record that is under way is cut short.
    pub fn end(&self) -> Option<Line> {
        let taken = self.taken.as_ref()?;
        if taken.is_empty() {
            return None;
        }
        Some(Line {
            mark: mark_of(taken.as_slice()),
            record: None,
            reply: Err(Refusal::CutShort),
        })
    }
}
