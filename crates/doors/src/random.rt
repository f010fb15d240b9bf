//! Networks with fields made by chance, from a pseudo-random sequence (xorshift of 32 bits).
use network::Network;
use node::Node;
use parts::{Kind, Link, Message, Seq, Status};
use std::array;

/// Copied where a second sequence is to begin at the same place.
#[derive(Clone, Copy)]
pub(crate) struct Generator {
    seed: u32,
}

// Mostly one of a few numbers, so that some networks come near to being well formed.
fn number(n: u8) -> u8 {
    if n < 200 { n % 4 } else { n }
}

fn status(n: u8) -> Status {
    match n % 4 {
        0 => Status::Out,
        1 => Status::Ins,
        2 => Status::In,
        _ => Status::Del,
    }
}

fn link(n: u8) -> Link {
    if n % 3 == 0 { None } else { Some(number(n)) }
}

fn right_number(n: u8) -> Seq {
    if n % 2 == 0 { None } else { Some(u16::from(n)) }
}

fn kind(n: u8, m: u8) -> Kind {
    match n % 4 {
        0 => Kind::SetR {
            new: number(m),
            expected: number(n),
            number: u16::from(m),
        },
        1 => Kind::SetRAck {
            number: u16::from(m),
        },
        2 => Kind::SetRNak,
        _ => Kind::SetL {
            left: number(m),
            number: u16::from(n),
        },
    }
}

impl Generator {
    pub(crate) fn new(seed: u32) -> Self {
        Generator { seed }
    }

    fn next(&mut self) -> u32 {
        self.seed ^= self.seed << 13;
        self.seed ^= self.seed >> 17;
        self.seed ^= self.seed << 5;
        self.seed
    }

    fn node(&mut self) -> Node {
        let [of_status, of_left, of_right, of_lseq] = self.next().to_le_bytes();
        let other = self.next();
        let [of_rseq, ..] = other.to_le_bytes();
        Node {
            status: status(of_status),
            key: other / 16,
            left: link(of_left),
            right: link(of_right),
            lseq: u16::from(of_lseq),
            rseq: right_number(of_rseq),
        }
    }

    fn message(&mut self) -> Message {
        let [sender, to, of_kind, of_fields] = self.next().to_le_bytes();
        Message {
            sender: number(sender),
            to: number(to),
            kind: kind(of_kind, of_fields),
        }
    }

    /// The nodes and the messages are of two sequences, which begin at the next two places of this.
    pub(crate) fn network(&mut self) -> Network {
        self.next();
        let mut of_nodes = *self;
        self.next();
        let mut of_messages = *self;
        let [count, waiting, ..] = self.next().to_le_bytes();
        Network {
            nodes: array::from_fn(|_| of_nodes.node()),
            count,
            messages: array::from_fn(|_| of_messages.message()),
            waiting,
        }
    }
}
