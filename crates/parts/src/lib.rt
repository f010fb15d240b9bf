//! What a node and a message are put together from (R1.3, R1.6): a status, a link, a right number,
//! a kind; the message itself; and what a step posts. Their tests are here too, among them whether
//! a link or a message is well formed among so many nodes.
#![tactic(auto)]

use sequence::Number;

mod shape;
mod tests;

pub use shape::{link_fits, links_fit};

#[derive(Clone, Copy, Debug, PartialEq, Eq)]
pub enum Status {
    Out,
    Ins,
    In,
    Del,
}

/// A link to a node, by its number, where there is one.
pub type Link = Option<u8>;

/// A right number, which a node may lack.
pub type Seq = Option<Number>;

#[derive(Clone, Copy, Debug, PartialEq, Eq)]
pub enum Kind {
    SetR {
        new: u8,
        expected: u8,
        number: Number,
    },
    SetRAck {
        number: Number,
    },
    SetRNak,
    SetL {
        left: u8,
        number: Number,
    },
}

#[derive(Clone, Copy, Debug, PartialEq, Eq)]
pub struct Message {
    pub sender: u8,
    pub to: u8,
    pub kind: Kind,
}

/// What a step posts, in this order: a list of two at most, which is `Copy` as a step is, and as an
/// `ArrayVec` is not.
#[derive(Clone, Copy, Debug, PartialEq, Eq)]
pub enum Posts {
    Nothing,
    One(Message),
    Two(Message, Message),
}
