//! One node of the ring (paper 01: a bench): its record, and what it does with an order or a
//! message (docs/RULES.md, section 5). Its parts and its messages are those of the crate `parts`.
//! Each action takes the node by value, with the node's own number, and hands back the node, at
//! most two messages and a verdict. That is the form of a step (R1.9, R11.6): the number is an
//! argument of each and no field, since it is the node's place among all.
#![tactic(auto)]

use parts::{Link, Posts, Seq, Status};
use refusal::Refusal;
use sequence::Number;

mod answers;
mod create;
mod join;
mod leave;
mod receive;
mod set_l;
mod set_r;
mod shape;
mod steps;

/// R1.7: how many nodes there may be; a single step knows no count but this.
pub const CAPACITY: u8 = 32;

/// R1.3: a key, two links, a number for each, and a status.
#[derive(Clone, Copy, Debug, PartialEq, Eq)]
pub struct Node {
    pub key: u32,
    pub left: Link,
    pub right: Link,
    pub lseq: Number,
    pub rseq: Seq,
    pub status: Status,
}

/// A neighbour that a join is handed: its number and its key.
#[derive(Clone, Copy, Debug, PartialEq, Eq)]
pub struct Peer {
    pub number: u8,
    pub key: u32,
}

/// What a step did, where it was not refused: the outcomes of section 5.
#[derive(Clone, Copy, Debug, PartialEq, Eq)]
pub enum Outcome {
    Created,
    Waiting,
    LeftAlone,
    Granted,
    Denied,
    Joined,
    Gone,
    JoinDenied,
    LeaveDenied,
    LeftSet,
    LeftOld,
    Dropped,
}

/// What a step hands back (R1.9): the node, where the step refuses too, as it was. So the refusal
/// stands beside the node and is no `Err` in place of it.
#[derive(Clone, Copy)]
pub struct Step {
    pub node: Node,
    pub posts: Posts,
    pub verdict: Result<Outcome, Refusal>,
}
