//! What a network of nodes is asked to do and what it answers. The rules of the calls
//! (docs/RULES.md, sections 6 to 8) are definitions in `specs/`, and the claim about any list of
//! them (section 10) is proved in `proofs/`; the functions that carry them out on arrays stand in a
//! crate above.
#![tactic(auto)]

use node::Outcome;
use refusal::Refusal;

/// What a person asks of the network. Any arguments that fit their types: whether a node is
/// declared is for the rules to say.
#[derive(Clone, Copy, Debug, PartialEq, Eq)]
pub enum Order {
    Declare(u32),
    Create(u8),
    Join { node: u8, left: u8, right: u8 },
    Leave(u8),
}

/// What changes a network: an order, or the delivery of the message at a place of the queue.
#[derive(Clone, Copy, Debug, PartialEq, Eq)]
pub enum Call {
    Order(Order),
    Deliver(u8),
}

/// What is answered where nothing is refused: to a declaration; to any other call, by what the node
/// did; to the question for an owner; to a drain, and to the question how many messages wait; and
/// to the question who is inserted, as a word with bit n for node n and the number of its ones.
#[derive(Clone, Copy, Debug, PartialEq, Eq)]
pub enum Reply {
    Declared { number: u8, key: u32 },
    Stepped(Outcome),
    Owner { node: u8, hops: u8 },
    Ran { made: u16, left: u8 },
    Inserted { word: u32, size: u32 },
}

pub type Answer = Result<Reply, Refusal>;
