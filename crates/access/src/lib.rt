//! How the arrays of a network are read and written. No rule stands here: what a call's rules look
//! at is read out (`Sight`, `Arrival`), and what they decide is carried out (`Change`). Each public
//! function takes any network and any numbers.
#![tactic(auto)]

use node::Node;
use parts::{Message, Posts};

mod changes;
mod sights;

pub use changes::{commit, has_room};
pub use sights::{look, meet};

/// What a call leaves to be done in the arrays: a node more; a node's step, with the messages that
/// it posts; or the same with the message at a place taken from the queue.
#[derive(Clone, Copy)]
pub enum Change {
    Add(Node),
    Step {
        number: u8,
        node: Node,
        posts: Posts,
    },
    Deliver {
        place: u8,
        number: u8,
        node: Node,
        posts: Posts,
    },
}

/// Where an order looks: at three nodes. What it does not name is 0, and not an `Option`: three
/// nodes are read for every order, so that `look` would read each at `unwrap_or(0)`.
#[derive(Clone, Copy, Default)]
pub struct Spots {
    pub node: u8,
    pub left: u8,
    pub right: u8,
}

/// What stands there: how many nodes and messages there are, and the three nodes.
#[derive(Clone, Copy)]
pub struct Sight {
    pub count: u8,
    pub waiting: u8,
    pub node: Node,
    pub left: Node,
    pub right: Node,
}

/// What a delivery looks at: how many messages wait, the one at its place, and the node that it is
/// for.
#[derive(Clone, Copy)]
pub struct Arrival {
    pub waiting: u8,
    pub message: Message,
    pub node: Node,
}
