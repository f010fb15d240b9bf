//! A network (paper 01: a floor) in fixed arrays: its nodes and its waiting messages, which are
//! read as slices, and whether it is well formed. `specs/` says which lists the arrays hold; the
//! calls on a network, and the questions it is asked, stand in crates above.
#![tactic(auto)]

ghost use Rattle.std.specs.Prelude.{◌≡◌, ◌≤◌, length};
ghost use Rattle.network.specs.Arrays.{empty, live};
ghost use Rattle.network.specs.Reads.{node_in, message_in};

pub use node::CAPACITY;
use node::Node;
use parts::{Kind, Message, Status};

mod shape;

/// R1.7: how many messages there may be; how many nodes, `node` says.
pub const QUEUE_LIMIT: u8 = 64;

/// The first `count` nodes are declared, and a node's number is its place; the first `waiting`
/// messages wait, in the order posted. Arrays beside their counts: the form is fixed (R11.6), and
/// there is no heap.
#[derive(Clone, Copy, Debug, PartialEq, Eq)]
pub struct Network {
    pub nodes: [Node; 32],
    pub count: u8,
    pub messages: [Message; 64],
    pub waiting: u8,
}

// R2.3: what a vacant place holds, of the nodes and of the messages. Constants, so that an empty
// network is copied and not made place by place.
const VACANT_NODE: Node = Node {
    status: Status::Out,
    key: 0,
    left: None,
    right: None,
    lseq: sequence::FIRST,
    rseq: None,
};

const VACANT_NODES: [Node; 32] = [VACANT_NODE; 32];

pub const VACANT_MESSAGE: Message = Message {
    sender: 0,
    to: 0,
    kind: Kind::SetRNak,
};

const VACANT_MESSAGES: [Message; 64] = [VACANT_MESSAGE; 64];

impl Network {
    #[tactic(auto, unfolding(sequence::specs::Sequence::first_seq))]
    pub fn empty() -> Network
        ensures { result ≡ empty }
    {
        Network {
            nodes: VACANT_NODES,
            count: 0,
            messages: VACANT_MESSAGES,
            waiting: 0,
        }
    }

    // Two functions of one line each, and so the two below: one function of an array of any type
    // and size would be as long, and would have these four as its callers.

    /// The nodes declared. A count past an array is cut.
    pub fn declared(&self) -> &[Node]
        ensures nodes { result.now ≡ (live self.now).nodes }
        ensures few { length result.now ≤ 32 }
    {
        &self.nodes[..self.count.min(CAPACITY) as usize]
    }

    /// The messages that wait.
    pub fn queue(&self) -> &[Message]
        ensures messages { result.now ≡ (live self.now).messages }
        ensures few { length result.now ≤ 64 }
    {
        &self.messages[..self.waiting.min(QUEUE_LIMIT) as usize]
    }

    /// The node in a place. A number past an array counts from its beginning again.
    pub fn node(&self, number: u8) -> Node
        ensures { result ≡ node_in self.now number }
    {
        self.nodes[(number % CAPACITY) as usize]
    }

    /// The message in a place.
    pub fn message(&self, place: u8) -> Message
        ensures { result ≡ message_in self.now place }
    {
        self.messages[(place % QUEUE_LIMIT) as usize]
    }
}
