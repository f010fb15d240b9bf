//! Well-formedness of a network (docs/RULES.md, section 2), clause by clause.
ghost use Rattle.std.specs.Prelude.{◌≡◌, ℕ, not, ◌&&◌, ◌<◌, ◌≤◌, eqb, get_or, length};
ghost use Rattle.predicates.specs.Tests.{count, every, every_below};
ghost use Rattle.parts.specs.Shape.{message_fits};
ghost use Rattle.node.specs.Shape.{node_fits};
ghost use Rattle.protocol.specs.State.{is_exchange_of, exchanges, node_is_well_formed};
ghost use Rattle.network.specs.Arrays.{is_vacant_node, is_vacant_message, well_formed};
ghost use Rattle.network.specs.Walks.{party_by, fits_beside, fits_with};

use crate::{CAPACITY, Network, QUEUE_LIMIT, VACANT_MESSAGE};
use node::Node;
use parts::{Kind, Link, Message, Status};

// R2.3: field by field, since which numbers are the same `sequence` says.
fn is_vacant_node(node: &Node) -> bool
    ensures { result ≡ is_vacant_node node.now }
{
    (node.status == Status::Out)
        & ((node.key == 0)
            & ((node.left.is_none() & node.right.is_none())
                & (sequence::is_same(node.lseq, sequence::first()) & node.rseq.is_none())))
}

fn are_vacant_nodes(nodes: &[Node]) -> bool
    ensures { result ≡ every is_vacant_node nodes.now }
{
    nodes.iter().all(|node| is_vacant_node(node))
}

// Not one function with the last: over a type parameter its contract would go by the `==` of the
// type, and each use would have to show what that says.
fn are_vacant_messages(messages: &[Message]) -> bool
    ensures { result ≡ every is_vacant_message messages.now }
{
    messages.iter().all(|message| *message == VACANT_MESSAGE)
}

fn nodes_fit(nodes: &[Node], declared: u8) -> bool
    ensures { result ≡ every (node_fits declared) nodes.now }
{
    nodes.iter().all(|node| node.fits(declared))
}

fn messages_fit(messages: &[Message], declared: u8) -> bool
    ensures { result ≡ every (message_fits declared) messages.now }
{
    messages.iter().all(|message| message.fits(declared))
}

// R2.4: whether no node has this key.
fn key_is_new(nodes: &[Node], key: u32) -> bool
    ensures { result ≡ every (λ node. not (eqb node.key key)) nodes.now }
{
    nodes.iter().all(|node| node.key != key)
}

// R2.7: whose exchange a message is: the sender's of a request, the addressee's of an answer, and
// nobody's of a notice.
fn party(message: &Message) -> Link
    ensures { result ≡ party_by message.now.kind message.now }
{
    match message.kind {
        Kind::SetR { .. } => Some(message.sender),
        Kind::SetRAck { .. } | Kind::SetRNak => Some(message.to),
        Kind::SetL { .. } => None,
    }
}

// How many exchanges each node has, counted in one walk over the messages.
fn exchanges_of(messages: &[Message]) -> [u8; 32]
    requires { length messages.now ≤ 64 }
    ensures { (u : ℕ) → u < 32 → get_or result u 0 ≡ count (is_exchange_of u) messages.now }
{
    let mut exchanges = [0u8; 32];
    for message in messages {
        if let Some(number) = party(message) {
            if number < CAPACITY {
                exchanges[number as usize] += 1;
            }
        }
    }
    exchanges
}

// R2.7: how many exchanges a node of this status may have.
fn exchanges_allowed(status: Status) -> u8
    ensures { result ≡ exchanges status }
{
    match status {
        Status::Ins | Status::Del => 1,
        Status::Out | Status::In => 0,
    }
}

// A node among all, which has so many exchanges. Here and below the nodes and the messages are two
// slices, and not the network: that would cut its arrays again for each node.
fn fits_among(nodes: &[Node], exchanges: u8, number: usize) -> bool
    requires { number < length nodes.now }
    ensures { result ≡ fits_with nodes.now exchanges number }
{
    let node = nodes[number];
    key_is_new(&nodes[..number], node.key) & (exchanges <= exchanges_allowed(node.status))
}

// Not by `all`: what it ensures of a range did not lead to the definition.
fn all_fit_among(nodes: &[Node], messages: &[Message]) -> bool
    requires { (length nodes.now ≤ 32) × (length messages.now ≤ 64) }
    ensures { result ≡ every_below (length nodes.now) (fits_beside (record { nodes = nodes.now; messages = messages.now })) }
{
    let exchanges = exchanges_of(messages);
    for number in 0..nodes.len() {
        if !fits_among(nodes, exchanges[number], number) {
            return false;
        }
    }
    true
}

// What the nodes and the messages are by themselves, and only then what the nodes are among the others.
fn lists_are_well_formed(nodes: &[Node], messages: &[Message]) -> bool
    requires { (length nodes.now ≤ 32) × (length messages.now ≤ 64) }
    ensures { result ≡ (every_below (length nodes.now) (node_is_well_formed (record { nodes = nodes.now; messages = messages.now }))
        && every (message_fits (length nodes.now)) messages.now) }
{
    let declared = nodes.len() as u8;
    (nodes_fit(nodes, declared) & messages_fit(messages, declared))
        && all_fit_among(nodes, messages)
}

impl Network {
    pub fn is_well_formed(&self) -> bool
        ensures { result ≡ well_formed self.now }
    {
        if !((self.count <= CAPACITY) & (self.waiting <= QUEUE_LIMIT)) {
            return false;
        }
        let nodes = self.declared();
        let messages = self.queue();
        (are_vacant_nodes(&self.nodes[nodes.len()..])
            & are_vacant_messages(&self.messages[messages.len()..]))
            && lists_are_well_formed(nodes, messages)
    }
}
