//! What only a search of a network's nodes or messages tells, for every network: whether a node has
//! a key, whether some node is not out, and whether a notice to a node waits.
#![tactic(auto)]

ghost use Rattle.std.specs.Prelude.{◌≡◌};
ghost use Rattle.searches.specs.Searches.{key_is_taken, some_stands, notice_waits, found_of};

use network::Network;
use parts::Status;
use protocol::Order;

/// What is found: whether a node has the key that is declared, whether some node is not out, and
/// whether a notice to a node waits. What an order does not ask is false. Three answers side by
/// side: none is the value of another.
#[derive(Clone, Copy, Debug, Default, PartialEq, Eq)]
pub struct Found {
    pub taken: bool,
    pub standing: bool,
    pub notice: bool,
}

fn key_is_taken(network: &Network, key: u32) -> bool
    ensures { result ≡ key_is_taken network.now key }
{
    network.declared().iter().any(|node| node.key == key)
}

fn some_stands(network: &Network) -> bool
    ensures { result ≡ some_stands network.now }
{
    network
        .declared()
        .iter()
        .any(|node| node.status != Status::Out)
}

// Not one function with `ack_waits` of `members`, as said there.
fn notice_waits(network: &Network, node: u8) -> bool
    ensures { result ≡ notice_waits network.now node }
{
    network
        .queue()
        .iter()
        .any(|message| message.kind.is_notice() && message.to == node)
}

/// What an order's search finds. Only an order that asks for one pays for it.
pub fn find(network: &Network, order: Order) -> Found
    ensures { result ≡ found_of network.now order }
{
    match order {
        Order::Declare(key) => Found {
            taken: key_is_taken(network, key),
            ..Found::default()
        },
        Order::Create(node) => Found {
            standing: some_stands(network),
            notice: notice_waits(network, node),
            ..Found::default()
        },
        Order::Join { node, .. } => Found {
            notice: notice_waits(network, node),
            ..Found::default()
        },
        Order::Leave(_) => Found::default(),
    }
}
