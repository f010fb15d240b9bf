//! A network that is well formed, the same with one thing wrong at a time, and one that is well
//! formed and no ring.
use network::Network;
use node::Node;
use parts::{Kind, Link, Message, Seq, Status};
use protocol::{Call, Order};

fn after(mut network: Network, calls: &[Call]) -> Network {
    for call in calls {
        engine::act(&mut network, *call);
    }
    network
}

// Two nodes, both out.
fn two() -> Network {
    let calls = [
        Call::Order(Order::Declare(1_000)),
        Call::Order(Order::Declare(2_000)),
    ];
    after(Network::empty(), &calls)
}

/// Two nodes, of which the second one's join has been granted: a notice and an acknowledgement
/// wait.
pub(crate) fn sound() -> Network {
    let calls = [
        Call::Order(Order::Create(0)),
        Call::Order(Order::Join {
            node: 1,
            left: 0,
            right: 0,
        }),
        Call::Deliver(0),
    ];
    after(two(), &calls)
}

// The network with a change.
fn with<F: FnOnce(&mut Network)>(mut network: Network, change: F) -> Network
    requires { F.IsAlwaysCallable change }
{
    change(&mut network);
    network
}

fn message(sender: u8, to: u8, kind: Kind) -> Message {
    Message { sender, to, kind }
}

fn linked(key: u32, left: Link, right: Link, rseq: Seq) -> Node {
    Node {
        status: Status::In,
        key,
        left,
        right,
        lseq: 0,
        rseq,
    }
}

// Another node in the place of the first, which is in and has node 1 on its right.
fn with_first(network: Network, key: u32, right: Link, rseq: Seq) -> Network {
    with(network, |n| n.nodes[0] = linked(key, Some(0), right, rseq))
}

/// R2.2: the network with so many nodes, each with a key of its own, and so many messages. At the
/// limits nothing is wrong, and past one the count alone is.
pub(crate) fn grown(mut network: Network, count: u8, waiting: u8) -> Network {
    let declared = usize::from(network.count);
    let nodes = network.nodes.iter_mut().enumerate();
    for (place, node) in nodes.take(usize::from(count)).skip(declared) {
        *node = decision::declared(place as u32);
    }
    let queued = usize::from(network.waiting);
    let messages = network.messages.iter_mut();
    for one in messages.take(usize::from(waiting)).skip(queued) {
        *one = message(0, 0, Kind::SetL { left: 1, number: 1 });
    }
    network.count = count;
    network.waiting = waiting;
    network
}

/// The network with one rule of well-formedness broken at a time, and in what way.
pub(crate) fn one_by_one(sound: Network) -> [(&'static str, Network); 14] {
    let notice = |left| Kind::SetL { left, number: 1 };
    let unasked = Kind::SetR {
        new: 0,
        expected: 1,
        number: 1,
    };
    [
        ("R2.2, 33 nodes", grown(sound, 33, sound.waiting)),
        ("R2.2, 65 messages", grown(sound, sound.count, 65)),
        (
            "R2.3, a node past the count",
            with(sound, |n| n.nodes[2] = decision::declared(3_000)),
        ),
        (
            "R2.3, a message past the count",
            with(
                sound,
                |n| n.messages[63] = message(0, 0, Kind::SetRAck { number: 0 }),
            ),
        ),
        (
            "R2.4, the key of another node",
            with_first(sound, 2_000, Some(1), Some(0)),
        ),
        (
            "R2.4, a key out of range",
            with_first(sound, 100_000_000, Some(1), Some(0)),
        ),
        (
            "R2.5, a link to an undeclared node",
            with_first(sound, 1_000, Some(2), Some(0)),
        ),
        (
            "R2.5, a message to an undeclared node",
            with(sound, |n| n.messages[0] = message(0, 2, notice(1))),
        ),
        (
            "R2.5, a notice of an undeclared node",
            with(sound, |n| n.messages[0] = message(0, 0, notice(40))),
        ),
        // The node is in and has no links, and a notice to it waits.
        (
            "R2.6, a node that is in without links",
            with(sound, |n| n.nodes[0] = linked(1_000, None, None, Some(0))),
        ),
        (
            "R2.6, a node that is in without a right number",
            with_first(sound, 1_000, Some(1), None),
        ),
        (
            "R2.7, two answers to one node",
            with(sound, |n| n.messages[0] = message(0, 1, Kind::SetRNak)),
        ),
        (
            "R2.7, an answer to a node that is in",
            with(
                sound,
                |n| n.messages[1] = message(0, 0, Kind::SetRAck { number: 1 }),
            ),
        ),
        (
            "R2.7, a request from a node that is in",
            with(sound, |n| n.messages[1] = message(0, 0, unasked)),
        ),
    ]
}

/// R2.1: the first of two nodes is in, and its right link leads to the second, which is out and has
/// no links. Its right number is the last.
pub(crate) fn no_ring() -> Network {
    with_first(two(), 1_000, Some(1), Some(65_535))
}

/// R2.1, R10.13: the right link of the first node, which is in, leads to the second, which is ins;
/// a request of the second to the first waits and is to be granted.
pub(crate) fn no_ring_with_a_request() -> Network {
    let joiner = Node {
        status: Status::Ins,
        ..linked(2_000, Some(0), Some(0), None)
    };
    let request = Kind::SetR {
        new: 1,
        expected: 1,
        number: 0,
    };
    let first = with_first(two(), 1_000, Some(1), Some(5));
    with(first, |n| {
        n.nodes[1] = joiner;
        n.messages[0] = message(1, 0, request);
        n.waiting = 1;
    })
}
