//! A change carried out where a network lies.
ghost use Rattle.std.specs.Prelude.{◌≡◌, ◌&&◌, ◌+◌, ◌-◌, ◌<◌, ◌≤◌, length, leb, ltb};
ghost use Rattle.parts.specs.Posts.{posted as listed};
ghost use Rattle.protocol.specs.State.{queue_limit};
ghost use Rattle.access.specs.Changes.{placed, added, closed, all_posted, written, committed};

use crate::Change;
use network::{CAPACITY, Network, QUEUE_LIMIT, VACANT_MESSAGE};
use node::Node;
use parts::Posts;

fn place_node(network: &mut Network, number: u8, node: Node)
    requires { number < 32 }
    ensures { network.new ≡ placed network.old number node }
{
    network.nodes[number as usize] = node;
}

// A place behind the count, so that a slice of the nodes that are there would not do.
fn add_node(network: &mut Network, node: Node)
    requires { network.old.count < 32 }
    ensures { network.new ≡ added network.old node }
{
    network.nodes[network.count as usize] = node;
    network.count += 1;
}

// R6.9: the message at a place is taken, and the later ones move up. Here and in the other three,
// what finds room stands in the `requires`: it is tested once, by `commit`, for what all four
// write.
fn take_message(network: &mut Network, place: u8)
    requires { (place < network.old.waiting) × (network.old.waiting ≤ 64) }
    ensures { network.new ≡ closed network.old place }
{
    let place = place as usize;
    let last = network.waiting - 1;
    network
        .messages
        .copy_within(place + 1..network.waiting as usize, place);
    network.messages[last as usize] = VACANT_MESSAGE;
    network.waiting = last;
}

// R6.9: a step's posts stand at the end, in their order.
fn post(network: &mut Network, posts: Posts)
    requires { network.old.waiting + length (listed posts) ≤ 64 }
    ensures { network.new ≡ all_posted network.old (listed posts) }
{
    let waiting = network.waiting as usize;
    match posts {
        Posts::Nothing => {}
        Posts::One(first) => {
            network.messages[waiting] = first;
        }
        Posts::Two(first, second) => {
            network.messages[waiting] = first;
            network.messages[waiting + 1] = second;
        }
    }
    network.waiting += posts.count();
}

/// Whether a step's posts find room after so many messages.
pub fn has_room(waiting: u8, posts: Posts) -> bool
    ensures { result ≡ leb (waiting + length (listed posts)) queue_limit }
{
    u16::from(waiting) + u16::from(posts.count()) <= u16::from(QUEUE_LIMIT)
}

// Whether the message at a place can be taken, and the posts then find room.
fn has_room_after(place: u8, waiting: u8, posts: Posts) -> bool
    ensures { result ≡ (ltb place waiting && (leb waiting queue_limit && leb (waiting - 1 + length (listed posts)) queue_limit)) }
{
    place < waiting && waiting <= QUEUE_LIMIT && has_room(waiting - 1, posts)
}

/// A change carried out; one that finds no room is none.
#[inline(always)]
#[tactic(auto, unfolding(crate::specs::Changes::committed))]
pub fn commit(network: &mut Network, change: Change)
    ensures { network.new ≡ committed network.old (written change) }
{
    match change {
        Change::Add(node) => {
            if network.count < CAPACITY {
                add_node(network, node);
            }
        }
        Change::Step {
            number,
            node,
            posts,
        } => {
            if (number < CAPACITY) & has_room(network.waiting, posts) {
                place_node(network, number, node);
                post(network, posts);
            }
        }
        Change::Deliver {
            place,
            number,
            node,
            posts,
        } => {
            if (number < CAPACITY) & has_room_after(place, network.waiting, posts) {
                take_message(network, place);
                place_node(network, number, node);
                post(network, posts);
            }
        }
    }
}
