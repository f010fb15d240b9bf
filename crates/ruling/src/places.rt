//! Where a drain delivers next (R8.1), on any network.
ghost use Rattle.std.specs.Prelude.{◌≡◌};
ghost use Rattle.ruling.specs.Places.{finds_room, lowest_place};

use network::{Network, QUEUE_LIMIT};

// Whether a delivery at a place finds room for what it posts: only a full queue has none, and only
// for a request that would be granted.
fn finds_room(network: &Network, place: u8) -> bool
    ensures { result ≡ finds_room network.now place }
{
    let arrival = access::meet(network, place);
    let message = arrival.message;
    (network.waiting < QUEUE_LIMIT) | !arrival.node.would_grant(message.sender, message.kind)
}

/// The lowest place where a delivery finds room. Not by `find`: what it ensures of a range did not
/// lead to the definition.
pub fn lowest(network: &Network) -> Option<u8>
    ensures { result ≡ lowest_place network.now }
{
    for place in 0..network.waiting {
        if finds_room(network, place) {
            return Some(place);
        }
    }
    None
}
