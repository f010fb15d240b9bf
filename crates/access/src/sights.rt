//! What the rules of an order or a delivery look at.
ghost use Rattle.std.specs.Prelude.{◌≡◌};
ghost use Rattle.access.specs.Sights.{sight_of, arrival_of};

use crate::{Arrival, Sight, Spots};
use network::Network;

/// What stands at some spots.
#[inline(always)]
pub fn look(network: &Network, spots: Spots) -> Sight
    ensures { result ≡ sight_of network.now spots }
{
    Sight {
        count: network.count,
        waiting: network.waiting,
        node: network.node(spots.node),
        left: network.node(spots.left),
        right: network.node(spots.right),
    }
}

/// The message at a place, and the node that it is for.
#[inline(always)]
pub fn meet(network: &Network, place: u8) -> Arrival
    ensures { result ≡ arrival_of network.now place }
{
    let message = network.message(place);
    Arrival {
        waiting: network.waiting,
        message,
        node: network.node(message.to),
    }
}
