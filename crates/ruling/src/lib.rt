//! What a call on any network comes to: what its rules look at is read where the network lies
//! (`access`, `searches`), and the decision is made from that (`rules`). Nothing is changed. That
//! on a well-formed network it is what the crate `protocol` says is proved in the crate `engine`.
#![tactic(auto)]

ghost use Rattle.std.specs.Prelude.{◌≡◌};
ghost use Rattle.decision.specs.Decided.{decided};
ghost use Rattle.ruling.specs.Rulings.{decision_on};

use decision::Decision;
use network::Network;
use protocol::Call;
use refusal::Refusal;

mod places;

pub use places::lowest;

/// What a call comes to, from what it looks at.
#[inline(always)]
#[tactic(auto, unfolding(crate::specs::Rulings::decision_on))]
pub fn decide(network: &Network, call: Call) -> Result<Decision, Refusal>
    ensures { decided result ≡ decision_on network.now call }
{
    match call {
        Call::Order(order) => {
            let sight = access::look(network, decision::spots(order));
            rules::decide_order(order, sight, searches::find(network, order))
        }
        Call::Deliver(place) => rules::decide_delivery(place, access::meet(network, place)),
    }
}
