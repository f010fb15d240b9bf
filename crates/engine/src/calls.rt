//! Any call on any network (R6.5, R6.6, R6.7, R6.8, R6.9), by value and where it lies.
ghost use Rattle.std.specs.Prelude.{◌≡◌};
ghost use Rattle.engine.specs.Outcomes.{called, reported, counted, apply_of};

use crate::{Called, in_place};
use network::Network;
use protocol::Call;
use refusal::Refusal;
use report::Report;

/// Any call on any network, where it lies.
pub fn act(network: &mut Network, call: Call) -> Report
    ensures { reported network.new result ≡ counted (apply_of network.old call) }
{
    if network.is_well_formed() {
        in_place::act(network, call)
    } else {
        Report::refused(Refusal::Malformed)
    }
}

/// Any call on any network by value: the same on a copy (R11.6).
pub fn apply(mut network: Network, call: Call) -> Called
    ensures { called result ≡ counted (apply_of network call) }
{
    let report = act(&mut network, call);
    Called { network, report }
}
