//! A drain of any network (docs/RULES.md, section 8), by value and where it lies.
ghost use Rattle.std.specs.Prelude.{◌≡◌};
ghost use Rattle.engine.specs.Outcomes.{called, reported, counted, drain_of};

use crate::{Called, in_place};
use network::Network;
use refusal::Refusal;
use report::Report;

/// A drain of any network, where it lies. A budget of 0 is no limit: then a drain that is not
/// refused leaves nothing waiting.
pub fn drain_in_place(network: &mut Network, budget: u16) -> Report
    ensures { reported network.new result ≡ counted (drain_of network.old budget) }
{
    if network.is_well_formed() {
        in_place::drain(network, budget)
    } else {
        Report::refused(Refusal::Malformed)
    }
}

/// A drain of any network by value: the same on a copy (R11.6).
pub fn drain(mut network: Network, budget: u16) -> Called
    ensures { called result ≡ counted (drain_of network budget) }
{
    let report = drain_in_place(&mut network, budget);
    Called { network, report }
}
