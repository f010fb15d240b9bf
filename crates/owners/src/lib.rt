//! Which node owns a serial (docs/RULES.md, section 7), for every network: the walk along right
//! links from a start that is inserted, and what is refused before it. What this comes to on a
//! well-formed network's lists is proved in `proofs/`; whether a network is well formed is tested
//! in a crate above. A network, a start and a serial are the question: a struct of the three would
//! be made at each door and taken apart in the walk.
#![tactic(auto)]

ghost use Rattle.std.specs.Prelude.{◌≡◌};
ghost use Rattle.protocol.specs.Answer.{answered};
ghost use Rattle.protocol.specs.Questions.{walked};
ghost use Rattle.owners.specs.Owners.{walk_from, owner_in, owner_asked};

use network::Network;
use protocol::{Answer, Reply};
use refusal::{Refusal, refuse_if};
use serial::SerialError;

// R7.1, R7.2: along right links from a start, to the node whose interval holds the serial.
fn walk(network: &Network, start: u8, serial: u32) -> Answer
    ensures { answered result ≡ walked (walk_from network.now serial network.now.count start 0) }
{
    let mut node = start;
    for hops in 0..network.count {
        let here = network.node(node);
        let Some(next) = here.right else {
            return Err(Refusal::OwnerNotFound);
        };
        if interval::is_within(here.key, network.node(next).key, serial) {
            return Ok(Reply::Owner { node, hops });
        }
        node = next;
    }
    Err(Refusal::OwnerNotFound)
}

/// The owner of a serial from a start.
pub fn owner(network: &Network, start: u8, serial: u32) -> Answer
    ensures { answered result ≡ owner_in network.now start serial }
{
    refuse_if(network.count <= start, Refusal::Undeclared)?;
    refuse_if(!serial::in_range(serial), Refusal::SerialTooLarge)?;
    refuse_if(
        !members::is_member(network, start),
        Refusal::StartNotInserted,
    )?;
    walk(network, start, serial)
}

/// The same as a record asks it, whose serial may be refused at its turn, after the start (R9.6).
pub fn owner_of_record(network: &Network, start: u8, serial: Result<u32, SerialError>) -> Answer
    ensures { answered result ≡ owner_asked network.now start serial }
{
    refuse_if(!(start < network.count), Refusal::Undeclared)?;
    owner(network, start, serial?)
}
