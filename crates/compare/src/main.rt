//! Runs scripts made by chance through the ring program and through a second model of it, and holds
//! the two printouts against each other, byte for byte. It writes how often each mark had each
//! answer, what the model found in its network after each record, and last whether any script
//! differed.
#![tactic(auto)]

mod chance;
mod ledger;
mod playing;
mod steering;

use playing::Match;
use std::io;

const SCRIPTS: u32 = 1000;

fn main(rt: HostRuntime) -> io::Result<()> {
    let mut both = Match::new();
    for ordinal in 1..=SCRIPTS {
        both.turn(ordinal);
    }
    let ledger = both.ledger();
    print!(rt; "{ledger}")
}
