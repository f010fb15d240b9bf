//! What any network is asked without being changed: how many messages wait (R8.5), who is inserted
//! (R6.11), and which node owns a serial (R7.3).
ghost use Rattle.std.specs.Prelude.{◌≡◌};
ghost use Rattle.protocol.specs.Answer.{answered};
ghost use Rattle.engine.specs.Answers.{peek_of, inserted_of, owner_of};

use crate::in_place;
use network::Network;
use protocol::Answer;
use refusal::Refusal;

/// How many messages wait, told as by a drain that makes no delivery.
pub fn peek(network: Network) -> Answer
    ensures { answered result ≡ peek_of network }
{
    network
        .is_well_formed()
        .then_some(in_place::peek(&network).answer)
        .unwrap_or(Err(Refusal::Malformed))
}

/// Who is inserted: one word, bit n for node n, and how many they are.
pub fn inserted(network: Network) -> Answer
    ensures { answered result ≡ inserted_of network }
{
    if !network.is_well_formed() {
        return Err(Refusal::Malformed);
    }
    members::inserted(&network)
}

/// The owner of a serial from a start, in any network.
pub fn owner(network: Network, start: u8, serial: u32) -> Answer
    ensures { answered result ≡ owner_of network start serial }
{
    if network.is_well_formed() {
        owners::owner(&network, start, serial)
    } else {
        Err(Refusal::Malformed)
    }
}
