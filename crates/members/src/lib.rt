//! Who is inserted (R4.1, R4.2), for every network: a node's status says it, or leaves it to the
//! messages that wait. What this comes to on a well-formed network's lists is proved in `proofs/`;
//! whether a network is well formed is tested in a crate above.
#![tactic(auto)]

ghost use Rattle.std.specs.Prelude.{◌≡◌};
ghost use Rattle.protocol.specs.Answer.{answered};
ghost use Rattle.members.specs.Members.{ack_waits, member_in, word_of, inserted_in};

use network::Network;
use parts::Status;
use protocol::{Answer, Reply};

// Whether a SetRAck to a node waits. Not one function with the search for a notice: it would take
// the test of a kind, and its contract would say what that test may be asked and answers; public,
// it would ask that of its callers, which no public function does (R11.1).
fn ack_waits(network: &Network, number: u8) -> bool
    ensures { result ≡ ack_waits network.now number }
{
    network
        .queue()
        .iter()
        .any(|message| message.kind.is_ack() && message.to == number)
}

/// Whether a node is inserted; the messages are searched only where that depends on them.
pub fn is_member(network: &Network, number: u8) -> bool
    ensures { result ≡ member_in network.now number }
{
    match network.node(number).status {
        Status::Out => false,
        Status::Ins => ack_waits(network, number),
        Status::In => true,
        Status::Del => !ack_waits(network, number),
    }
}

// One word, bit n for node n.
fn word(network: &Network) -> u32
    ensures { result ≡ word_of network.now }
{
    let mut word = 0u32;
    for number in 0..network.declared().len() as u8 {
        if is_member(network, number) {
            word |= 1u32 << number;
        }
    }
    word
}

/// Who is inserted: one word, bit n for node n, and how many they are.
pub fn inserted(network: &Network) -> Answer
    ensures { answered result ≡ inserted_in network.now }
{
    let word = word(network);
    Ok(Reply::Inserted {
        word,
        size: word.count_ones(),
    })
}
