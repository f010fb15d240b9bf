//! Hands networks that are not well formed to the doors of the crate `engine`, which are its public
//! functions of a network, and counts those that answer 6 and hand the very network back (R6.2): a
//! well-formed network with one rule of section 2 broken at a time, and networks with fields made
//! by chance. Then what no script can show of well-formed networks: one that is no ring, and the
//! word of the inserted nodes.
#![tactic(auto)]

ghost use Rattle.std.specs.Prelude.{◌≤◌};

mod faults;
mod random;

use engine::Called;
use network::Network;
use protocol::{Call, Order, Reply};
use random::Generator;
use refusal::Refusal;
use report::Report;
use std::io;

// Five calls and a drain by value, the same in place, and the three questions.
const DOORS: usize = 15;

const DRAWN: u32 = 500;

const SEED: u32 = 2_463_534_242;

// A call or a drain that was refused 6, with nothing posted and the network as it was.
fn is_unchanged(network: &Network, called: &Called) -> bool {
    called.report == Report::refused(Refusal::Malformed) && called.network == *network
}

// What is done to a network where it lies, of a copy.
fn on_copy<F: FnOnce(&mut Network) -> Report>(mut network: Network, change: F) -> Called
    requires { F.IsAlwaysCallable change }
{
    let report = change(&mut network);
    Called { network, report }
}

// How many of the doors answer 6 and leave the network as it was.
fn refused(network: Network) -> usize
    ensures { result ≤ 15 }
{
    let calls = [
        Call::Order(Order::Declare(5_000)),
        Call::Order(Order::Create(0)),
        Call::Order(Order::Join {
            node: 1,
            left: 0,
            right: 0,
        }),
        Call::Order(Order::Leave(0)),
        Call::Deliver(0),
    ];
    let by_value = calls.iter().filter(|call| is_unchanged(
        &network,
        &engine::apply(network, **call),
    ));
    let in_place = calls.iter().filter(|call| is_unchanged(
        &network,
        &on_copy(network, |n| engine::act(n, **call)),
    ));
    let others = [
        is_unchanged(&network, &engine::drain(network, 0)),
        is_unchanged(
            &network,
            &on_copy(network, |n| engine::drain_in_place(n, 0)),
        ),
        engine::peek(network) == Err(Refusal::Malformed),
        engine::inserted(network) == Err(Refusal::Malformed),
        engine::owner(network, 0, 1_500) == Err(Refusal::Malformed),
    ];
    by_value.count() + in_place.count() + others.iter().filter(|held| **held).count()
}

// What no script comes to: a well-formed network that is no ring, on which an owner is not found,
// and a right number that is the last.
fn no_ring(rt: &impl Print) -> io::Result<()> {
    let network = faults::no_ring();
    let left = engine::apply(network, Call::Order(Order::Leave(0)));
    let (Err(not_found), Err(spent)) = (engine::owner(network, 0, 2_500), left.report.answer) else {
        return Ok(());
    };
    println!(rt; "R2.1, a network that is no ring: {}", refused(network))?;
    println!(rt;
        "R7.2, its owner of 2,500, from 0, is refused: {}",
        not_found.number()
    )?;
    println!(rt;
        "R6.8, a leave of 0, at the last number, is refused: {}",
        spent.number()
    )
}

// R8.4, R10.13: such a network is drained all the same, by no more deliveries than its load, which
// is three, and is left well formed.
fn drained(rt: &impl Print) -> io::Result<()> {
    let network = faults::no_ring_with_a_request();
    let called = engine::drain(network, 0);
    let (Ok(Reply::Ran { left: waiting, .. }), Ok(Reply::Ran { made, left })) = (
        engine::peek(network),
        called.report.answer,
    ) else {
        return Ok(());
    };
    println!(rt;
        "R8.5, of such a network with a request that is granted, messages that wait: {waiting}"
    )?;
    println!(rt; "R8.4, R10.13, a drain of it with no limit makes deliveries: {made}")?;
    println!(rt; "R8.4, it leaves messages: {left}")?;
    println!(rt;
        "R10.13, of the networks before and after it, so many are well formed: {}",
        [network, called.network]
            .iter()
            .filter(|one| one.is_well_formed())
            .count()
    )
}

// R4.2: the word of the inserted nodes, and its ones.
fn members(rt: &impl Print, network: Network) -> io::Result<()> {
    let Ok(Reply::Inserted { word, size }) = engine::inserted(network) else {
        return Ok(());
    };
    println!(rt; "R4.2, the word of the inserted nodes 0 and 1: {word}")?;
    println!(rt; "R4.2, its ones: {size}")
}

// Of the networks drawn, how many are well formed, and how many others every door refuses.
fn by_chance(rt: &impl Print) -> io::Result<()> {
    let mut generator = Generator::new(SEED);
    let mut well_formed = 0u32;
    let mut right = 0u32;
    for _ in 0..DRAWN {
        let network = generator.network();
        if network.is_well_formed() {
            well_formed = well_formed.saturating_add(1);
        } else if refused(network) == DOORS {
            right = right.saturating_add(1);
        }
    }
    println!(rt; "networks made by chance: {DRAWN}")?;
    println!(rt; "of them well formed: {well_formed}")?;
    println!(rt; "refused 6 by every door, and handed back: {right}")
}

fn main(rt: HostRuntime) -> io::Result<()> {
    let sound = faults::sound();
    println!(rt; "doors in all: {DOORS}")?;
    println!(rt;
        "doors that refuse 6 a well-formed network: {}",
        refused(sound)
    )?;
    println!(rt;
        "the same with 32 nodes: {}",
        refused(faults::grown(sound, 32, sound.waiting))
    )?;
    println!(rt;
        "the same with 64 messages: {}",
        refused(faults::grown(sound, sound.count, 64))
    )?;
    println!(rt; "doors that refuse 6 the same network with one rule broken:")?;
    for (rule, network) in faults::one_by_one(sound) {
        println!(rt; "{rule}: {}", refused(network))?;
    }
    no_ring(&rt)?;
    drained(&rt)?;
    members(&rt, sound)?;
    by_chance(&rt)
}
