//! Calls, drains and tasks on a network where it lies, past the test. None of them knows a rule.
//! That the network is well formed stands in each `requires`, and not in a type: a struct that
//! holds the `&mut` and keeps the fact would be made at each door, and each contract would be of
//! what lies behind its reference.
ghost use Rattle.std.specs.Prelude.{◌≡◌, true, ◌<◌, length};
ghost use Rattle.refusal.specs.Rules.{done};
ghost use Rattle.protocol.specs.declared.Reply.TheVariants.{Ran};
ghost use Rattle.protocol.specs.Answer.{answered};
ghost use Rattle.network.specs.Arrays.{well_formed};
ghost use Rattle.engine.specs.Outcomes.{reported, counted, apply_of, drain_of};
ghost use Rattle.engine.specs.Computed.{next_delivery, done_on, Allowed};

use network::{Network, QUEUE_LIMIT};
use protocol::Call;
use refusal::Refusal;
use report::{Report, Tally};
use task::Task;

/// What the type of a network says of its arrays. A proof is told it where an element is read, and
/// not where the network is lent. What is read is not used, so that nothing is left of it. Called
/// in the six functions whose proofs need it: a contract of `Network` that told it would be called
/// there too.
pub(crate) fn sizes(network: &Network)
    ensures nodes { length network.now.nodes ≡ 32 }
    ensures messages { length network.now.messages ≡ 64 }
{
    let _node = network.nodes[0];
}

#[inline(always)]
pub(crate) fn act(network: &mut Network, call: Call) -> Report
    requires { well_formed network.old ≡ true }
    ensures { reported network.new result ≡ counted (apply_of network.old call) }
{
    sizes(network);
    match ruling::decide(network, call) {
        Ok(decision) => {
            access::commit(network, decision.change);
            decision.report
        }
        Err(refusal) => Report::refused(refusal),
    }
}

// A delivery at the lowest place where one is not refused: where a message waits, there is one.
// Only a full queue has a place where a delivery finds no room, so that else the first place will
// do.
fn deliver(network: &mut Network) -> Report
    requires { (well_formed network.old ≡ true) × (0 < network.old.waiting) }
    ensures { reported network.new result ≡ counted (next_delivery network.old) }
{
    sizes(network);
    let place = if network.waiting < QUEUE_LIMIT {
        0
    } else {
        ruling::lowest(network).unwrap_or(0)
    };
    act(network, Call::Deliver(place))
}

pub(crate) fn drain(network: &mut Network, budget: u16) -> Report
    requires { well_formed network.old ≡ true }
    ensures { reported network.new result ≡ counted (drain_of network.old budget) }
{
    sizes(network);
    let mut tally = Tally::default();
    while tally.goes_on(budget, network.waiting) {
        let report = deliver(network);
        tally = tally.tallied(report);
    }
    tally.ran(network.waiting)
}

// How many messages wait, told as by a drain that makes no delivery.
pub(crate) fn peek(network: &Network) -> Report
    ensures { (answered result.answer ≡ done (Ran 0 network.now.waiting)) × (result.posted ≡ 0) }
{
    Tally::default().ran(network.waiting)
}

pub(crate) fn execute(network: &mut Network, task: Result<Task, Refusal>) -> Report
    requires { Allowed network.old task }
    ensures { reported network.new result ≡ counted (done_on network.old task) }
{
    // A task is data that a script names, and no step that a caller hands in. Two matches: in one
    // over `Ok(Task::Call(call))` and so on, a proof is not told which task it is.
    let task = match task {
        Ok(task) => task,
        Err(refusal) => return Report::refused(refusal),
    };
    match task {
        Task::Call(call) => act(network, call),
        Task::Owner { start, serial } => {
            sizes(network);
            Report::told(owners::owner_of_record(network, start, serial))
        }
        Task::Drain(budget) => drain(network, budget),
        Task::Peek => {
            sizes(network);
            peek(network)
        }
    }
}
