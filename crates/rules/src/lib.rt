//! The rules as code: what an order or a delivery comes to, from the few values that its rules look
//! at, which is its refusal, or the change to be carried out and what is told of it. No network is
//! handed in and none is changed. `specs/` says it, with the steps of the crate `node` and what
//! `decision` makes of them; that on a well-formed network this is what the crate `protocol` says
//! is proved in the crate `engine`.
#![tactic(auto)]

ghost use Rattle.std.specs.Prelude.{◌≡◌};
ghost use Rattle.decision.specs.Decided.{decided};
ghost use Rattle.rules.specs.Decisions.{declare_decision, create_decision, join_decision, leave_decision, order_decision, delivery_decision};

use access::{Arrival, Sight};
use decision::Decision;
use network::CAPACITY;
use node::Node;
use parts::Status;
use protocol::Order;
use refusal::{Refusal, refuse_if};
use searches::Found;

// R6.5.
#[inline(always)]
fn decide_declare(key: u32, count: u8, taken: bool) -> Result<Decision, Refusal>
    ensures { decided result ≡ declare_decision key count taken }
{
    refuse_if(!serial::in_range(key), Refusal::SerialTooLarge)?;
    refuse_if(CAPACITY <= count, Refusal::NetworkFull)?;
    refuse_if(taken, Refusal::KeyTaken)?;
    Ok(decision::adding(count, key))
}

// R6.6.
#[inline(always)]
fn decide_create(number: u8, count: u8, node: Node, found: Found) -> Result<Decision, Refusal>
    ensures { decided result ≡ create_decision number count node found }
{
    refuse_if(count <= number, Refusal::Undeclared)?;
    refuse_if(found.standing, Refusal::NotAllOut)?;
    refuse_if(found.notice, Refusal::NoticeWaiting)?;
    Ok(decision::stepping(number, node.create(number)))
}

// R6.7: of the step's own two refusals only 24 is left to it.
#[inline(always)]
fn decide_join(
    number: u8,
    left: u8,
    right: u8,
    sight: Sight,
    notice: bool,
) -> Result<Decision, Refusal>
    ensures { decided result ≡ join_decision number left right sight notice }
{
    let count = sight.count;
    let known = (number < count) & ((left < count) & (right < count));
    refuse_if(!known, Refusal::Undeclared)?;
    let node = sight.node;
    refuse_if(node.status != Status::Out, Refusal::NotOut)?;
    refuse_if(notice, Refusal::NoticeWaiting)?;
    let before = decision::peer(left, sight.left);
    let beyond = decision::peer(right, sight.right);
    let step = node.join_unchecked(number, before, beyond);
    step.verdict?;
    decision::check_room(sight.waiting, step.posts)?;
    Ok(decision::stepping(number, step))
}

// R6.8.
#[inline(always)]
fn decide_leave(number: u8, count: u8, waiting: u8, node: Node) -> Result<Decision, Refusal>
    ensures { decided result ≡ leave_decision number count waiting node }
{
    refuse_if(count <= number, Refusal::Undeclared)?;
    let step = node.leave_unchecked(number);
    step.verdict?;
    decision::check_room(waiting, step.posts)?;
    Ok(decision::stepping(number, step))
}

/// An order, from what it looks at.
#[inline(always)]
pub fn decide_order(order: Order, sight: Sight, found: Found) -> Result<Decision, Refusal>
    ensures { decided result ≡ order_decision order sight found }
{
    let count = sight.count;
    let node = sight.node;
    match order {
        Order::Declare(key) => decide_declare(key, count, found.taken),
        Order::Create(number) => decide_create(number, count, node, found),
        Order::Join {
            node: number,
            left,
            right,
        } => decide_join(number, left, right, sight, found.notice),
        Order::Leave(number) => decide_leave(number, count, sight.waiting, node),
    }
}

/// A delivery, from what it looks at (R6.9).
#[inline(always)]
pub fn decide_delivery(place: u8, arrival: Arrival) -> Result<Decision, Refusal>
    ensures { decided result ≡ delivery_decision place arrival }
{
    let waiting = arrival.waiting;
    let message = arrival.message;
    refuse_if(waiting <= place, Refusal::NoMessage)?;
    let step = arrival.node.act(message.to, message.sender, message.kind);
    decision::check_room(waiting.saturating_sub(1), step.posts)?;
    // No message is refused by its node: said here, a record costs 9 to 12 instructions less.
    step.verdict?;
    Ok(decision::delivering(place, message.to, step))
}
