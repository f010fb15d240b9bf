//! What any call may come to, whatever its rules: a refusal, which changes nothing, or a new node
//! or a node's step to be written down, with what is told of it. Where an order looks, and whether
//! what a step posts finds room, are here too. Each public function takes any values.
#![tactic(auto)]

ghost use Rattle.std.specs.Prelude.{◌≡◌, length, Ok};
ghost use Rattle.refusal.specs.Rules.{checked, first};
ghost use Rattle.parts.specs.Posts.{posted as listed};
ghost use Rattle.node.specs.Shape.{declared_of};
ghost use Rattle.node.specs.Actions.{effect, coded};
ghost use Rattle.protocol.specs.Calls.{stepped};
ghost use Rattle.protocol.specs.Answer.{answered};
ghost use Rattle.decision.specs.Decided.{spots_of, decided, adding, stepping, delivering, room_tests};

use access::{Change, Spots};
use node::{Node, Outcome, Peer, Step};
use parts::{Posts, Status};
use protocol::{Order, Reply};
use refusal::Refusal;
use report::Report;

/// What a call comes to that the network does not refuse: the change to be carried out, and what is
/// told. A create that its node refuses is one too: it tells that, and writes the node as it was.
#[derive(Clone, Copy)]
pub struct Decision {
    pub change: Change,
    pub report: Report,
}

/// Where an order looks.
pub fn spots(order: Order) -> Spots
    ensures { result ≡ spots_of order }
{
    match order {
        Order::Declare(_) => Spots::default(),
        Order::Create(node) | Order::Leave(node) => Spots {
            node,
            ..Spots::default()
        },
        Order::Join { node, left, right } => Spots { node, left, right },
    }
}

// What is told of a node's step.
fn report_of(verdict: Result<Outcome, Refusal>, posts: Posts) -> Report
    ensures { (answered result.answer ≡ stepped (coded verdict)) × (result.posted ≡ length (listed posts)) }
{
    Report {
        answer: verdict.map(Reply::Stepped),
        posted: u32::from(posts.count()),
    }
}

/// The step of a node, to be written down.
#[inline(always)]
pub fn stepping(number: u8, step: Step) -> Decision
    ensures { decided (Ok result) ≡ stepping number (effect step) }
{
    Decision {
        change: Change::Step {
            number,
            node: step.node,
            posts: step.posts,
        },
        report: report_of(step.verdict, step.posts),
    }
}

/// The step of a node on the message at a place, to be written down with the message taken.
#[inline(always)]
pub fn delivering(place: u8, number: u8, step: Step) -> Decision
    ensures { decided (Ok result) ≡ delivering place number (effect step) }
{
    Decision {
        change: Change::Deliver {
            place,
            number,
            node: step.node,
            posts: step.posts,
        },
        report: report_of(step.verdict, step.posts),
    }
}

/// The record of a node just declared (R1.4).
pub fn declared(key: u32) -> Node
    ensures { result ≡ declared_of key }
{
    Node {
        status: Status::Out,
        key,
        left: None,
        right: None,
        lseq: sequence::first(),
        rseq: None,
    }
}

#[inline(always)]
pub fn adding(number: u8, key: u32) -> Decision
    ensures { decided (Ok result) ≡ adding number key }
{
    Decision {
        change: Change::Add(declared(key)),
        report: Report::told(Ok(Reply::Declared { number, key })),
    }
}

#[inline(always)]
pub fn check_room(waiting: u8, posts: Posts) -> Result<(), Refusal>
    ensures { checked result ≡ first (room_tests waiting (listed posts)) }
{
    refusal::refuse_if(!access::has_room(waiting, posts), Refusal::QueueFull)
}

/// A neighbour, with its own key.
pub fn peer(number: u8, node: Node) -> Peer
    ensures { result ≡ record { number = number; key = node.key } }
{
    Peer {
        number,
        key: node.key,
    }
}
