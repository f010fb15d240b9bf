//! SetR (R5.5, R5.6, R5.7, R5.8, R5.9): a node grants or denies a request to change its right link.
ghost use Rattle.std.specs.Prelude.{◌≡◌};
ghost use Rattle.parts.specs.Tests.{seq_of};
ghost use Rattle.node.specs.Actions.{effect, grants, would_grant, denied, on_set_r};

use crate::{Node, Outcome, Step};
use parts::{Kind, Message, Posts, Status};
use sequence::Number;

impl Node {
    /// The right number; the first number where there is none.
    pub(crate) fn right_number(self) -> Number
        ensures { result ≡ seq_of self.rseq }
    {
        self.rseq.unwrap_or(sequence::first())
    }

    /// Whether this message, from a sender, is a request that the node would grant.
    pub fn would_grant(self, sender: u8, kind: Kind) -> bool
        ensures { result ≡ would_grant self sender kind }
    {
        match kind {
            Kind::SetR { new, expected, .. } => self.grants_request(sender, new, expected),
            Kind::SetRAck { .. } | Kind::SetRNak | Kind::SetL { .. } => false,
        }
    }

    // A request comes as its sender and its fields, as the `match` on its kind has them: handed in
    // whole, it would be matched again where it is known to be a request.
    #[tactic(auto, unfolding(crate::specs::Actions::grants))]
    fn grants_request(self, sender: u8, new: u8, expected: u8) -> bool
        ensures { result ≡ grants self sender new expected }
    {
        (self.status == Status::In)
            & ((self.right == Some(expected))
                & ((new != sender) | sequence::has_next(self.right_number())))
    }

    // R5.9; and all that a node that is out does with a request (R5.13).
    pub(crate) fn deny(self, me: u8, sender: u8) -> Step
        ensures { effect result ≡ denied me self sender }
    {
        let nak = Message {
            sender: me,
            to: sender,
            kind: Kind::SetRNak,
        };
        self.posts_one(nak, Outcome::Denied)
    }

    pub(crate) fn on_set_r(self, me: u8, sender: u8, new: u8, expected: u8, number: Number) -> Step
        ensures { effect result ≡ on_set_r me self sender new expected number }
    {
        if !self.grants_request(sender, new, expected) {
            return self.deny(me, sender);
        }
        let next = sequence::capped_next(self.right_number());
        let relinked = Node {
            right: Some(new),
            rseq: Some(number),
            ..self
        };
        let ack = Message {
            sender: me,
            to: sender,
            kind: Kind::SetRAck { number: next },
        };
        let notice = if new == sender {
            Message {
                sender: me,
                to: expected,
                kind: Kind::SetL {
                    left: sender,
                    number: next,
                },
            }
        } else {
            Message {
                sender: me,
                to: new,
                kind: Kind::SetL { left: me, number },
            }
        };
        Step {
            node: relinked,
            posts: Posts::Two(notice, ack),
            verdict: Ok(Outcome::Granted),
        }
    }
}
