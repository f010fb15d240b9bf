//! Receiving a message: any one by its kind, and one of each kind.
ghost use Rattle.std.specs.Prelude.{◌≡◌};
ghost use Rattle.node.specs.Actions.{effect, set_r, set_r_ack, set_r_nak, set_l, while_out, act_of, receive_of};

use crate::{Node, Outcome, Step, shape};
use parts::{Kind, Message, Status};
use refusal::Refusal;
use sequence::Number;

impl Node {
    // What a node that is out does with each kind (R5.13).
    fn act_while_out(self, me: u8, sender: u8, kind: Kind) -> Step
        ensures { effect result ≡ while_out me self sender kind }
    {
        match kind {
            Kind::SetR { .. } => self.deny(me, sender),
            Kind::SetRAck { .. } | Kind::SetRNak | Kind::SetL { .. } => {
                self.silent(Outcome::Dropped)
            }
        }
    }

    /// What a node does with a message, by its kind: the action alone, with no test of node or
    /// message.
    pub fn act(self, me: u8, sender: u8, kind: Kind) -> Step
        ensures { effect result ≡ act_of me self sender kind }
    {
        if self.status == Status::Out {
            return self.act_while_out(me, sender, kind);
        }
        match kind {
            Kind::SetR {
                new,
                expected,
                number,
            } => self.on_set_r(me, sender, new, expected, number),
            Kind::SetRAck { number } => self.on_set_r_ack(number),
            Kind::SetRNak => self.on_set_r_nak(),
            Kind::SetL { left, number } => self.on_set_l(left, number),
        }
    }

    /// Any message, by its kind.
    #[tactic(auto, unfolding(crate::specs::Actions::receive_of))]
    pub fn receive(self, me: u8, message: Message) -> Step
        ensures { effect result ≡ receive_of me self message }
    {
        if !(self.is_well_formed(me) & shape::is_deliverable(message, me)) {
            return self.refuse(Refusal::Malformed);
        }
        self.act(me, message.sender, message.kind)
    }

    // One of each kind, by its fields (R5.5, R5.10, R5.11, R5.12): a form that is fixed. `receive`
    // takes the struct.

    pub fn receive_set_r(
        self,
        me: u8,
        sender: u8,
        to: u8,
        new: u8,
        expected: u8,
        number: Number,
    ) -> Step
        ensures { effect result ≡ receive_of me self (set_r sender to new expected number) }
    {
        let request = Message {
            sender,
            to,
            kind: Kind::SetR {
                new,
                expected,
                number,
            },
        };
        self.receive(me, request)
    }

    pub fn receive_set_r_ack(self, me: u8, sender: u8, to: u8, number: Number) -> Step
        ensures { effect result ≡ receive_of me self (set_r_ack sender to number) }
    {
        let ack = Message {
            sender,
            to,
            kind: Kind::SetRAck { number },
        };
        self.receive(me, ack)
    }

    pub fn receive_set_r_nak(self, me: u8, sender: u8, to: u8) -> Step
        ensures { effect result ≡ receive_of me self (set_r_nak sender to) }
    {
        let nak = Message {
            sender,
            to,
            kind: Kind::SetRNak,
        };
        self.receive(me, nak)
    }

    pub fn receive_set_l(self, me: u8, sender: u8, to: u8, left: u8, number: Number) -> Step
        ensures { effect result ≡ receive_of me self (set_l sender to left number) }
    {
        let notice = Message {
            sender,
            to,
            kind: Kind::SetL { left, number },
        };
        self.receive(me, notice)
    }
}
