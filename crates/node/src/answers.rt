//! SetRAck (R5.10) and SetRNak (R5.11): the answers to a request.
ghost use Rattle.std.specs.Prelude.{◌≡◌};
ghost use Rattle.node.specs.Actions.{effect, on_set_r_ack, on_set_r_nak};

use crate::{Node, Outcome, Step};
use parts::Status;
use sequence::Number;

impl Node {
    pub(crate) fn on_set_r_ack(self, number: Number) -> Step
        ensures { effect result ≡ on_set_r_ack self.status self number }
    {
        match self.status {
            Status::Out | Status::In => self.silent(Outcome::Dropped),
            Status::Ins => {
                let joined = Node {
                    status: Status::In,
                    rseq: Some(number),
                    ..self
                };
                joined.silent(Outcome::Joined)
            }
            Status::Del => self.with_status(Status::Out).silent(Outcome::Gone),
        }
    }

    // Not one function with the last: the two differ in every arm but the first.
    pub(crate) fn on_set_r_nak(self) -> Step
        ensures { effect result ≡ on_set_r_nak self.status self }
    {
        match self.status {
            Status::Out | Status::In => self.silent(Outcome::Dropped),
            Status::Ins => self.with_status(Status::Out).silent(Outcome::JoinDenied),
            Status::Del => self.with_status(Status::In).silent(Outcome::LeaveDenied),
        }
    }
}
