//! What a step answers, of the node that it leaves behind: a refusal, an outcome with no message,
//! an outcome with one.
ghost use Rattle.std.specs.Prelude.{◌≡◌};
ghost use Rattle.refusal.specs.Code.{reason};
ghost use Rattle.node.specs.Actions.{effect, refused, quiet, posting, with_status};

use crate::{Node, Outcome, Step};
use parts::{Message, Posts, Status};
use refusal::Refusal;

impl Node {
    pub(crate) fn with_status(self, status: Status) -> Node
        ensures { result ≡ with_status status self }
    {
        Node { status, ..self }
    }

    pub(crate) fn refuse(self, refusal: Refusal) -> Step
        ensures { effect result ≡ refused self (reason refusal) }
    {
        Step {
            node: self,
            posts: Posts::Nothing,
            verdict: Err(refusal),
        }
    }

    pub(crate) fn silent(self, outcome: Outcome) -> Step
        ensures { effect result ≡ quiet self outcome }
    {
        Step {
            node: self,
            posts: Posts::Nothing,
            verdict: Ok(outcome),
        }
    }

    pub(crate) fn posts_one(self, message: Message, outcome: Outcome) -> Step
        ensures { effect result ≡ posting self message outcome }
    {
        Step {
            node: self,
            posts: Posts::One(message),
            verdict: Ok(outcome),
        }
    }
}
