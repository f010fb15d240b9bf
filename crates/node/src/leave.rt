//! Leave (R5.3, R5.4): a node asks the node on its left to pass it over, or goes at once where it
//! is alone.
ghost use Rattle.std.specs.Prelude.{◌≡◌};
ghost use Rattle.node.specs.Actions.{effect, leave_unchecked, leave_of};

use crate::{Node, Outcome, Step};
use parts::{Kind, Message, Status};
use refusal::Refusal;

impl Node {
    /// A leave with no test of the node.
    #[tactic(auto, unfolding(crate::specs::Actions::leave_unchecked), using(crate::proofs::ActionLaws::leave_asks))]
    pub fn leave_unchecked(self, me: u8) -> Step
        ensures { effect result ≡ leave_unchecked me self }
    {
        let last = self.right_number();
        if self.status != Status::In {
            return self.refuse(Refusal::NotIn);
        }
        if self.right == Some(me) {
            return self.with_status(Status::Out).silent(Outcome::LeftAlone);
        }
        if !sequence::has_next(last) {
            return self.refuse(Refusal::SequenceSpent);
        }
        // A node that is in has both links; 0 stands for one in a node that is handed in without.
        let request = Message {
            sender: me,
            to: self.left.unwrap_or(0),
            kind: Kind::SetR {
                new: self.right.unwrap_or(0),
                expected: me,
                number: sequence::capped_next(last),
            },
        };
        self.with_status(Status::Del)
            .posts_one(request, Outcome::Waiting)
    }

    #[tactic(auto, unfolding(crate::specs::Actions::leave_of, crate::specs::Actions::leave_unchecked))]
    pub fn leave(self, me: u8) -> Step
        ensures { effect result ≡ leave_of me self }
    {
        if !self.is_well_formed(me) {
            return self.refuse(Refusal::Malformed);
        }
        self.leave_unchecked(me)
    }
}
