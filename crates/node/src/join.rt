//! Join (R5.2): a node asks the node on its left to let it in.
ghost use Rattle.std.specs.Prelude.{◌≡◌};
ghost use Rattle.node.specs.Actions.{effect, join_unchecked, join_of};

use crate::{Node, Outcome, Peer, Step};
use parts::{Kind, Message, Status};
use refusal::Refusal;

impl Node {
    /// A join with no test of node or neighbours.
    #[tactic(auto, unfolding(crate::specs::Actions::join_unchecked))]
    pub fn join_unchecked(self, me: u8, left: Peer, right: Peer) -> Step
        ensures { effect result ≡ join_unchecked me self left right }
    {
        if self.status != Status::Out {
            return self.refuse(Refusal::NotOut);
        }
        if !interval::is_between(left.key, right.key, self.key) {
            return self.refuse(Refusal::NotBetween);
        }
        let joining = Node {
            status: Status::Ins,
            left: Some(left.number),
            right: Some(right.number),
            ..self
        };
        let request = Message {
            sender: me,
            to: left.number,
            kind: Kind::SetR {
                new: me,
                expected: right.number,
                number: self.lseq,
            },
        };
        joining.posts_one(request, Outcome::Waiting)
    }

    #[tactic(auto, unfolding(crate::specs::Actions::join_of, crate::specs::Actions::join_unchecked))]
    pub fn join(self, me: u8, left: Peer, right: Peer) -> Step
        ensures { effect result ≡ join_of me self left right }
    {
        if !(self.is_well_formed(me) & (left.fits() & right.fits())) {
            return self.refuse(Refusal::Malformed);
        }
        self.join_unchecked(me, left, right)
    }
}
