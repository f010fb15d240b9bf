//! Create (R5.1): the first node of a ring.
ghost use Rattle.std.specs.Prelude.{◌≡◌};
ghost use Rattle.node.specs.Actions.{effect, create_of};

use crate::{Node, Outcome, Step};
use parts::Status;
use refusal::Refusal;

impl Node {
    #[tactic(auto, unfolding(crate::specs::Actions::create_of))]
    pub fn create(self, me: u8) -> Step
        ensures { effect result ≡ create_of me self }
    {
        if !self.is_well_formed(me) {
            return self.refuse(Refusal::Malformed);
        }
        if self.status != Status::Out {
            return self.refuse(Refusal::NotOut);
        }
        let first = sequence::first();
        let created = Node {
            status: Status::In,
            left: Some(me),
            right: Some(me),
            lseq: first,
            rseq: Some(first),
            ..self
        };
        created.silent(Outcome::Created)
    }
}
