//! The tests of what is handed in to a step (R6.12).
ghost use Rattle.std.specs.Prelude.{◌≡◌};
ghost use Rattle.node.specs.Shape.{node_fits, well_formed, deliverable, peer_fits};

use crate::{CAPACITY, Node, Peer};
use parts::Message;

impl Node {
    /// Whether the node is well formed among the first `count` nodes.
    #[tactic(auto, unfolding(crate::specs::Shape::node_fits))]
    pub fn fits(self, count: u8) -> bool
        ensures { result ≡ node_fits count self }
    {
        serial::in_range(self.key)
            & parts::links_fit(self.status, self.left, self.right, self.rseq, count)
    }

    #[tactic(auto, unfolding(crate::specs::Shape::well_formed))]
    pub(crate) fn is_well_formed(self, me: u8) -> bool
        ensures { result ≡ well_formed me self }
    {
        (me < CAPACITY) & self.fits(CAPACITY)
    }
}

impl Peer {
    #[tactic(auto, unfolding(crate::specs::Shape::peer_fits))]
    pub(crate) fn fits(self) -> bool
        ensures { result ≡ peer_fits self }
    {
        (self.number < CAPACITY) & serial::in_range(self.key)
    }
}

#[tactic(auto, unfolding(crate::specs::Shape::deliverable))]
pub(crate) fn is_deliverable(message: Message, me: u8) -> bool
    ensures { result ≡ deliverable me message }
{
    (message.to == me) & message.fits(CAPACITY)
}
