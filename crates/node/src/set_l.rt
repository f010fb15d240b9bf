//! SetL (R5.12): a notice of a new left link.
ghost use Rattle.std.specs.Prelude.{◌≡◌};
ghost use Rattle.node.specs.Actions.{effect, on_set_l};

use crate::{Node, Outcome, Step};
use sequence::Number;

impl Node {
    pub(crate) fn on_set_l(self, left: u8, number: Number) -> Step
        ensures { effect result ≡ on_set_l self left number }
    {
        if sequence::is_newer(number, self.lseq) {
            let relinked = Node {
                left: Some(left),
                lseq: number,
                ..self
            };
            return relinked.silent(Outcome::LeftSet);
        }
        self.silent(Outcome::LeftOld)
    }
}
