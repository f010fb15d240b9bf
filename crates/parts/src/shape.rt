//! Whether a link, the links of a node, or a message are well formed among the first `count` nodes.
ghost use Rattle.std.specs.Prelude.{◌≡◌};
ghost use Rattle.parts.specs.Shape.{link_fits, links_fit, kind_fits, message_fits};

use crate::{Kind, Link, Message, Seq, Status};

pub fn link_fits(link: Link, count: u8) -> bool
    ensures { result ≡ link_fits count link }
{
    link.is_none_or(|n| n < count)
}

/// The links and the right number of a node of this status.
pub fn links_fit(status: Status, left: Link, right: Link, rseq: Seq, count: u8) -> bool
    ensures { result ≡ links_fit count status left right rseq }
{
    (link_fits(left, count) & link_fits(right, count))
        & (((status == Status::Out) | (left.is_some() & right.is_some()))
            & (!matches!(status, Status::In | Status::Del) | rseq.is_some()))
}

fn kind_fits(kind: Kind, count: u8) -> bool
    ensures { result ≡ kind_fits count kind }
{
    match kind {
        Kind::SetR { new, expected, .. } => (new < count) & (expected < count),
        Kind::SetRAck { .. } | Kind::SetRNak => true,
        Kind::SetL { left, .. } => left < count,
    }
}

impl Message {
    /// Whether the message is well formed among the first `count` nodes.
    #[tactic(auto, unfolding(crate::specs::Shape::message_fits))]
    pub fn fits(self, count: u8) -> bool
        ensures { result ≡ message_fits count self }
    {
        (self.sender < count) & ((self.to < count) & kind_fits(self.kind, count))
    }
}
