//! Tests of a kind of message, and how many messages a step posts.
ghost use Rattle.std.specs.Prelude.{◌≡◌, length};
ghost use Rattle.parts.specs.Tests.{is_ack, is_notice};
ghost use Rattle.parts.specs.Posts.{posted};

use crate::{Kind, Posts};

impl Kind {
    pub fn is_ack(self) -> bool
        ensures { result ≡ is_ack self }
    {
        matches!(self, Kind::SetRAck { .. })
    }

    pub fn is_notice(self) -> bool
        ensures { result ≡ is_notice self }
    {
        matches!(self, Kind::SetL { .. })
    }
}

impl Posts {
    /// How many messages these are.
    pub fn count(self) -> u8
        ensures { result ≡ length (posted self) }
    {
        match self {
            Posts::Nothing => 0,
            Posts::One(_) => 1,
            Posts::Two(_, _) => 2,
        }
    }
}
