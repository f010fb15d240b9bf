//! What a message does to the node that it reaches, after 004 Fig. 1 and papers 01 and 02. The
//! outcome comes first, from the node and the message; the node afterwards and the messages posted
//! follow from it.
use crate::answer::Outcome;

#[derive(Clone, Copy, Default, Eq, PartialEq)]
pub enum Status {
    #[default]
    Out,
    Ins,
    In,
    Del,
}

/// What a node does not have is 0: the rules read a link or a number only where the status says
/// that it is there, and the walks of `compare`, which begin at any node, want a link of each.
#[derive(Clone, Copy, Default)]
pub struct Node {
    pub key: u32,
    pub status: Status,
    pub left: u8,
    pub right: u8,
    pub left_number: u16,
    pub right_number: u16,
}

#[derive(Clone, Copy, Default, Eq, PartialEq)]
pub enum Kind {
    SetR,
    SetRAck,
    #[default]
    SetRNak,
    SetL,
}

/// `link` is the new right link that a SetR asks for, or the left link that a SetL tells. A field
/// that a kind does not use is 0. The fields do not stand in `Kind`, since who awaits a message
/// asks by its kind alone, and where a field is read the outcome has told the kind already.
#[derive(Clone, Copy, Default)]
pub struct Message {
    pub kind: Kind,
    pub sender: u8,
    pub addressee: u8,
    pub link: u8,
    pub expected: u8,
    pub number: u16,
}

impl Message {
    pub(crate) fn is_join(&self) -> bool {
        self.link == self.sender
    }

    // A request of this node, or an answer to it.
    pub(crate) fn is_exchange_of(&self, node: u8) -> bool {
        match self.kind {
            Kind::SetR => self.sender == node,
            Kind::SetRAck | Kind::SetRNak => self.addressee == node,
            Kind::SetL => false,
        }
    }

    // An answer to the sender of this request.
    fn answered(&self, kind: Kind, number: u16) -> Message {
        Message {
            kind,
            sender: self.addressee,
            addressee: self.sender,
            number,
            ..Message::default()
        }
    }
}

impl Node {
    fn next_right_number(&self) -> u16 {
        self.right_number.saturating_add(1)
    }

    pub fn grants(&self, request: &Message) -> bool {
        self.status == Status::In
            && self.right == request.expected
            && (!request.is_join() || self.right_number < u16::MAX)
    }

    pub fn outcome(&self, taken: &Message) -> Outcome {
        match (self.status, taken.kind) {
            (_, Kind::SetR) if self.grants(taken) => Outcome::Granted,
            (_, Kind::SetR) => Outcome::Denied,
            (Status::Out, _) => Outcome::Dropped,
            (_, Kind::SetL) if taken.number > self.left_number => Outcome::LeftSet,
            (_, Kind::SetL) => Outcome::LeftOld,
            (Status::In, _) => Outcome::Dropped,
            (Status::Ins, Kind::SetRAck) => Outcome::Joined,
            (Status::Ins, Kind::SetRNak) => Outcome::JoinDenied,
            (Status::Del, Kind::SetRAck) => Outcome::Gone,
            (Status::Del, Kind::SetRNak) => Outcome::LeaveDenied,
        }
    }

    pub(crate) fn with_status(self, status: Status) -> Node {
        Node { status, ..self }
    }

    pub(crate) fn after(self, taken: &Message, outcome: Outcome) -> Node {
        match outcome {
            Outcome::Granted => Node {
                right: taken.link,
                right_number: taken.number,
                ..self
            },
            Outcome::Joined => Node {
                status: Status::In,
                right_number: taken.number,
                ..self
            },
            Outcome::LeftSet => Node {
                left: taken.link,
                left_number: taken.number,
                ..self
            },
            Outcome::Gone | Outcome::JoinDenied => self.with_status(Status::Out),
            Outcome::LeaveDenied => self.with_status(Status::In),
            _ => self,
        }
    }

    // A granted join is told to the right link that was, a granted leave to the right link to be.
    fn notice(&self, granted: &Message) -> Message {
        let (addressee, link, number) = if granted.is_join() {
            (self.right, granted.link, self.next_right_number())
        } else {
            (granted.link, granted.addressee, granted.number)
        };
        Message {
            kind: Kind::SetL,
            sender: granted.addressee,
            addressee,
            link,
            number,
            ..Message::default()
        }
    }

    pub(crate) fn posts(&self, taken: &Message, outcome: Outcome) -> [Option<Message>; 2] {
        match outcome {
            Outcome::Granted => [
                Some(self.notice(taken)),
                Some(taken.answered(Kind::SetRAck, self.next_right_number())),
            ],
            Outcome::Denied => [Some(taken.answered(Kind::SetRNak, 0)), None],
            _ => [None, None],
        }
    }
}
