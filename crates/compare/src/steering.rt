//! Scripts by chance. Records are drawn until one comes whose answer, as the network of the model
//! is by then, is welcome; so that orders of every outcome come in good number. A script has a
//! mood, its own throw, which gives its temper and how many nodes are wanted.
use crate::chance::{Purpose, Throw};
use crate::ledger::Came;
use arrayvec::{ArrayVec, CapacityError};
use model::answer::{Outcome, Refusal};
use model::network::{Network, Step};
use model::rules::Kind;
use model::script::{Mark, Record, Serial};
use std::iter;

const MARKS: [Mark; 10] = [
    Mark::Bc,
    Mark::Bn,
    Mark::Cr,
    Mark::Jn,
    Mark::Lv,
    Mark::Dl,
    Mark::Oc,
    Mark::On,
    Mark::Rd,
    Mark::Pk,
];

// Marks that are none.
const NO_MARKS: [[u8; 2]; 5] = [*b"--", *b"bc", *b"Jn", *b"pk", *b"XX"];

// How many records are drawn before a question takes their place.
const DRAWS: usize = 12;

// How many numbers of four bytes are too large for a serial.
const TOO_LARGE: u32 = 4_194_967_296;

// Few nodes and many orders; many nodes; notices left lying until the network is full; drained
// often; anything; rings of one.
#[derive(Clone, Copy, Eq, PartialEq)]
enum Temper {
    Few,
    Many,
    Hoarding,
    Draining,
    Any,
    Lone,
}

const TEMPERS: [Temper; 6] = [
    Temper::Few,
    Temper::Many,
    Temper::Hoarding,
    Temper::Draining,
    Temper::Any,
    Temper::Lone,
];

impl Temper {
    fn of(mood: Throw) -> Temper {
        mood.pick(Purpose::Temper, TEMPERS)
    }

    // For each of the marks a share of a hundred, in the order of `MARKS`: with its mark beside
    // each number this would no longer read as a table.
    fn shares(self) -> [u32; 10] {
        match self {
            Temper::Few => [1, 1, 3, 25, 14, 46, 3, 3, 3, 1],
            Temper::Many => [2, 2, 1, 22, 7, 48, 7, 7, 3, 1],
            Temper::Hoarding => [1, 1, 1, 22, 18, 49, 2, 2, 3, 1],
            Temper::Draining => [2, 1, 3, 34, 18, 6, 6, 6, 21, 3],
            Temper::Any => [4, 4, 8, 22, 16, 29, 5, 5, 5, 2],
            Temper::Lone => [1, 1, 14, 18, 20, 36, 3, 3, 3, 1],
        }
    }
}

// The share of a hundred in which a record is welcome, by what is foreseen of it: the answer, or
// nothing, for a request that would not be granted now.
fn welcome_share(foreseen: Option<Came>) -> u32 {
    match foreseen {
        None => 10,
        Some(Came::Refused(refusal)) => match refusal {
            Refusal::NotAllOut => 5,
            Refusal::NotOut => 4,
            Refusal::NoticeWaits => 60,
            Refusal::LastNumber => 100,
            Refusal::QueueFull => 40,
            Refusal::NotInserted => 15,
            Refusal::NotBetween | Refusal::NotIn | Refusal::NoMessage => 8,
            _ => 0,
        },
        Some(Came::Declared | Came::Ran) => 40,
        Some(Came::Done(Outcome::Denied)) => 60,
        Some(Came::Done(Outcome::Out | Outcome::Dropped)) => 50,
        Some(_) => 100,
    }
}

/// What stands in a script: a record, or two bytes that are no mark and one more.
#[derive(Clone, Copy)]
pub(crate) enum Piece {
    Record(Record),
    NoMark([u8; 3]),
}

impl Piece {
    pub(crate) fn append_to<const N: usize>(
        self,
        script: &mut ArrayVec<u8, N>,
    ) -> Result<(), CapacityError> {
        match self {
            Piece::Record(record) => record.append_to(script),
            Piece::NoMark(bytes) => script.try_extend_from_slice(&bytes),
        }
    }
}

/// What a record is drawn from: the network as it is, the script's mood and a throw.
#[derive(Clone, Copy)]
pub(crate) struct Draw<'a> {
    pub(crate) network: &'a Network,
    pub(crate) mood: Throw,
    pub(crate) throw: Throw,
}

impl Draw<'_> {
    fn wanted_nodes(&self) -> u8 {
        let few = self.mood.byte_below(Purpose::NodesWanted, 4);
        let many = self.mood.byte_below(Purpose::NodesWanted, 36);
        match Temper::of(self.mood) {
            Temper::Few => few.saturating_add(2),
            Temper::Lone => few.saturating_add(1),
            _ => many.saturating_add(4).min(32),
        }
    }

    // Before the nodes wanted are there.
    fn is_early(&self) -> bool {
        self.network.declared_nodes() < self.wanted_nodes()
    }

    // Before notices are left lying, the nodes wanted are declared and the network is drained
    // often.
    fn temper(&self) -> Temper {
        match Temper::of(self.mood) {
            Temper::Hoarding if self.is_early() => Temper::Draining,
            own => own,
        }
    }

    fn mark(&self) -> Mark {
        let mut left = self.throw.below(Purpose::Mark, 100);
        for (mark, share) in MARKS.iter().zip(self.temper().shares()) {
            match left.checked_sub(share) {
                Some(rest) => left = rest,
                None => return *mark,
            }
        }
        Mark::Bc
    }

    fn any_node(&self, purpose: Purpose) -> u8 {
        self.throw
            .byte_below(purpose, self.network.declared_nodes())
    }

    fn key_of_any(&self, purpose: Purpose) -> u32 {
        self.network.node(self.any_node(purpose)).key
    }

    // A serial: at either end of the range, the key of a node or the one after, or any.
    fn serial(&self) -> u32 {
        let key = self.key_of_any(Purpose::NodeOfSerial);
        match self.throw.below(Purpose::SerialKind, 16) {
            0 => 0,
            1 => 1,
            2 => 99_999_998,
            3 => 99_999_999,
            4 | 5 => key,
            6 => key.saturating_add(1),
            _ => self.throw.below(Purpose::Serial, 100_000_000),
        }
    }

    // Where the nodes wanted are there, most declarations are of a key that is taken.
    fn key_to_declare(&self) -> u32 {
        if self.is_early() || self.throw.one_of(Purpose::TakenKey, 8) {
            self.serial()
        } else {
            self.key_of_any(Purpose::NodeOfTakenKey)
        }
    }

    // A join before the node that a walk from some node finds to own the key, and in a few cases
    // with any node on the right. Where a notice waits for the joiner it is mostly between any two
    // nodes, so that 24 is often met beside 25.
    fn join(&self) -> Record {
        let network = self.network;
        let node = self.any_node(Purpose::Joiner);
        if network.awaits(node, Kind::SetL) && !self.throw.one_of(Purpose::JoinByWalk, 4) {
            return Record::Join {
                node,
                left: self.any_node(Purpose::AnyLeft),
                right: self.any_node(Purpose::AnyRight),
            };
        }
        let start = self.any_node(Purpose::StartOfWalk);
        let left = match network.owner_from(start, network.node(node).key) {
            Some((_, owner)) => owner,
            None => network.after_hops(start, network.declared_nodes()),
        };
        let right = if self.throw.one_of(Purpose::OddJoin, 8) {
            self.any_node(Purpose::OddRight)
        } else {
            network.node(left).right
        };
        Record::Join { node, left, right }
    }

    // The first message, the last, or any, and a few places where no message need be; where notices
    // are to lie, anything else behind the first.
    fn place(&self) -> u8 {
        let waiting = self.network.waiting();
        let some = self.throw.byte_below(Purpose::Place, waiting);
        if self.temper() == Temper::Hoarding {
            return (0..waiting)
                .zip(self.network.messages())
                .skip(usize::from(some) + 1)
                .find(|(_, message)| message.kind != Kind::SetL)
                .map_or(waiting, |(place, _)| place);
        }
        match self.throw.below(Purpose::PlaceKind, 16) {
            0 => waiting,
            1 => self.throw.below(Purpose::Place, 256) as u8,
            2 | 3 => 0,
            4 | 5 => waiting.wrapping_sub(1),
            _ => some,
        }
    }

    // The largest, any, below 64, 0, which is no limit, or small. Where notices are to lie 0 is
    // rare, since it empties the network.
    fn budget(&self) -> u16 {
        let some = self.throw.below(Purpose::Budget, 65_536) as u16;
        match self.throw.below(Purpose::BudgetKind, 12) {
            0 => u16::MAX,
            1 => some,
            2 => some % 64,
            3 if self.temper() != Temper::Hoarding => 0,
            _ => some % 5 + 1,
        }
    }

    fn record(&self) -> Record {
        match self.mark() {
            Mark::Bc => Record::Declare(Serial::packed(self.key_to_declare())),
            Mark::Bn => Record::Declare(Serial::binary(self.key_to_declare())),
            Mark::Cr => Record::Create {
                node: self.any_node(Purpose::Node),
            },
            Mark::Jn => self.join(),
            Mark::Lv => Record::Leave {
                node: self.any_node(Purpose::Node),
            },
            Mark::Dl => Record::Deliver {
                place: self.place(),
            },
            Mark::Oc => Record::Owner {
                start: self.any_node(Purpose::StartOfQuestion),
                serial: Serial::packed(self.serial()),
            },
            Mark::On => Record::Owner {
                start: self.any_node(Purpose::StartOfQuestion),
                serial: Serial::binary(self.serial()),
            },
            Mark::Rd => Record::Drain {
                budget: self.budget(),
            },
            Mark::Pk => Record::Peek,
        }
    }

    fn prospect(&self, step: Result<Step, Refusal>) -> Option<Came> {
        match step {
            Err(refusal) => Some(Came::Refused(refusal)),
            Ok(step) => match step.request() {
                Some(request) if !self.network.node(request.addressee).grants(request) => None,
                _ => Some(Came::Done(step.outcome)),
            },
        }
    }

    // What a record of declared nodes will be answered, as far as it matters here, or nothing where
    // it posts a request that would not be granted now.
    fn foreseen(&self, record: Record) -> Option<Came> {
        let network = self.network;
        match record {
            Record::Declare(_) => Some(Came::Declared),
            Record::Create { node } => self.prospect(network.creation(node)),
            Record::Join { node, left, right } => self.prospect(network.joining(node, left, right)),
            Record::Leave { node } => self.prospect(network.leaving(node)),
            Record::Deliver { place } => self.prospect(network.delivery(usize::from(place))),
            Record::Owner { start, .. } if network.is_inserted(start) => Some(Came::Owner),
            Record::Owner { .. } => Some(Came::Refused(Refusal::NotInserted)),
            Record::Drain { .. } | Record::Peek => Some(Came::Ran),
        }
    }

    // Where notices are to lie, none is delivered but for a few, nor is the first message, and
    // nothing is drained before the network is full.
    fn share(&self, record: Record) -> u32 {
        let foreseen = self.foreseen(record);
        if self.temper() != Temper::Hoarding {
            return welcome_share(foreseen);
        }
        match (foreseen, record) {
            (Some(Came::Done(Outcome::LeftSet | Outcome::LeftOld)), _) => 2,
            (_, Record::Drain { .. }) => if self.network.is_full() { 100 } else { 8 },
            (_, Record::Deliver { place: 0 }) => 1,
            _ => welcome_share(foreseen),
        }
    }

    fn welcome_record(&self) -> Option<Record> {
        let record = self.record();
        (self.throw.below(Purpose::Welcome, 100) < self.share(record)).then_some(record)
    }

    // A serial with a fault: a digit above 9 where it is packed; where it is binary too large, by
    // one or by more, up to all that four bytes hold.
    fn faulty_packed(&self) -> Serial {
        let digit = self.throw.below(Purpose::SerialFault, TOO_LARGE) % 8;
        let (Serial::Packed(bytes) | Serial::Binary(bytes)) = Serial::packed(self.serial());
        let faulty = u32::from_le_bytes(bytes) | 10 << (digit * 4);
        Serial::Packed(faulty.to_le_bytes())
    }

    fn faulty_binary(&self) -> Serial {
        let more = self.throw.below(Purpose::SerialFault, TOO_LARGE);
        Serial::binary(match self.throw.below(Purpose::SerialFaultKind, 4) {
            0 => 100_000_000,
            1 => u32::MAX,
            2 => 100_000_000 + more % 1_000,
            _ => 100_000_000 + more,
        })
    }

    fn faulty_join(&self, some: u8, maybe: u8, wrong: u8) -> Record {
        let (node, right) = if self.throw.one_of(Purpose::FaultyField, 2) {
            (some, wrong)
        } else {
            (wrong, some)
        };
        Record::Join {
            node,
            left: maybe,
            right,
        }
    }

    fn no_mark(&self, byte: u8) -> Piece {
        let [first, second] = self.throw.pick(Purpose::FaultyField, NO_MARKS);
        Piece::NoMark([first, second, byte])
    }

    // A record with a fault in its fields, where a question or a join may have two; or, in a few
    // cases, a mark that is none.
    fn faulty(&self) -> Piece {
        let throw = self.throw;
        let nodes = self.network.declared_nodes();
        let wrong = if throw.one_of(Purpose::FirstUndeclared, 2) {
            nodes
        } else {
            let limit = 256 - u32::from(nodes);
            nodes.saturating_add(throw.below(Purpose::Undeclared, limit) as u8)
        };
        let some = self.any_node(Purpose::Declared);
        let maybe = if throw.one_of(Purpose::SecondFault, 2) {
            wrong
        } else {
            some
        };
        Piece::Record(match throw.pick(Purpose::FaultyMark, MARKS) {
            Mark::Bc => Record::Declare(self.faulty_packed()),
            Mark::Bn => Record::Declare(self.faulty_binary()),
            Mark::Cr => Record::Create { node: maybe },
            Mark::Jn | Mark::Pk => self.faulty_join(some, maybe, wrong),
            Mark::Lv => Record::Leave { node: wrong },
            Mark::Dl => Record::Deliver { place: maybe },
            Mark::Oc => Record::Owner {
                start: maybe,
                serial: self.faulty_packed(),
            },
            Mark::On => Record::Owner {
                start: maybe,
                serial: self.faulty_binary(),
            },
            Mark::Rd if throw.one_of(Purpose::NoMark, 8) => return self.no_mark(wrong),
            Mark::Rd => Record::Create { node: wrong },
        })
    }

    // A record that is welcome, if one comes soon enough, and else a question.
    fn steered(&self) -> Record {
        iter::successors(Some(self.throw), |throw| Some(throw.again()))
            .take(DRAWS)
            .find_map(|throw| Draw { throw, ..*self }.welcome_record())
            .unwrap_or_else(|| Record::Owner {
                start: self.any_node(Purpose::StartOfLastQuestion),
                serial: Serial::binary(self.serial()),
            })
    }

    // The network is full and a request comes first: a drain may have to pass it over.
    fn is_tight(&self) -> bool {
        let first = self.network.messages().first();
        self.network.is_full() && first.is_some_and(|message| message.kind == Kind::SetR)
    }

    /// What comes next in a script, for the network as it is.
    pub(crate) fn piece(&self) -> Piece {
        let throw = self.throw;
        if self.is_early() && throw.one_of(Purpose::EarlyDeclaration, 3) {
            return Piece::Record(Record::Declare(Serial::packed(self.serial())));
        }
        if self.is_tight() {
            let budget = throw.below(Purpose::TightBudget, 4) as u16;
            return Piece::Record(Record::Drain { budget });
        }
        if throw.one_of(Purpose::Fault, 32) {
            self.faulty()
        } else {
            Piece::Record(self.steered())
        }
    }
}
