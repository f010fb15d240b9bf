//! What came of all scripts: how often each mark had each answer; after how many records the model
//! found its accounts out of balance, a node with another exchange than its status asks for, or a
//! key with another owner than the calls tell; how many drains with no limit left a message
//! waiting; and whether any script differed.
use arrayvec::ArrayVec;
use model::answer::{Answer, Outcome, Refusal};
use model::network::Network;
use model::reading::Line;
use model::rules::Status;
use model::script::{Mark, Record};
use std::fmt;

/// What stands for a record: its mark, if it has one. No `Option`: what has no mark comes last, and
/// `None` would be first.
#[derive(Clone, Copy, Default, Eq, Ord, PartialEq, PartialOrd)]
pub(crate) enum Label {
    Marked(Mark),
    #[default]
    Unmarked,
}

impl From<Option<Mark>> for Label {
    fn from(mark: Option<Mark>) -> Self {
        mark.map_or(Label::Unmarked, Label::Marked)
    }
}

impl fmt::Display for Label {
    fn fmt<W: fmt::Write>(&self, f: &mut fmt::Formatter<W>) -> fmt::Result {
        match self {
            Label::Marked(mark) => write!(f, "{mark}"),
            Label::Unmarked => f.write_str("--"),
        }
    }
}

/// The answer under which a record is counted. An owner that is found by a hop or more is counted
/// apart. No `Result`: refusals come first in the lines, and an `Err` would come last. A default is
// what fills the places of an `ArrayVec` that are not used.
#[derive(Clone, Copy, Default, Eq, Ord, PartialEq, PartialOrd)]
pub(crate) enum Came {
    Refused(Refusal),
    Declared,
    Owner,
    #[default]
    Ran,
    Done(Outcome),
    Hopped,
}

impl From<Result<Answer, Refusal>> for Came {
    fn from(reply: Result<Answer, Refusal>) -> Self {
        match reply {
            Err(refusal) => Came::Refused(refusal),
            Ok(Answer::Declared { .. }) => Came::Declared,
            Ok(Answer::Owner { hops: 0, .. }) => Came::Owner,
            Ok(Answer::Owner { .. }) => Came::Hopped,
            Ok(Answer::Ran { .. }) => Came::Ran,
            Ok(Answer::Done(outcome)) => Came::Done(outcome),
        }
    }
}

impl fmt::Display for Came {
    fn fmt<W: fmt::Write>(&self, f: &mut fmt::Formatter<W>) -> fmt::Result {
        match self {
            Came::Refused(refusal) => write!(f, "{refusal}"),
            Came::Declared => f.write_str("bench"),
            Came::Owner => f.write_str("owner"),
            Came::Ran => f.write_str("ran"),
            Came::Done(outcome) => write!(f, "{outcome}"),
            Came::Hopped => f.write_str("hopped"),
        }
    }
}

#[derive(Clone, Copy, Default)]
struct Tally {
    label: Label,
    came: Came,
    times: usize,
}

// A join told 25 whose key was not between either; a refusal changes nothing, so that the network
// still shows it.
fn has_both_faults(line: Line, network: &Network) -> bool {
    let is_told_to_wait = matches!(line.reply, Err(Refusal::NoticeWaits));
    match line.record {
        Some(Record::Join { node, left, right }) => {
            is_told_to_wait && !network.lies_between(node, left, right)
        }
        _ => false,
    }
}

// A delivery by which a node that is out denied a request: its answer is the last message.
fn is_denied_by_out(line: Line, network: &Network) -> bool {
    let is_denied = matches!(line.reply, Ok(Answer::Done(Outcome::Denied)));
    match network.messages().last() {
        Some(answer) => is_denied && network.node(answer.sender).status == Status::Out,
        None => false,
    }
}

// A drain with no limit, where messages waited.
fn is_unlimited(line: Line) -> bool {
    let is_idle = matches!(line.reply, Ok(Answer::Ran { deliveries: 0, .. }));
    matches!(line.record, Some(Record::Drain { budget: 0 })) && !is_idle
}

/// Where a script differs first, counted from 1.
#[derive(Clone, Copy)]
pub(crate) struct Difference {
    pub(crate) script: u32,
    pub(crate) byte: usize,
}

/// The tallies stand in the order of their labels, and of answers below each: a map wants the heap.
/// There is room for every answer below every label.
#[derive(Default, Drop)]
pub(crate) struct Ledger {
    tallies: ArrayVec<Tally, 385>,
    with_full_queue: usize,
    records: usize,
    scripts: usize,
    printed: usize,
    passed_over: usize,
    with_both_faults: usize,
    denied_by_out: usize,
    unlimited: usize,
    unfinished: usize,
    unbalanced: usize,
    mismatched: usize,
    passed_keys: usize,
    owned_otherwise: usize,
    differing: usize,
    first_difference: Option<Difference>,
}

impl Ledger {
    pub(crate) fn count(&mut self, label: Label, came: Came) {
        let place = self
            .tallies
            .binary_search_by_key(&(label, came), |tally| (tally.label, tally.came));
        match place {
            Ok(at) => {
                if let Some(tally) = self.tallies.get_mut(at) {
                    tally.times = tally.times.saturating_add(1);
                }
            }
            Err(at) => {
                let _ = self.tallies.try_insert(
                    at,
                    Tally {
                        label,
                        came,
                        times: 1,
                    },
                );
            }
        }
    }

    /// Enters what came of a record, and the network that it left.
    pub(crate) fn enter_line(&mut self, line: Line, network: &Network) {
        self.count(line.mark.into(), line.reply.into());
        self.records = self.records.saturating_add(1);
        if network.is_full() {
            self.with_full_queue = self.with_full_queue.saturating_add(1);
        }
        if has_both_faults(line, network) {
            self.with_both_faults = self.with_both_faults.saturating_add(1);
        }
        if is_denied_by_out(line, network) {
            self.denied_by_out = self.denied_by_out.saturating_add(1);
        }
        if is_unlimited(line) {
            self.unlimited = self.unlimited.saturating_add(1);
            if network.waiting() > 0 {
                self.unfinished = self.unfinished.saturating_add(1);
            }
        }
        if !network.accounts_balance() {
            self.unbalanced = self.unbalanced.saturating_add(1);
        }
        if !network.has_exchanges_by_status() {
            self.mismatched = self.mismatched.saturating_add(1);
        }
        if !network.owners_are_as_told() {
            self.owned_otherwise = self.owned_otherwise.saturating_add(1);
        }
    }

    /// Enters a script that both have printed.
    pub(crate) fn enter_script(
        &mut self,
        printed: usize,
        network: &Network,
        difference: Option<Difference>,
    ) {
        self.scripts = self.scripts.saturating_add(1);
        self.printed = self.printed.saturating_add(printed);
        self.passed_over = self.passed_over.saturating_add(network.passed_over());
        self.passed_keys = self.passed_keys.saturating_add(network.passed_keys());
        if difference.is_some() {
            self.differing = self.differing.saturating_add(1);
            self.first_difference = self.first_difference.or(difference);
        }
    }
}

impl fmt::Display for Ledger {
    fn fmt<W: fmt::Write>(&self, f: &mut fmt::Formatter<W>) -> fmt::Result {
        for Tally { label, came, times } in &self.tallies {
            writeln!(f, "{label} {came}: {times}")?;
        }
        let Ledger {
            with_full_queue,
            records,
            scripts,
            printed,
            passed_over,
            with_both_faults,
            denied_by_out,
            unlimited,
            unfinished,
            unbalanced,
            mismatched,
            passed_keys,
            owned_otherwise,
            differing,
            ..
        } = self;
        writeln!(f, "{with_full_queue} records with 64 messages waiting")?;
        writeln!(f, "{scripts} scripts")?;
        writeln!(f, "{records} records")?;
        writeln!(f, "{printed} bytes of printout")?;
        writeln!(f, "{passed_over} places passed over in drains")?;
        writeln!(f, "{with_both_faults} joins told 25 that met 24 too")?;
        writeln!(f, "{denied_by_out} requests denied by a node that is out")?;
        writeln!(f, "{unlimited} drains with no limit where messages waited")?;
        writeln!(f, "{unfinished} of them left a message waiting")?;
        writeln!(
            f,
            "{unbalanced} records after which the accounts do not balance"
        )?;
        writeln!(
            f,
            "{mismatched} records after which exchanges and statuses differ"
        )?;
        writeln!(f, "{passed_keys} keys passed on by grants")?;
        writeln!(
            f,
            "{owned_otherwise} records after which a key has another owner than told"
        )?;
        writeln!(f, "{differing} scripts differed")?;
        if let Some(Difference { script, byte }) = self.first_difference {
            writeln!(f, "the first is {script} at byte {byte}")?;
        }
        Ok(())
    }
}
