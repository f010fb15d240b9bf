//! What is told of a call, a question or a drain, and the tally that a drain keeps of its
//! deliveries.
#![tactic(auto)]

ghost use Rattle.std.specs.Prelude.{◌≡◌, ◌+◌, ◌%◌, ◌^◌};
ghost use Rattle.refusal.specs.Code.{reason};
ghost use Rattle.refusal.specs.Rules.{done, no};
ghost use Rattle.protocol.specs.declared.Reply.TheVariants.{Ran};
ghost use Rattle.protocol.specs.Answer.{answered};
ghost use Rattle.report.specs.Going.{goes_on};

use protocol::{Answer, Reply};
use refusal::Refusal;

/// The answer, and how many messages were posted.
#[derive(Clone, Copy, Debug, PartialEq, Eq)]
pub struct Report {
    pub answer: Answer,
    pub posted: u32,
}

impl Report {
    /// What is only told: nothing is posted.
    pub fn told(answer: Answer) -> Report
        ensures { (answered result.answer ≡ answered answer) × (result.posted ≡ 0) }
    {
        Report { answer, posted: 0 }
    }

    pub fn refused(refusal: Refusal) -> Report
        ensures { (answered result.answer ≡ no (reason refusal)) × (result.posted ≡ 0) }
    {
        Report::told(Err(refusal))
    }
}

/// What a drain has done so far: the deliveries made, and the messages that they posted.
#[derive(Clone, Copy, Debug, Default, PartialEq, Eq)]
pub struct Tally {
    pub made: u16,
    pub posted: u32,
}

impl Tally {
    /// Whether a drain goes on (R8.1), with so many messages waiting. A budget of 0 is no limit.
    pub fn goes_on(self, budget: u16, waiting: u8) -> bool
        ensures { result ≡ goes_on budget self.made waiting }
    {
        ((budget == 0) | (self.made < budget)) & (0 < waiting)
    }

    /// One delivery more. Counts wrap, so that nothing is asked of the caller; those of a drain
    /// stay far below.
    pub fn tallied(self, report: Report) -> Tally
        ensures { (result.made ≡ (self.made + 1) % 2 ^ 16) × (result.posted ≡ (self.posted + report.posted) % 2 ^ 32) }
    {
        Tally {
            made: self.made.wrapping_add(1),
            posted: self.posted.wrapping_add(report.posted),
        }
    }

    pub fn ran(self, left: u8) -> Report
        ensures { (answered result.answer ≡ done (Ran self.made left)) × (result.posted ≡ self.posted) }
    {
        Report {
            answer: Ok(Reply::Ran {
                made: self.made,
                left,
            }),
            posted: self.posted,
        }
    }
}
