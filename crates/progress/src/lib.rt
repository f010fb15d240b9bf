//! How far the run of a script has come, beside its network, and how it leaves a record: the line
//! is printed, and the cursor is past it. Counts wrap, and where forty bytes find no room no line
//! is printed, so that nothing is asked of the caller; a run comes to neither.
#![tactic(auto)]

ghost use Rattle.std.specs.Prelude.{◌≡◌, ◌+◌, ◌≤◌, length};
ghost use Rattle.printout.specs.Writing.{printed, LongerByALine};
ghost use Rattle.progress.specs.Leaving.{left, line_after, refused};

use refusal::Refusal;
use report::Report;
use text::Page;

/// The cursor, the ordinal of the last record, and all messages posted.
#[derive(Clone, Copy, Default)]
pub struct Progress {
    pub at: usize,
    pub ordinal: u32,
    pub posted: u32,
}

/// R9.9: a record is left with its line printed and the cursor past it; at once where it is
/// refused, since it then has posted nothing.
pub fn leave_record<const N: usize>(
    text: &mut Page<N>,
    p: Progress,
    after: usize,
    report: Report,
) -> Progress
    ensures progress { result ≡ left p after report }
    ensures text_after { text.new ≡ printed N text.old (line_after p report) }
    ensures short { LongerByALine text.old text.new }
{
    let ordinal = p.ordinal.wrapping_add(1);
    let answer = report.answer;
    let Ok(reply) = answer else {
        printout::refusal_line(text, ordinal, answer.unwrap_err());
        return Progress {
            at: after,
            ordinal,
            posted: p.posted,
        };
    };
    printout::reply_line(text, ordinal, reply);
    Progress {
        at: after,
        ordinal,
        posted: p.posted.wrapping_add(report.posted),
    }
}

/// R9.1: a script that is too long is refused as a whole, by its one line, and the last.
pub fn refuse_script<const N: usize>(text: &mut Page<N>)
    ensures text_after { text.new ≡ refused N text.old }
    ensures short { length text.new ≤ length text.old + 80 }
{
    printout::refusal_line(text, 0, Refusal::ScriptTooLong);
    printout::last_line(text, 0, 0);
}
