//! A script from its bytes to its printout: the records one after the other from the empty network,
//! which is kept in a local and changed where it lies, a line for each. `step` has a reference to
//! what is kept, and `run` makes it. The printout grows on a page that no script fills: forty bytes
//! are room enough for the lines of three bytes of a script.
ghost use Rattle.std.specs.Prelude.{◌+◌, ◌≤◌, ◌<◌, length, true, ◌≡◌};
ghost use Rattle.network.specs.Arrays.{empty, well_formed};
ghost use Rattle.printout.specs.Lines.{heading};
ghost use Rattle.printout.specs.Writing.{LongerByALine};
ghost use Rattle.engine.specs.Reached.{reached, text_size};
ghost use Rattle.course.specs.Run.{step_of, after, closed, size_limit, printout_of};

use crate::in_place;
use network::Network;
use progress::Progress;
use text::Page;

/// R9.1: how long a script may be.
pub const SIZE_LIMIT: usize = 65_536;

/// How many bytes the text of a printout has room for, forty for three bytes of a script: PK has
/// two bytes, and its line twenty at most; any other record has three or more, and its line forty
/// at most.
pub const TEXT_SIZE: usize = 874_000;

// What a run keeps from record to record: what the program will keep beside the network belongs
// here.
#[derive(Clone, Copy)]
struct Kept {
    network: Network,
}

fn nothing_kept() -> Kept
    ensures { result.network ≡ empty }
{
    Kept {
        network: Network::empty(),
    }
}

// One more record, where one begins: what it asks is done on the network where it lies, and its
// line is printed. That the network is well formed is asked as in `in_place`; the other bounds hold
// in the loop of `run` alone. No struct of its arguments: the script is the caller's, the text the
// answer, and the progress a value that the loop hands on.
fn step(kept: &mut Kept, script: &[u8], text: &mut Page<TEXT_SIZE>, p: Progress) -> Progress
    requires { (well_formed kept.old.network ≡ true) × (p.at < length script.now) × (length text.old + 40 ≤ text_size) × (p.ordinal < 100_000) × (p.posted < 100_000_000) }
    ensures { (reached kept.new.network result text.new ≡ step_of script.now (reached kept.old.network p text.old))
        × (well_formed kept.new.network ≡ true) × (LongerByALine text.old text.new) }
{
    in_place::sizes(&kept.network);
    let at = p.at;
    let asked = task::ask(script, at);
    let task = asked.task;
    let report = in_place::execute(&mut kept.network, task);
    let after = asked.after;
    progress::leave_record(text, p, after, report)
}

// The records of a script one after the other on one network, after the heading, and the last line.
fn run(script: &[u8], text: &mut Page<TEXT_SIZE>)
    requires { (text.old ≡ heading) × (length script.now ≤ size_limit) }
    ensures { text.new ≡ closed (after script.now (length script.now)) }
{
    let mut kept = nothing_kept();
    let mut p = Progress::default();
    while p.at < script.len() {
        p = step(&mut kept, script, text, p);
    }
    in_place::sizes(&kept.network);
    printout::last_line(text, kept.network.waiting, p.posted);
}

/// The printout of a whole script, in place of what the text had. No printout is longer than the
/// text may be.
pub fn printout(script: &[u8], text: &mut Page<TEXT_SIZE>)
    ensures { text.new ≡ printout_of script.now }
{
    text.clear();
    text.append(b"ring 1\n");
    if SIZE_LIMIT < script.len() {
        progress::refuse_script(text);
    } else {
        run(script, text);
    }
}
