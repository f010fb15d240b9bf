//! The ring program (R9.9): a script on standard input, its printout on standard output. A script
//! that cannot be read, and a printout that cannot be written, is told on standard error, and the
//! exit status is 1. Where the reader of the printout stops before its end nothing is told.
#![tactic(auto)]

ghost use Rattle.io.specs.Counts.{IsPrefixLen};
ghost use Rattle.std.specs.Result.{IfOk};

use std::io::{self, ErrorKind, Read};
use std::process::ExitCode;
use text::Page;

// How many bytes are read: one more than a script may have, so that a longer one shows.
const MOST: usize = engine::SIZE_LIMIT + 1;

// The status where the pipe behind standard output is broken: what a shell tells of a program that
// the signal SIGPIPE ends, 128 and its number.
const BROKEN_PIPE: u8 = 141;

// Reads until the input ends or the buffer is full, and answers how many bytes. No `io::copy`: each
// read has room for all that is left, since of a message of a socket what finds none is lost. A
// read that a signal interrupts is made again. Nothing says how often, so the turns are counted, up
// to a number that no run uses up.
fn read_script(reader: &mut impl Read, script: &mut [u8]) -> io::Result<usize>
    ensures { IfOk result (λ size. IsPrefixLen size script.new) }
{
    let mut size = 0;
    for _ in 0..u64::MAX {
        match reader.read(&mut script[size..]) {
            Ok(0) => return Ok(size),
            Ok(got) => size += got,
            Err(error) if error.kind() == ErrorKind::Interrupted => {}
            Err(error) => return Err(error),
        }
    }
    Err(io::Error::from(ErrorKind::Interrupted))
}

fn fail(rt: &impl Eprint, what: &str) -> ExitCode {
    let _ = eprintln!(rt; "ring: {what}");
    ExitCode::FAILURE
}

fn write_printout(rt: &(impl Print + Eprint), text: &[u8]) -> ExitCode {
    match rt.write_all(text) {
        Ok(()) => ExitCode::SUCCESS,
        Err(error) if error.kind() == ErrorKind::BrokenPipe => ExitCode::from(BROKEN_PIPE),
        Err(_) => fail(rt, "the printout cannot be written"),
    }
}

fn main(rt: HostRuntime) -> ExitCode {
    let mut script = [0; MOST];
    // Before the reading: its memory would else be cleared twice.
    let mut text = Page::new();
    let Ok(size) = read_script(&mut rt.stdin(), &mut script) else {
        return fail(&rt, "the script cannot be read");
    };
    engine::printout(&script[..size], &mut text);
    write_printout(&rt, text.as_bytes())
}
