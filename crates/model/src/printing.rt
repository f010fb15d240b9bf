//! The model's printout of any script, and where another printout differs from it.
use crate::answer::Refusal;
use crate::reading::Player;
use std::{fmt, iter};

pub const LONGEST: usize = 65_536;

// The lines of the records, numbered from 1. What is fed last is the end.
fn print_lines<W: fmt::Write>(player: &mut Player, script: &[u8], out: &mut W) -> fmt::Result {
    let fed = script.iter().map(Some).chain(iter::once(None));
    let lines = fed.filter_map(|byte| match byte {
        Some(byte) => player.feed(*byte),
        None => player.end(),
    });
    for (ordinal, line) in (1usize..).zip(lines) {
        writeln!(out, "{ordinal} {line}")?;
    }
    Ok(())
}

/// The printout of a script, from an empty network.
pub fn print<W: fmt::Write>(script: &[u8], out: &mut W) -> fmt::Result {
    let mut player = Player::new();
    writeln!(out, "ring 1")?;
    if script.len() > LONGEST {
        let refusal = Refusal::ScriptTooLong;
        writeln!(out, "0 {refusal}")?;
    } else {
        print_lines(&mut player, script, out)?;
    }
    let network = player.network();
    let waiting = network.waiting();
    let posted = network.posted();
    writeln!(out, "end {waiting} posted {posted}")
}

// A printout that another is held against as it is written: it takes what is the same, and fails
// where the two differ.
#[derive(Drop)]
struct Printout<'a> {
    rest: &'a [u8],
    same: usize,
}

impl fmt::Write for Printout<'_> {
    fn write_str(&mut self, text: &str) -> fmt::Result {
        let written = text.as_bytes();
        match self.rest.strip_prefix(written) {
            Some(rest) => {
                self.rest = rest;
                self.same = self.same.saturating_add(written.len());
                Ok(())
            }
            None => {
                let agreeing = self
                    .rest
                    .iter()
                    .zip(written)
                    .take_while(|(a, b)| a == b)
                    .count();
                self.same = self.same.saturating_add(agreeing);
                Err(fmt::Error)
            }
        }
    }
}

/// Where another printout of a script differs first from the model's, counted from 1.
pub fn first_difference(script: &[u8], other: &[u8]) -> Option<usize> {
    let mut printout = Printout {
        rest: other,
        same: 0,
    };
    let written = print(script, &mut printout);
    if written.is_ok() && printout.rest.is_empty() {
        None
    } else {
        Some(printout.same.saturating_add(1))
    }
}
