//! Scripts for the cases without a mark in paper 01, for the refusals and for the outcomes, run one
//! after the other: for each a title and its printout, in which a line says what the title names.
//! Above each stand the numbers of the rules in docs/RULES.md that it shows. Each script runs
//! through the second implementation too; where the two printouts differ a line says so, and the
//! last line says how many did. The gate compares all of it with the file `stdout`.
//!
//! The refusals 6, 27 and 31 have no script, and stand in `doors`. Every network that a script
//! makes is well formed (6), and from every inserted node of it an owner is found (31). The highest
//! right number rises by one at most with each join or leave, and no script has room for 65,535 of
//! them (27).
#![tactic(auto)]

ghost use Rattle.std.specs.Prelude.{◌≤◌, length};

mod actions;
mod crowd;
mod drains;
mod fitter;
mod input;
mod sheets;
mod state;

use model::printing::first_difference;
use std::io;
use text::Page;

/// Where the run prints, how many scripts were run, and at how many the second implementation
/// differed.
#[derive(Drop)]
pub(crate) struct Run<'a, R: Print> {
    rt: &'a R,
    scripts: usize,
    different: usize,
}

impl<R: Print> Run<'_, R> {
    /// Runs a script through both implementations, writes its title and the printout of the first,
    /// and says where the two printouts differ, if they do.
    pub(crate) fn show(&mut self, title: &[u8], script: &[u8]) -> io::Result<()> {
        let mut page = Page::new();
        engine::printout(script, &mut page);
        let printout = page.as_bytes();
        self.rt.write_all(b"== ")?;
        self.rt.write_all(title)?;
        self.rt.write_all(printout)?;
        self.scripts = self.scripts.saturating_add(1);
        if let Some(place) = first_difference(script, printout) {
            self.different = self.different.saturating_add(1);
            println!(self.rt; "== the second implementation differs at byte {place}")?;
        }
        Ok(())
    }

    /// Shows a script that stands behind its title, from the next line on.
    pub(crate) fn scene(&mut self, text: &[u8]) -> io::Result<()> {
        let (title, script) = text.split_at(line_end(text));
        self.show(title, script)
    }

    fn scenes(&mut self, texts: &[&[u8]]) -> io::Result<()> {
        for text in texts {
            self.scene(text)?;
        }
        Ok(())
    }
}

/// The place after the first line end, or after the text.
pub(crate) fn line_end(text: &[u8]) -> usize
    ensures { result ≤ length text.now }
{
    text.iter()
        .position(|byte| *byte == b'\n')
        .map_or(text.len(), |at| at + 1)
}

fn main(rt: HostRuntime) -> io::Result<()> {
    let mut run = Run {
        rt: &rt,
        scripts: 0,
        different: 0,
    };
    fitter::cases(&mut run)?;
    run.scenes(&input::MARKS)?;
    run.scenes(&input::FIELDS)?;
    input::sizes(&mut run)?;
    run.scenes(&state::ORDERS)?;
    state::full_queues(&mut run)?;
    run.scenes(&state::DELIVERIES_AND_QUESTIONS)?;
    run.scenes(&actions::NOTICES)?;
    run.scenes(&actions::OUT)?;
    run.scenes(&actions::DENIALS)?;
    drains::cases(&mut run)?;
    run.scenes(&sheets::ALL)?;
    println!(rt;
        "== {} scripts, {} differ from the second implementation",
        run.scripts, run.different
    )
}
