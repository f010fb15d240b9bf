//! A script by chance, which the model plays as it grows.
use crate::chance::{Purpose, Throw};
use crate::ledger::{Came, Difference, Label, Ledger};
use crate::steering::Draw;
use arrayvec::ArrayVec;
use model::answer::Refusal;
use model::printing::{LONGEST, first_difference};
use model::reading::Player;
use model::script::Record;
use std::iter;
use text::Page;

// More than a script has, since each has two bytes or more.
const MOST_RECORDS: usize = 33_000;

// The number of the script that has as many records as there can be.
const MOST_LINES: u32 = 6;

// How long a script is at most: the first few are at the limits, and the others short, or longer,
// or a few of them long.
fn most_bytes(ordinal: u32, mood: Throw) -> usize {
    let some = mood.below(Purpose::Length, 30_000) as usize;
    match ordinal {
        1 => 0,
        2 | 3 => LONGEST,
        4 => LONGEST + 1,
        5 => 100_000,
        _ => if mood.is_multiple_of(16) {
            some
        } else {
            some % 6_000
        },
    }
}

// Where a script ends that has no room for another record: in half of the scripts within that
// record.
fn cut(length: usize, most: usize, mood: Throw) -> usize {
    let is_close = most.saturating_sub(length) < 7;
    if is_close && mood.is_multiple_of(2) {
        most
    } else {
        length
    }
}

/// The script that is made, the model that plays it, and what came of all scripts so far.
#[derive(Drop)]
pub(crate) struct Match {
    script: ArrayVec<u8, 100_000>,
    player: Player,
    ledger: Ledger,
}

impl Match {
    pub(crate) fn new() -> Self {
        Match {
            script: ArrayVec::new(),
            player: Player::new(),
            ledger: Ledger::default(),
        }
    }

    pub(crate) fn ledger(&self) -> &Ledger {
        &self.ledger
    }

    // Plays the script from a place on.
    fn play_from(&mut self, place: usize) {
        for byte in self.script.iter().skip(place) {
            if let Some(line) = self.player.feed(*byte) {
                self.ledger.enter_line(line, self.player.network());
            }
        }
    }

    // Makes a script of at most so many bytes.
    fn grow(&mut self, most: usize, mood: Throw) {
        let throws = iter::successors(Some(mood), |throw| Some(throw.following()));
        for throw in throws.skip(1).take(MOST_RECORDS) {
            let length = self.script.len();
            let piece = Draw {
                network: self.player.network(),
                mood,
                throw,
            }
            .piece();
            let has_room = piece.append_to(&mut self.script).is_ok() && self.script.len() <= most;
            if !has_room {
                self.script.truncate(cut(length, most, mood));
            }
            self.play_from(length);
            if !has_room {
                return;
            }
        }
    }

    // Makes a script of PK alone, which has two bytes: none has more records, nor more lines.
    fn fill_with_peeks(&mut self) {
        for _ in 0..LONGEST / 2 {
            let _ = Record::Peek.append_to(&mut self.script);
        }
        self.play_from(0);
    }

    // Makes the script of a number, and enters what comes of its records.
    fn make(&mut self, ordinal: u32) {
        self.script.clear();
        self.player = Player::new();
        if ordinal == MOST_LINES {
            self.fill_with_peeks();
            return;
        }
        let mood = Throw::of_script(ordinal);
        let most = most_bytes(ordinal, mood);
        if most > LONGEST {
            let _ = self.script.extend(iter::repeat_n(0, most));
            self.ledger
                .count(Label::Unmarked, Came::Refused(Refusal::ScriptTooLong));
            return;
        }
        self.grow(most, mood);
        if let Some(line) = self.player.end() {
            self.ledger.enter_line(line, self.player.network());
        }
    }

    /// Makes the script of a number, and runs it through both.
    pub(crate) fn turn(&mut self, ordinal: u32) {
        self.make(ordinal);
        let script = self.script.as_slice();
        let mut printout = Page::new();
        engine::printout(script, &mut printout);
        let theirs = printout.as_bytes();
        let difference = first_difference(script, theirs).map(|byte| Difference {
            script: ordinal,
            byte,
        });
        self.ledger
            .enter_script(theirs.len(), self.player.network(), difference);
    }
}
