//! The lines of the printout (R9.7, R9.8), each appended to the text. Where forty bytes find no
//! room nothing is written: no line has more, whatever its numbers, so nothing is asked of the
//! caller.
#![tactic(auto)]

ghost use Rattle.std.specs.Prelude.{◌≡◌, ◌+◌, ◌≤◌, ◌++◌, length};
ghost use Rattle.refusal.specs.Code.{reason};
ghost use Rattle.refusal.specs.Rules.{done, no};
ghost use Rattle.printout.specs.Lines.{pair, reply_words, line_of, last_line};
ghost use Rattle.printout.specs.Writing.{printed, LongerByALine};

use protocol::Reply;
use refusal::Refusal;
use text::Page;

// No line has more bytes.
const LINE: usize = 40;

// Two words, and a number after each.
fn put_pair<const N: usize>(text: &mut Page<N>, word: &[u8], n: u16, second: &[u8], m: u32)
    requires { length text.old + (length word.now + length second.now + 15) ≤ N }
    ensures text_after { text.new ≡ text.old ++ pair word.now n second.now m }
    ensures short { length (pair word.now n second.now m) ≤ length word.now + length second.now + 15 }
{
    text.append(word);
    text.append_decimal(u32::from(n));
    text.append(second);
    text.append_decimal(m);
}

// What is said between the space and the line end.
fn put_reply<const N: usize>(text: &mut Page<N>, reply: Reply)
    requires { length text.old + 28 ≤ N }
    ensures text_after { text.new ≡ text.old ++ reply_words reply }
    ensures short { length (reply_words reply) ≤ 28 }
{
    match reply {
        Reply::Declared { number, key } => {
            put_pair(text, b"bench ", u16::from(number), b" key ", key);
        }
        Reply::Stepped(outcome) => text.append(words::word(outcome)),
        Reply::Owner { node, hops } => {
            put_pair(text, b"owner ", u16::from(node), b" hops ", u32::from(hops));
        }
        Reply::Ran { made, left } => put_pair(text, b"ran ", made, b" left ", u32::from(left)),
        Reply::Inserted { .. } => {}
    }
}

/// The line of a record that is done.
pub fn reply_line<const N: usize>(text: &mut Page<N>, ordinal: u32, reply: Reply)
    ensures text_after { text.new ≡ printed N text.old (line_of ordinal (done reply)) }
    ensures short { LongerByALine text.old text.new }
{
    if text.has_room(LINE) {
        text.append_decimal(ordinal);
        text.append(b" ");
        put_reply(text, reply);
        text.append(b"\n");
    }
}

/// The line of a record that is refused. Not one function with the last: a refusal is told where a
/// `let .. else` has taken its answer apart (R11.6).
pub fn refusal_line<const N: usize>(text: &mut Page<N>, ordinal: u32, refusal: Refusal)
    ensures text_after { text.new ≡ printed N text.old (line_of ordinal (no (reason refusal))) }
    ensures short { LongerByALine text.old text.new }
{
    if text.has_room(LINE) {
        text.append_decimal(ordinal);
        text.append(b" no ");
        text.append_decimal(u32::from(refusal.number()));
        text.append(b"\n");
    }
}

/// The last line, from the messages that wait and all that were ever posted.
pub fn last_line<const N: usize>(text: &mut Page<N>, waiting: u8, posted: u32)
    ensures text_after { text.new ≡ printed N text.old (last_line waiting posted) }
    ensures short { LongerByALine text.old text.new }
{
    if text.has_room(LINE) {
        put_pair(text, b"end ", u16::from(waiting), b" posted ", posted);
        text.append(b"\n");
    }
}
