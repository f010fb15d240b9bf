//! The parts of scripts that are long because they repeat: all 32 nodes are declared, many of them
//! join, and some leave again, while most of the messages that this posts go on waiting. Each
//! function puts records behind those that a script has.
ghost use Rattle.std.specs.Prelude.{◌≤◌};

use crate::{Run, line_end};
use std::io;
use text::Page;

pub(crate) type Script = Page<4096>;

/// Node i has the key 32 - i. The keys fall, so that each node may join between node 0 and the node
/// before it.
pub(crate) fn declare_all(script: &mut Script) {
    for node in 0..32 {
        script.append(&[b'B', b'N', 32 - node, 0, 0, 0]);
    }
}

/// Node 0 is created, and nodes 1 to `last` ask it to join. Delivered in this order each is
/// granted, since it names as right neighbour the node that came in before it.
pub(crate) fn ask_all(script: &mut Script, last: u8) {
    script.append(b"CR\x00");
    for before in 0..last {
        script.append(&[b'J', b'N', before + 1, 0, before]);
    }
}

/// From node `last` downwards so many nodes leave again: each hears its answer and asks node 0 to
/// leave, and this request, the last message, is delivered and granted. Each of them adds one to
/// the messages that wait. Before the notices and answers of the joiners stand so many messages.
pub(crate) fn leave_again(script: &mut Script, last: u8, leavers: u8, before: u8)
    requires { (leavers ≤ last) × (last ≤ 31) × (before ≤ 2) }
{
    for gone in 0..leavers {
        let node = last - gone;
        script.append(&[b'D', b'L', before + 2 * node - 1]);
        script.append(&[b'L', b'V', node]);
        script.append(&[b'D', b'L', before + 2 * last + gone - 1]);
    }
}

/// Shows a script that begins with the records put so far, and goes on with those behind a title.
pub(crate) fn show_on<R: Print>(
    run: &mut Run<R>,
    script: &mut Script,
    text: &[u8],
) -> io::Result<()> {
    let (title, records) = text.split_at(line_end(text));
    script.append(records);
    run.show(title, script.as_bytes())
}

/// Shows a script that begins with joins and leaves. RD delivers just the requests to join. Then
/// two messages wait for each joiner: of node i the left notice to its right at place 2 * i - 2,
/// and the answer at 2 * i - 1. After the leaves one more waits for each leaver.
pub(crate) fn scene_after<R: Print>(
    run: &mut Run<R>,
    joiners: u8,
    leavers: u8,
    text: &[u8],
) -> io::Result<()>
    requires { (leavers ≤ joiners) × (joiners ≤ 31) }
{
    let mut script = Script::new();
    declare_all(&mut script);
    ask_all(&mut script, joiners);
    script.append(&[b'R', b'D', joiners, 0]);
    leave_again(&mut script, joiners, leavers, 0);
    show_on(run, &mut script, text)
}
