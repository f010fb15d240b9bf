//! A record of a script as a task: what a network is asked, or the refusal that is only told, as of
//! what cannot be read. A declaration whose serial is refused is that refusal; an owner's serial
//! stays as it was read, since what is refused of the start comes first.
#![tactic(auto)]

ghost use Rattle.std.specs.Prelude.{◌≡◌, length};
ghost use Rattle.script.specs.Script.{read_at};
ghost use Rattle.task.specs.Tasks.{task_of, Asks};

use protocol::{Call, Order};
use refusal::Refusal;
use script::Record;
use serial::SerialError;

/// What a network is asked: a call, the owner of a serial, a drain, how many messages wait.
#[derive(Clone, Copy, Debug, PartialEq, Eq)]
pub enum Task {
    Call(Call),
    Owner {
        start: u8,
        serial: Result<u32, SerialError>,
    },
    Drain(u16),
    Peek,
}

/// What is read at a cursor: the task, or the refusal to be told; and the cursor after it.
#[derive(Clone, Copy, Debug, PartialEq, Eq)]
pub struct Asked {
    pub task: Result<Task, Refusal>,
    pub after: usize,
}

impl TryFrom<Record> for Task {
    type Error = Refusal;

    ghost try_from_gives = { λ asked task. task ≡ task_of asked };

    fn try_from(asked: Record) -> Result<Self, Refusal> {
        match asked {
            Record::Call(call) => Ok(Task::Call(call)),
            Record::Declare(serial) => Ok(Task::Call(Call::Order(Order::Declare(serial?)))),
            Record::Owner { start, serial } => Ok(Task::Owner { start, serial }),
            Record::Drain(budget) => Ok(Task::Drain(budget)),
            Record::Peek => Ok(Task::Peek),
        }
    }
}

/// What is asked at a cursor of a script; at the end, where nobody asks, it is as if a record were
/// cut short.
#[inline(always)]
pub fn ask(script: &[u8], at: usize) -> Asked
    ensures { Asks (length script.now) (read_at script.now at) result }
{
    match script::read(script, at) {
        Ok(Some(next)) => Asked {
            task: Task::try_from(next.record),
            after: next.after,
        },
        Ok(None) => Asked {
            task: Err(Refusal::CutShort),
            after: script.len(),
        },
        Err(refusal) => Asked {
            task: Err(refusal),
            after: script.len(),
        },
    }
}
