//! Operations, which exist only where their record is lawful, and what they say.
ghost use Rattle.std.specs.Prelude.{◌≡◌, ◌<◌, ◌≤◌, true, Some, None, MatchResult};
ghost use Rattle.recording.specs.Codes.{code_number};
ghost use Rattle.recording.specs.Lawful.{fault_in, lawful as lawfulRow};

use crate::action::Action;
use crate::code::Code;
use crate::faults::record::RecordFault;
use crate::judge::judge;
use crate::marks::Marks;
use crate::numbers::{Location, Lock, Task, Thread};
use crate::row::Row;

/// An operation: a row that is a lawful record.
#[derive(Clone, Copy)]
pub struct Operation {
    row: Row,
    ghost lawful: { lawfulRow row ≡ true },
}

/// The operation of a row, or the fault that makes it none.
impl TryFrom<Row> for Operation {
    type Error = RecordFault;

    ghost try_from_gives = { λ row r. MatchResult r (λ o. (lawfulRow row ≡ true) × (o.row ≡ row)) (λ f. fault_in row ≡ Some f) };

    fn try_from(row: Row) -> Result<Operation, RecordFault> {
        judge(row)?;
        Ok(Operation { row })
    }
}

impl Operation {
    ghost use Rattle.recording.specs.Rows.{row_of};

    /// The operation's row.
    pub fn row(self) -> Row
        ensures { result ≡ self.row }
    {
        self.row
    }

    /// Which operation it is.
    pub fn code(self) -> Code
        ensures { code_number result ≡ self.row.code }
    {
        Code::try_from(self.row.code).unwrap()
    }

    /// The acting thread.
    pub fn thread(self) -> Thread
        ensures { result.number ≡ self.row.thread }
    {
        Thread::of(u16::from(self.row.thread))
    }

    /// What the acting thread does: the one action that has this row.
    pub fn action(self) -> Action
        ensures { row_of self.row.thread result ≡ self.row }
    {
        let row = self.row;
        match self.code() {
            Code::ThreadInit => Action::ThreadInit,
            Code::ThreadExit => Action::ThreadExit,
            Code::Fork => Action::Fork(Thread::of(u16::from(row.target))),
            Code::Join => Action::Join(Thread::of(u16::from(row.target))),
            Code::AttachQ => Action::AttachQ,
            Code::LoopOnQ => Action::LoopOnQ,
            Code::Post => Action::Post(
                Task::of(row.item),
                Thread::of(u16::from(row.target)),
                Marks::from(row),
            ),
            Code::Begin => Action::Begin(Task::of(row.item)),
            Code::End => Action::End(Task::of(row.item)),
            Code::Acquire => Action::Acquire(Lock::of(row.item)),
            Code::Release => Action::Release(Lock::of(row.item)),
            Code::Enable => Action::Enable(Task::of(row.item)),
            Code::Read => Action::Read(Location::new(row.item)),
            Code::Write => Action::Write(Location::new(row.item)),
        }
    }
}
