//! What an operation does.
use crate::marks::Marks;
use crate::numbers::{Location, Lock, Task, Thread};

/// What the acting thread does, with the task, lock or location, then the target thread, as it has them.
#[derive(Clone, Copy)]
pub enum Action {
    ThreadInit,
    ThreadExit,
    Fork(Thread),
    Join(Thread),
    AttachQ,
    LoopOnQ,
    Post(Task, Thread, Marks),
    Begin(Task),
    End(Task),
    Acquire(Lock),
    Release(Lock),
    Enable(Task),
    Read(Location),
    Write(Location),
}
