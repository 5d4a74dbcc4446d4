//! The held positions by thread, task and lock.
use columns::column::Column;

/// The held positions of a thread.
#[derive(Clone, Copy)]
struct ThreadSets {
    /// Its operations.
    own: Column,
    /// Its operations with no loopOnQ of the thread before them.
    unlooped: Column,
    /// Its attachQ.
    attaches: Column,
    /// The fork of which it is the target.
    forks: Column,
    /// Its threadexit.
    exits: Column,
    /// Its ends of tasks.
    ends: Column,
}

/// The held positions of a task.
#[derive(Clone, Copy)]
struct TaskSets {
    /// Its enables.
    enables: Column,
    /// The operations that belong to it.
    members: Column,
}

/// Sets of held positions.
// no invariant says of which operations: their list is not stored here
#[derive(Drop)]
pub struct Index {
    threads: [ThreadSets; 64],
    /// By lock: its releases.
    releases: [Column; 64],
    tasks: [TaskSets; 512],
}

pub mod given;
pub mod noting;
