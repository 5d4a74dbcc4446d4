//! Positions noted as operations are accepted.
ghost use Rattle.std.specs.Prelude.{◌≡◌, ℕ, ◌<◌, ◌≤◌, not, ◌&&◌, List, [], ◌∷◌, ◌++◌, length};
ghost use Rattle.recording.specs.Rows.{operation_row, row_of};
ghost use Rattle.recording.specs.declared.row.Row.{Row};
ghost use Rattle.rules.specs.Acceptance.{loops};
ghost use Rattle.rules.specs.Options.{is_of};
ghost use Rattle.index.specs.Indexed.{Indexed, NotedKinds, NotedRest, SameSets, member_at};

use crate::sets::{Index, TaskSets, ThreadSets};
use columns::column::Column;
use recording::action::Action;
use recording::numbers::Thread;
use recording::operation::Operation;

impl Index {
    /// The sets where nothing is held.
    pub fn new() -> Index
        ensures { Indexed [] result }
    {
        let none = Column::empty();
        let thread = ThreadSets {
            own: none,
            unlooped: none,
            attaches: none,
            forks: none,
            exits: none,
            ends: none,
        };
        let task = TaskSets {
            enables: none,
            members: none,
        };
        Index {
            threads: [thread; 64],
            releases: [none; 64],
            tasks: [task; 512],
        }
    }

    /// Notes the position in the sets that depend on the operation alone.
    fn note_kinds(&mut self, thread: Thread, action: Action, position: usize)
        ensures noted { NotedKinds (row_of thread.number action) position self.old self.new }
        ensures past { 512 ≤ position → SameSets self.old self.new }
    {
        let t = thread.number() as usize;
        self.threads[t].own.insert(position);
        match action {
            Action::AttachQ => self.threads[t].attaches.insert(position),
            Action::ThreadExit => self.threads[t].exits.insert(position),
            Action::End(_) => self.threads[t].ends.insert(position),
            Action::Fork(target) => self.threads[target.number() as usize]
                .forks
                .insert(position),
            Action::Release(lock) => self.releases[lock.number() as usize].insert(position),
            Action::Enable(task) => self.tasks[task.number() as usize].enables.insert(position),
            _ => {}
        }
    }

    /// Notes the position in the sets that depend on what stood before.
    fn note_rest(&mut self, thread: Thread, position: usize, looping: bool, task: Option<u16>)
        ensures noted { NotedRest thread.number looping task position self.old self.new }
        ensures past { 512 ≤ position → SameSets self.old self.new }
    {
        if !looping {
            self.threads[thread.number() as usize]
                .unlooped
                .insert(position);
        }
        if let Some(p) = task
            && p < 512
        {
            self.tasks[p as usize].members.insert(position);
        }
    }

    /// Notes the position of an accepted operation, by whether its thread looped before it and by its task;
    /// from 512 on nothing changes.
    pub fn note_operation(
        &mut self,
        operation: Operation,
        position: usize,
        looping: bool,
        task: Option<u16>,
    )
        ensures indexed { (held : List Row) → Indexed held self.old → position ≡ length held → position < 512 → looping ≡ loops held (operation_row operation).thread → ((p : ℕ) → is_of task p ≡ member_at held p (operation_row operation)) → Indexed (held ++ operation_row operation ∷ []) self.new }
        ensures noted { (middle : Index) × NotedKinds (operation_row operation) position self.old middle × NotedRest (operation_row operation).thread looping task position middle self.new }
        ensures past { 512 ≤ position → SameSets self.old self.new }
    {
        let thread = operation.thread();
        self.note_kinds(thread, operation.action(), position);
        self.note_rest(thread, position, looping, task);
    }
}
