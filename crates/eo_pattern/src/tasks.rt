//! What a search for a match has still to do.
ghost use Rattle.std.specs.Prelude.{◌≡◌, ◌<◌, ◌≤◌, [], ◌∷◌, length, IfSome, IfNone, OnOk};

use eo_term::Id;
use std::alloc::{AllocError, Global};
use std::marker::Model;

/// One thing that is still to be done.
#[derive(Clone, Copy)]
pub(crate) enum Task {
    /// A pattern is to become a term.
    Pair(Id, Id),
    /// The arguments of an operator, of which there are `count`, are to become those of another one,
    /// from a place on.
    Args {
        pattern: Id,
        term: Id,
        next: u8,
        count: u8,
    },
    /// A pattern matches a term, once all that came after this task is done.
    Done(Id, Id),
}

/// What is still to be done, the task that came last first. There is room for so many tasks.
#[derive(Drop)]
pub(crate) struct Tasks {
    list: Vec<Task>,
}

impl Model for Tasks {
    ghost use Rattle.std.specs.Prelude.{reverse, vec_capacity};
    ghost use Rattle.eo_pattern.specs.ToDo.{ToDo};

    ghost Value = { ToDo };

    ghost view = { λ a. record { tasks = reverse a.list.items; room = vec_capacity a.list } };
}

impl Tasks {
    /// Nothing is to be done, and there is no room. No memory is taken.
    pub(crate) fn new(alloc: Global) -> Tasks
        ensures { result.tasks ≡ [] }
    {
        Tasks {
            list: Vec::new(alloc),
        }
    }

    /// Makes room for so many tasks. Nothing is to be done then. Room that is there stays.
    pub(crate) fn reserve(&mut self, tasks: usize) -> Result<(), AllocError>
        ensures none { self.new.tasks ≡ [] }
        ensures room { OnOk result (tasks ≤ self.new.room) }
        ensures more { self.old.room ≤ self.new.room }
    {
        self.list.clear();
        self.list.reserve(tasks)
    }

    /// Nothing is to be done but this.
    pub(crate) fn begin(&mut self, task: Task)
        requires { 0 < self.old.room }
        ensures tasks { self.new.tasks ≡ task ∷ [] }
        ensures room { self.new.room ≡ self.old.room }
    {
        self.list.clear();
        self.list.push_reserved(task);
    }

    /// This is to be done first.
    pub(crate) fn push(&mut self, task: Task)
        requires { length self.old.tasks < self.old.room }
        ensures tasks { self.new.tasks ≡ task ∷ self.old.tasks }
        ensures room { self.new.room ≡ self.old.room }
    {
        self.list.push_reserved(task);
    }

    /// What is to be done first, which is taken off.
    pub(crate) fn pop(&mut self) -> Option<Task>
        ensures some { IfSome result (λ w. self.old.tasks ≡ w ∷ self.new.tasks) }
        ensures none { IfNone result (self.old.tasks ≡ []) }
        ensures room { self.new.room ≡ self.old.room }
    {
        self.list.pop()
    }
}
