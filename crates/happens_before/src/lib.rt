//! What is before what in a trace of operations, and which accesses race: definitions and theorems only.
//! Each function stands for the theorem that its contract names.
#![tactic(auto)]

ghost use Rattle.happens_before.specs.Theorems.{LeastOrderingExists, AdditionsChangeNothingEarlier, RenamingChangesNothing, ClassesExclude};

/// A trace in which tasks are posted before they begin has a least closed ordering: 'before' is itself closed.
pub fn least_ordering_exists()
    ensures { LeastOrderingExists }
{}

/// What is added to a trace changes neither order nor races nor classes among what stood before it.
pub fn additions_change_nothing_earlier()
    ensures { AdditionsChangeNothingEarlier }
{}

/// Other names for threads, tasks, locks and locations change neither order nor races nor classes.
pub fn renaming_changes_nothing()
    ensures { RenamingChangesNothing }
{}

/// A pair has no two classes.
pub fn classes_exclude()
    ensures { ClassesExclude }
{}
