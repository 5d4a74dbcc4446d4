//! The laws of whole runs. Each function stands for the theorem that its contract names.
ghost use Rattle.rules.specs.Theorems.{RunsAreDetermined, RenamingChangesNoAnswer};

/// The definitions allow one outcome of each run: the answers, and what is held at the end.
pub fn runs_are_determined()
    ensures { RunsAreDetermined }
{}

/// Other names for threads, tasks, locks and locations change no answer of a run.
pub fn renaming_changes_no_answer()
    ensures { RenamingChangesNoAnswer }
{}
