//! The post of an operation's task.
ghost use Rattle.std.specs.Prelude.{◌≡◌, ℕ, Bool, List, [], ◌∷◌, ◌++◌, length};
ghost use Rattle.recording.specs.declared.row.Row.{Row};
ghost use Rattle.happens_before.specs.Race.{TaskPost};
ghost use Rattle.rules.specs.Fair.{FairTables};
ghost use Rattle.rules.specs.Options.{is_of};
ghost use Rattle.tables.specs.Matches.{Matches};
ghost use Rattle.index.specs.Indexed.{member_at};
ghost use Rattle.races.specs.Chains.{Finds};

use tables::tables::Tables;

/// Where the task of a new operation was posted, if it belongs to one.
pub(crate) fn post_of(tables: &Tables, task: Option<u16>) -> Option<u16>
    ensures { (initial : ℕ → Bool) (held : List Row) (o : Row) → Matches initial held tables.now → FairTables initial (held ++ o ∷ []) → ((p : ℕ) → is_of task p ≡ member_at held p o) → Finds result (TaskPost (held ++ o ∷ []) (length held)) }
{
    let posting = tables.posting(task?)?;
    Some(posting.position)
}
