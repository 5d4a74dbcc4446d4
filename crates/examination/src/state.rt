//! What follows from the held operations: records of threads, locks and tasks, and sets of positions.
use index::sets::Index;
use tables::tables::Tables;

/// What follows from the held operations.
#[derive(Drop)]
pub(crate) struct State {
    pub(crate) tables: Tables,
    pub(crate) index: Index,
}

pub(crate) mod steps;
