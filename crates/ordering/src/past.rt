//! What is held when an operation is added.
use columns::column::Column;
use index::sets::Index;
use recording::row::Row;
use tables::tables::Tables;

/// The held rows under a discipline, with what is before each and what follows from them.
// no invariant says that they agree: they are lent by whoever stores them
#[derive_where(Clone, Copy)]
pub struct Past<'a, D> {
    pub discipline: &'a D,
    pub rows: &'a [Row],
    /// By position: what is before it.
    pub columns: &'a [Column],
    pub tables: &'a Tables,
    pub index: &'a Index,
}
