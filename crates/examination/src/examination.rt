//! An examination.
use crate::state::State;
use columns::column::Column;
use dispatch::discipline::Discipline;
use races::nearest::NearestPosts;
use recording::row::Row;
use std::marker::Model;

/// Held operations under a dispatch discipline, with what is before each and what follows from them.
#[derive(Drop)]
pub struct Examination<D: Discipline> {
    discipline: D,
    mask: u64,
    // three lists and not one of entries: each is lent to the crates below as a slice
    rows: Vec<Row>,
    /// By position: what is before it.
    columns: Vec<Column>,
    /// By position: the nearest posts of its chain.
    nearests: Vec<NearestPosts>,
    state: State,
}

/// A caller sees the discipline, the mask and the held operations; all else is exact for these.
impl<D: Discipline> Model for Examination<D> {
    ghost use Rattle.std.specs.Prelude.{vec_capacity};
    ghost use Rattle.examination.specs.Holding.{Holding};
    ghost use Rattle.examination.specs.Exact.{Exact, Room};

    ghost Value = { Holding D };

    ghost view = { λ a. record { discipline = a.discipline; mask = a.mask; rows = a.rows.items } };

    ghost invariant = { λ a. Room (vec_capacity a.rows) (vec_capacity a.columns) (vec_capacity a.nearests) × Exact (D.Discipline.precedence a.discipline) a.mask a.rows.items a.columns.items a.nearests.items a.state };
}

pub mod add;
pub mod added;
pub mod class;
pub mod cut;
mod held;
pub mod list;
pub mod open;
pub mod order;
mod stored;
