//! Closing a new column over the columns of the earlier positions.
ghost use Rattle.std.specs.Prelude.{length};
ghost use Rattle.columns.specs.Positions.{has, Holds};
ghost use Rattle.columns.specs.Sweep.{swept};

use crate::column::Column;

/// From the newest position down: where `column` has one, takes in the column of that position,
/// whole where `own` has it, else without what `own` has.
pub fn close(columns: &[Column], own: &Column, column: &mut Column)
    ensures { Holds column.new (swept columns.now (has own.now) (length columns.now) (has column.old)) }
{
    let mut end = columns.len();
    // no chain: the column grows in each turn, and with it the positions to come
    while let Some(k) = column.last_below(end) {
        if own.contains(k) {
            column.join(&columns[k]);
        } else {
            column.join_except(&columns[k], own);
        }
        end = k;
    }
}
