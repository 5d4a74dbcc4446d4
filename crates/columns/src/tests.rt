//! Columns on examples.
use crate::closing::close;
use crate::column::Column;

fn column_of(positions: &[usize]) -> Column {
    let mut column = Column::empty();
    for position in positions {
        column.insert(*position);
    }
    column
}

#[test]
fn only_positions_below_512(rt: HostRuntime) {
    let column = column_of(&[0, 64, 511, 512]);
    assert_eq!(rt; column.count(), 3);
    assert!(rt; column.contains(511) && !column.contains(512));
}

#[test]
fn columns_meet_in_a_position(rt: HostRuntime) {
    assert!(rt; column_of(&[3, 70]).meets(&column_of(&[70])));
    assert!(rt; !column_of(&[3, 70]).meets(&column_of(&[6, 134])));
}

#[test]
fn last_below_goes_down_over_words(rt: HostRuntime) {
    let column = column_of(&[3, 64, 511]);
    assert_eq!(rt; column.last_below(1000), Some(511));
    assert_eq!(rt; column.last_below(511), Some(64));
    assert_eq!(rt; column.last_below(64), Some(3));
    assert_eq!(rt; column.last_below(3), None);
}

#[test]
fn closing_hides_own_behind_others(rt: HostRuntime) {
    let columns = [Column::empty(), column_of(&[0]), column_of(&[1])];
    let mut by_another = column_of(&[2]);
    close(&columns, &column_of(&[0]), &mut by_another);
    assert!(rt; by_another.contains(1) && !by_another.contains(0));
    let mut by_own = column_of(&[2]);
    close(&columns, &column_of(&[0, 1, 2]), &mut by_own);
    assert_eq!(rt; by_own.count(), 3);
}
