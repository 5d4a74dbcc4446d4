//! Races on examples.
use crate::held::Held;
use crate::nearest::NearestPosts;
use columns::column::Column;
use recording::row::Row;
use rules::faults::TooShort;
use rules::race::{RaceClass, RaceRow};

const READ: u8 = 13;

const WRITE: u8 = 14;

fn access(code: u8, thread: u8, location: u16) -> Row {
    Row {
        code,
        thread,
        item: location,
        target: 0,
        marks: 0,
        reserved: 0,
        delay: 0,
    }
}

fn posts(environment: Option<u16>, delayed: Option<u16>, foreign: Option<u16>) -> NearestPosts {
    NearestPosts {
        environment,
        delayed,
        foreign,
    }
}

fn class_of(
    rows: &[Row],
    columns: &[Column],
    nearests: &[NearestPosts],
    i: usize,
    j: usize,
) -> Option<RaceClass> {
    Held {
        rows,
        columns,
        nearests,
    }
    .class(i, j)
}

fn listed(rows: &[Row], columns: &[Column], races: &mut [RaceRow]) -> Result<usize, TooShort> {
    Held {
        rows,
        columns,
        nearests: &[],
    }
    .list(races)
}

#[test]
fn the_first_class_that_fits(rt: HostRuntime) {
    let rows = [access(WRITE, 1, 7), access(READ, 1, 7), access(READ, 2, 7)];
    let near = posts(Some(5), Some(6), Some(8));
    assert_eq!(rt;
        class_of(&rows, &[], &[], 2, 0),
        Some(RaceClass::MultiThreaded)
    );
    assert_eq!(rt;
        class_of(&rows, &[], &[near, posts(Some(4), None, None)], 0, 1),
        Some(RaceClass::CoEnabled)
    );
    assert_eq!(rt;
        class_of(&rows, &[], &[near, posts(None, None, None)], 0, 1),
        Some(RaceClass::Delayed)
    );
    assert_eq!(rt;
        class_of(&rows, &[], &[near, posts(None, Some(6), None)], 0, 1),
        Some(RaceClass::CrossPosted)
    );
    assert_eq!(rt;
        class_of(&rows, &[], &[near, near], 0, 1),
        Some(RaceClass::Unknown)
    );
}

#[test]
fn what_does_not_race(rt: HostRuntime) {
    let rows = [
        access(READ, 1, 7),
        access(READ, 2, 7),
        access(WRITE, 2, 7),
        access(WRITE, 3, 8),
    ];
    let mut later = Column::empty();
    later.insert(0);
    let columns = [Column::empty(), Column::empty(), later];
    assert_eq!(rt; class_of(&rows, &columns, &[], 0, 1), None, "two reads");
    assert_eq!(rt; class_of(&rows, &columns, &[], 0, 2), None, "in order");
    assert_eq!(rt; class_of(&rows, &columns, &[], 2, 3), None, "two locations");
    assert_eq!(rt; class_of(&rows, &columns, &[], 2, 4), None, "not held");
}

#[test]
fn the_list_rises(rt: HostRuntime) {
    let rows = [access(WRITE, 1, 7), access(READ, 2, 7), access(WRITE, 3, 7)];
    let unset = RaceRow {
        earlier: 7,
        later: 7,
        class: 7,
    };
    let mut places = [unset; 4];
    assert_eq!(rt; listed(&rows, &[], &mut places), Ok(3));
    assert!(rt; places[1].earlier == 0 && places[1].later == 2 && places[1].class == 1);
    assert!(rt; places[2].earlier == 1 && places[2].later == 2 && places[3].class == 7);
    assert_eq!(rt; listed(&rows, &[], &mut []), Err(TooShort { needed: 3 }));
}
