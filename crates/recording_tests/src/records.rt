//! The faults of a record, each at each of its places.
use contents::recorded::Recording;
use files::faults::failure::Failure;
use files::faults::read::ReadFault;
use recording::numbers::{Lock, Task, Thread};
use std::alloc::Global;
use std::test::Fail;

/// Bad records, with their faults' numbers and places.
const BAD: [([u8; 12], u8, u8); 19] = [
    // code
    ([0, 0, 0, 0, 0, 0, 0, 0, 0, 0, 0, 0], 1, 0),
    ([15, 64, 0, 0, 64, 4, 1, 1, 1, 1, 1, 1], 1, 0),
    // acting thread, target thread
    ([1, 64, 0, 0, 0, 0, 0, 0, 0, 0, 0, 0], 2, 1),
    ([7, 64, 0, 2, 64, 0, 0, 0, 0, 0, 0, 0], 2, 1),
    ([3, 0, 0, 0, 64, 0, 0, 0, 0, 0, 0, 0], 2, 4),
    ([7, 63, 0, 2, 64, 0, 0, 0, 0, 0, 0, 0], 2, 4),
    // task, lock
    ([7, 0, 0, 2, 0, 4, 0, 0, 0, 0, 0, 0], 3, 2),
    ([12, 0, 0, 2, 1, 0, 0, 0, 0, 0, 0, 0], 3, 2),
    ([10, 0, 64, 0, 0, 0, 0, 0, 0, 0, 0, 0], 3, 2),
    ([11, 0, 0, 1, 0, 0, 0, 0, 0, 0, 0, 0], 3, 2),
    // item, target, marks, reserved bytes, delay
    ([1, 0, 0, 1, 1, 1, 1, 1, 1, 1, 1, 1], 4, 2),
    ([8, 0, 255, 1, 1, 1, 0, 0, 0, 0, 0, 0], 4, 4),
    ([13, 0, 255, 255, 255, 1, 0, 0, 0, 0, 0, 0], 4, 4),
    ([7, 0, 0, 0, 0, 4, 0, 0, 0, 0, 0, 0], 4, 5),
    ([14, 0, 0, 0, 0, 1, 1, 0, 0, 0, 0, 0], 4, 5),
    ([7, 0, 0, 0, 0, 3, 1, 0, 1, 0, 0, 0], 4, 6),
    ([2, 0, 0, 0, 0, 0, 0, 1, 1, 0, 0, 0], 4, 6),
    ([7, 0, 0, 0, 0, 1, 0, 0, 0, 0, 0, 1], 4, 8),
    ([9, 0, 0, 0, 0, 0, 0, 0, 1, 0, 0, 0], 4, 8),
];

/// A lawful record, the given one, and another that is bad.
fn file(record: &[u8; 12]) -> [u8; 52] {
    let mut file = [0; 52];
    file[0..8].copy_from_slice(b"TLR\x00\x01\x00\x03\x00");
    file[16] = 1;
    file[28..40].copy_from_slice(record);
    file
}

/// The number of the first bad record, and its fault's number and place.
fn fault(heap: Global, file: &[u8]) -> Result<(usize, u8, u8), Fail> {
    match Recording::read(heap, file) {
        Err(Failure::Fault(ReadFault::Record(at))) => {
            Ok((at.number, at.fault.number(), at.fault.byte()))
        }
        _ => Err(Fail::new("no record is at fault")),
    }
}

#[test]
fn bad_records(rt: HostRuntime) -> Result<(), Fail> {
    for (record, number, byte) in &BAD {
        let found = fault(rt.alloc(), &file(record))?;
        assert_eq!(rt; found, (1, *number, *byte));
    }
    Ok(())
}

/// The largest numbers, and each mark of a post.
const GOOD: [[u8; 12]; 7] = [
    [1, 63, 0, 0, 0, 0, 0, 0, 0, 0, 0, 0],
    [3, 63, 0, 0, 63, 0, 0, 0, 0, 0, 0, 0],
    [7, 63, 255, 1, 63, 0, 0, 0, 0, 0, 0, 0],
    [7, 0, 0, 0, 0, 1, 0, 0, 0, 0, 0, 0],
    [7, 0, 0, 0, 0, 3, 0, 0, 255, 255, 255, 255],
    [10, 0, 63, 0, 0, 0, 0, 0, 0, 0, 0, 0],
    [14, 0, 255, 255, 0, 0, 0, 0, 0, 0, 0, 0],
];

#[test]
fn good_records(rt: HostRuntime) -> Result<(), Fail> {
    for record in &GOOD {
        let found = fault(rt.alloc(), &file(record))?;
        assert_eq!(rt; found, (2, 1, 0));
    }
    Ok(())
}

#[test]
fn ranges(rt: HostRuntime) {
    assert!(rt; Thread::new(63).is_some());
    assert!(rt; Thread::new(64).is_none());
    assert!(rt; Task::new(511).is_some());
    assert!(rt; Task::new(512).is_none());
    assert!(rt; Lock::new(63).is_some());
    assert!(rt; Lock::new(64).is_none());
}
