//! Headers and lengths.
use contents::recorded::Recording;
use files::faults::failure::Failure;
use files::faults::read::ReadFault;
use files::input::input;
use std::alloc::Global;
use std::test::Fail;

/// The shortest recording.
const EMPTY: [u8; 16] = *b"TLR\x00\x01\x00\x00\x00\x00\x00\x00\x00\x00\x00\x00\x00";

/// The number and the place of a file's fault.
fn fault(heap: Global, file: &[u8]) -> Result<(u8, u8), Fail> {
    match Recording::read(heap, file) {
        Err(Failure::Fault(ReadFault::File(fault))) => Ok((fault.number(), fault.byte())),
        _ => Err(Fail::new("the header is not at fault")),
    }
}

/// How many operations a recording has.
fn count(heap: Global, file: &[u8]) -> Result<usize, Fail> {
    Ok(Recording::read(heap, file)?.rows().len())
}

#[test]
fn shortest(rt: HostRuntime) -> Result<(), Fail> {
    assert_eq!(rt; count(rt.alloc(), &EMPTY)?, 0);
    Ok(())
}

#[test]
fn short_and_long(rt: HostRuntime) -> Result<(), Fail> {
    assert_eq!(rt; fault(rt.alloc(), &[])?, (5, 0));
    assert_eq!(rt; fault(rt.alloc(), &EMPTY[0..15])?, (5, 0));
    let mut file = [0; 17];
    file[0..16].copy_from_slice(&EMPTY);
    assert_eq!(rt; fault(rt.alloc(), &file)?, (8, 6));
    Ok(())
}

/// A place of the header with another byte there, and the fault's number and place.
const CHANGED: [(usize, u8, u8, u8); 8] = [
    (0, 116, 5, 0),
    (1, 0, 5, 0),
    (2, 81, 5, 0),
    (3, 3, 7, 3),
    (4, 2, 6, 4),
    (5, 1, 6, 4),
    (6, 1, 8, 6),
    (7, 2, 8, 6),
];

#[test]
fn headers(rt: HostRuntime) -> Result<(), Fail> {
    for (at, to, number, byte) in &CHANGED {
        let mut file = EMPTY;
        assert!(rt; *at < 16);
        file[*at] = *to;
        assert_eq!(rt; fault(rt.alloc(), &file)?, (*number, *byte));
    }
    Ok(())
}

/// The smallest fault counts: version before discipline, discipline before length.
#[test]
fn first_fault(rt: HostRuntime) -> Result<(), Fail> {
    let mut file = EMPTY;
    file[3] = 9;
    file[4] = 9;
    file[6] = 9;
    assert_eq!(rt; fault(rt.alloc(), &file)?, (6, 4));
    file[4] = 1;
    assert_eq!(rt; fault(rt.alloc(), &file)?, (7, 3));
    file[3] = 2;
    assert_eq!(rt; fault(rt.alloc(), &file)?, (8, 6));
    Ok(())
}

/// A file of so many records, all threadinit(0).
fn records(heap: Global, count: u16) -> Result<Vec<u8>, Fail> {
    let mut file = Vec::from_slice(heap, b"TLR\x00\x01\x00")?;
    file.extend_from_slice(&count.to_le_bytes())?;
    file.extend_from_slice(&[0; 8])?;
    for _ in 0..count {
        file.extend_from_slice(&[1, 0, 0, 0, 0, 0, 0, 0, 0, 0, 0, 0])?;
    }
    Ok(file)
}

#[test]
fn longest(rt: HostRuntime) -> Result<(), Fail> {
    let file = records(rt.alloc(), 512)?;
    assert_eq!(rt; file.len(), 6160);
    assert_eq!(rt; count(rt.alloc(), &file)?, 512);
    Ok(())
}

#[test]
fn too_many(rt: HostRuntime) -> Result<(), Fail> {
    let file = records(rt.alloc(), 513)?;
    assert_eq!(rt; file.len(), 6172);
    assert_eq!(rt; fault(rt.alloc(), &file)?, (8, 6));
    Ok(())
}

#[test]
fn longer_input_is_cut(rt: HostRuntime) -> Result<(), Fail> {
    let longest = records(rt.alloc(), 512)?;
    assert_eq!(rt;
        input(rt.alloc(), longest.as_slice())?.as_slice(),
        longest.as_slice()
    );
    let longer = records(rt.alloc(), 514)?;
    assert_eq!(rt; input(rt.alloc(), longer.as_slice())?.len(), 6161);
    Ok(())
}
