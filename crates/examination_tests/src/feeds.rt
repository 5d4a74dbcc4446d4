//! Feeding files.
use crate::examined::{holding, row};
use contents::writer::write;
use feeding::fault::FeedFault;
use feeding::feed::feed;
use recording::code::Code;
use std::test::Fail;

/// A file of five reads.
fn five_reads() -> [u8; 76] {
    let mut file = [0; 76];
    let _ = write(0, 0, &[row(Code::Read, 0, 9, 0); 5], &mut file);
    file
}

#[test]
fn all_records(rt: HostRuntime) -> Result<(), Fail> {
    let mut examination = holding(rt, 1)?;
    assert_eq!(rt; feed(&mut examination, &five_reads()), Ok(5));
    assert!(rt; examination.cut(6).is_ok());
    assert!(rt; examination.cut(7).is_err());
    Ok(())
}

#[test]
fn keeps_what_was_accepted(rt: HostRuntime) -> Result<(), Fail> {
    let mut examination = holding(rt, 510)?;
    let answer = feed(&mut examination, &five_reads());
    assert!(rt;
        matches!(answer, Err(FeedFault::State(at)) if at.number == 2 && at.fault.number() == 11)
    );
    assert!(rt; examination.cut(512).is_ok());
    Ok(())
}

#[test]
fn header_fault_adds_nothing(rt: HostRuntime) -> Result<(), Fail> {
    let mut examination = holding(rt, 1)?;
    let answer = feed(&mut examination, &[0; 15]);
    assert!(rt; matches!(answer, Err(FeedFault::File(fault)) if fault.number() == 5));
    assert!(rt; examination.cut(2).is_err());
    Ok(())
}
