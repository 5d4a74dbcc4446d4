//! Writing, and the writer's refusals.
use contents::faults::write::WriteFault;
use contents::recorded::Recording;
use contents::recorded::said::copy;
use contents::writer::write;
use files::faults::at::At;
use files::faults::file::FileFault;
use recording::faults::record::RecordFault;
use recording::row::Row;
use std::process::Abort;
use std::test::Fail;

const GOOD: Row = Row {
    code: 13,
    thread: 0,
    item: 9,
    target: 0,
    marks: 0,
    reserved: 0,
    delay: 0,
};

const BAD: Row = Row { thread: 64, ..GOOD };

/// The refusal of a writer that has 39 places, which it leaves as they were.
fn refusal(rt: &impl Abort, discipline: u8, rows: &[Row]) -> Result<WriteFault, Fail> {
    let mut buffer = [7; 39];
    let Err(fault) = write(discipline, 3, rows, &mut buffer) else {
        return Err(Fail::new("not refused"));
    };
    assert!(rt; buffer == [7; 39]);
    Ok(fault)
}

#[test]
fn refusals(rt: HostRuntime) -> Result<(), Fail> {
    let many = vec![in rt.alloc(); BAD; 513]?;
    assert_eq!(rt;
        refusal(&rt, 3, &many)?,
        WriteFault::File(FileFault::Discipline)
    );
    assert_eq!(rt;
        refusal(&rt, 2, &many)?,
        WriteFault::File(FileFault::Length)
    );
    let fault = RecordFault::ThreadTooLarge;
    assert_eq!(rt;
        refusal(&rt, 2, &[GOOD, BAD, BAD])?,
        WriteFault::Record(At { number: 1, fault })
    );
    assert_eq!(rt; refusal(&rt, 2, &[GOOD, GOOD])?, WriteFault::TooShort(40));
    Ok(())
}

#[test]
fn bytes_past_the_end(rt: HostRuntime) {
    let mut buffer = [7; 30];
    assert_eq!(rt; write(1, 2, &[GOOD], &mut buffer), Ok(28));
    assert!(rt;
        buffer
            == *b"TLR\x01\x01\x00\x01\x00\x02\x00\x00\x00\x00\x00\x00\x00\x0d\x00\x09\x00\x00\x00\x00\x00\x00\x00\x00\x00\x07\x07"
    );
}

#[test]
fn longest(rt: HostRuntime) -> Result<(), Fail> {
    let rows = vec![in rt.alloc(); GOOD; 512]?;
    let mut buffer = vec![in rt.alloc(); 0; 6160]?;
    assert_eq!(rt; write(0, u64::MAX, &rows, &mut buffer), Ok(6160));
    let again = copy(rt.alloc(), &buffer)?;
    assert!(rt; again.as_slice() == buffer.as_slice());
    let recording = Recording::read(rt.alloc(), &buffer)?;
    assert!(rt; recording.mask() == u64::MAX && recording.rows() == rows.as_slice());
    Ok(())
}
