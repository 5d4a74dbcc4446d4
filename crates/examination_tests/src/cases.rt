//! The worked cases of docs/EXAMINATION.md.
use crate::examined::{add, examined, races_never, races_once, refusal, row};
use recording::code::Code;
use recording::discipline::DisciplineKind;
use std::test::Fail;

#[test]
fn two_panels(rt: HostRuntime) -> Result<(), Fail> {
    let rows = [
        row(Code::ThreadInit, 0, 0, 0),
        row(Code::ThreadInit, 1, 0, 0),
        row(Code::AttachQ, 0, 0, 0),
        row(Code::LoopOnQ, 0, 0, 0),
        row(Code::Post, 1, 5, 0),
        row(Code::Write, 1, 9, 0),
        row(Code::Begin, 0, 5, 0),
    ];
    let mut examination = examined(rt, DisciplineKind::FirstInFirstOut, 3, &rows)?;
    assert_eq!(rt; add(&mut examination, row(Code::Read, 0, 9, 0))?, 6);
    assert!(rt; races_once(&examination, 5, 7, 1));
    assert!(rt; examination.cut(7).is_ok());
    assert!(rt; races_never(&examination));
    Ok(())
}

#[test]
fn posts_in_turn(rt: HostRuntime) -> Result<(), Fail> {
    let rows = [
        row(Code::ThreadInit, 0, 0, 0),
        row(Code::ThreadInit, 1, 0, 0),
        row(Code::AttachQ, 0, 0, 0),
        row(Code::LoopOnQ, 0, 0, 0),
        row(Code::Post, 1, 5, 0),
        row(Code::Post, 1, 6, 0),
        row(Code::Begin, 0, 5, 0),
        row(Code::Write, 0, 9, 0),
        row(Code::End, 0, 5, 0),
        row(Code::Begin, 0, 6, 0),
        row(Code::Write, 0, 9, 0),
    ];
    let mut in_turn = examined(rt, DisciplineKind::FirstInFirstOut, 3, &rows)?;
    assert!(rt; races_never(&in_turn));
    assert!(rt; in_turn.cut(6).is_ok());
    assert_eq!(rt; refusal(&mut in_turn, row(Code::Begin, 0, 6, 0))?, Some(16));
    let any_order = examined(rt, DisciplineKind::AnyOrder, 3, &rows)?;
    assert!(rt; races_once(&any_order, 7, 10, 4));
    Ok(())
}

#[test]
fn no_tie_by_thread_number(rt: HostRuntime) -> Result<(), Fail> {
    for (first, second) in [(1, 2), (2, 1)] {
        let rows = [
            row(Code::ThreadInit, 0, 0, 0),
            row(Code::ThreadInit, 1, 0, 0),
            row(Code::ThreadInit, 2, 0, 0),
            row(Code::AttachQ, 0, 0, 0),
            row(Code::LoopOnQ, 0, 0, 0),
            row(Code::Post, first, 5, 0),
            row(Code::Post, second, 6, 0),
            row(Code::Begin, 0, 5, 0),
            row(Code::Write, 0, 9, 0),
            row(Code::End, 0, 5, 0),
            row(Code::Begin, 0, 6, 0),
            row(Code::Write, 0, 9, 0),
        ];
        let examination = examined(rt, DisciplineKind::FirstInFirstOut, 7, &rows)?;
        assert!(rt; races_once(&examination, 8, 11, 4));
    }
    Ok(())
}

#[test]
fn a_task_posts_the_next(rt: HostRuntime) -> Result<(), Fail> {
    let rows = [
        row(Code::ThreadInit, 0, 0, 0),
        row(Code::ThreadInit, 1, 0, 0),
        row(Code::AttachQ, 0, 0, 0),
        row(Code::LoopOnQ, 0, 0, 0),
        row(Code::Post, 1, 5, 0),
        row(Code::Begin, 0, 5, 0),
        row(Code::Post, 0, 6, 0),
        row(Code::Write, 0, 9, 0),
        row(Code::End, 0, 5, 0),
        row(Code::Begin, 0, 6, 0),
        row(Code::Write, 0, 9, 0),
    ];
    let examination = examined(rt, DisciplineKind::AnyOrder, 3, &rows)?;
    assert!(rt; races_never(&examination));
    Ok(())
}

#[test]
fn no_plain_transitivity(rt: HostRuntime) -> Result<(), Fail> {
    let rows = [
        row(Code::ThreadInit, 0, 0, 0),
        row(Code::ThreadInit, 1, 0, 0),
        row(Code::ThreadInit, 2, 0, 0),
        row(Code::AttachQ, 0, 0, 0),
        row(Code::LoopOnQ, 0, 0, 0),
        row(Code::Post, 1, 5, 0),
        row(Code::Post, 2, 6, 0),
        row(Code::Begin, 0, 5, 0),
        row(Code::Write, 0, 9, 0),
        row(Code::Acquire, 0, 3, 0),
        row(Code::Release, 0, 3, 0),
        row(Code::End, 0, 5, 0),
        row(Code::Acquire, 1, 3, 0),
        row(Code::Release, 1, 3, 0),
        row(Code::Begin, 0, 6, 0),
        row(Code::Acquire, 0, 3, 0),
        row(Code::Write, 0, 9, 0),
    ];
    let examination = examined(rt, DisciplineKind::FirstInFirstOut, 7, &rows)?;
    assert!(rt; races_once(&examination, 8, 16, 4));
    Ok(())
}

#[test]
fn a_cut_frees_locks(rt: HostRuntime) -> Result<(), Fail> {
    let rows = [
        row(Code::ThreadInit, 0, 0, 0),
        row(Code::ThreadInit, 1, 0, 0),
        row(Code::Acquire, 0, 3, 0),
    ];
    let mut examination = examined(rt, DisciplineKind::AnyOrder, 3, &rows)?;
    assert_eq!(rt;
        refusal(&mut examination, row(Code::Acquire, 1, 3, 0))?,
        Some(15)
    );
    assert!(rt; examination.cut(4).is_err());
    assert!(rt; examination.cut(2).is_ok());
    assert_eq!(rt; add(&mut examination, row(Code::Acquire, 1, 3, 0))?, 1);
    Ok(())
}
