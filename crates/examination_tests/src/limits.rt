//! Examinations that hold as many operations as they can, or none.
use crate::examined::{add, examined, holding, refusal, row};
use recording::code::Code;
use recording::discipline::DisciplineKind;
use rules::faults::NotHeld;
use std::test::Fail;

#[test]
fn one_fits_after_a_cut(rt: HostRuntime) -> Result<(), Fail> {
    let mut examination = holding(rt, 512)?;
    let read = row(Code::Read, 0, 9, 0);
    assert_eq!(rt; refusal(&mut examination, read)?, Some(11));
    assert!(rt; examination.cut(511).is_ok());
    assert_eq!(rt; add(&mut examination, read)?, 511);
    Ok(())
}

#[test]
fn nothing_is_held(rt: HostRuntime) -> Result<(), Fail> {
    let mut examination = examined(rt, DisciplineKind::Timed, 1, &[])?;
    assert_eq!(rt; examination.order(0, 0), Err(NotHeld));
    assert!(rt; examination.cut(0).is_ok());
    Ok(())
}
