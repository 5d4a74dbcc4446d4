//! Examinations of a few rows, for the tests.
use dispatch::discipline::Discipline;
use examination::examination::Examination;
use recording::code::Code;
use recording::discipline::DisciplineKind;
use recording::operation::Operation;
use recording::row::Row;
use rules::race::RaceRow;
use std::test::Fail;

pub(crate) fn row(code: Code, thread: u8, item: u16, target: u8) -> Row {
    Row {
        code: code as u8,
        thread,
        item,
        target,
        marks: 0,
        reserved: 0,
        delay: 0,
    }
}

fn operation(row: Row) -> Result<Operation, Fail> {
    Operation::try_from(row).map_err(|_| Fail::new("no lawful record"))
}

/// Adds the row, and answers how many held operations are before it.
pub(crate) fn add<D: Discipline + Drop>(
    examination: &mut Examination<D>,
    row: Row,
) -> Result<usize, Fail> {
    match examination.add(operation(row)?) {
        Ok(added) => Ok(added.before),
        Err(_) => Err(Fail::new("refused")),
    }
}

/// The number of the fault for which the state turns the row away.
pub(crate) fn refusal<D: Discipline + Drop>(
    examination: &mut Examination<D>,
    row: Row,
) -> Result<Option<u8>, Fail> {
    let fault = examination.add(operation(row)?).err();
    Ok(fault.map(|fault| fault.number()))
}

pub(crate) fn examined<D: Discipline + Drop>(
    rt: HostRuntime,
    discipline: D,
    mask: u64,
    rows: &[Row],
) -> Result<Examination<D>, Fail> {
    let mut examination = Examination::open(rt.alloc(), discipline, mask)?;
    for row in rows {
        add(&mut examination, *row)?;
    }
    Ok(examination)
}

/// An examination that holds this many operations.
pub(crate) fn holding(rt: HostRuntime, held: usize) -> Result<Examination<DisciplineKind>, Fail> {
    let mut examination = examined(
        rt,
        DisciplineKind::AnyOrder,
        1,
        &[row(Code::ThreadInit, 0, 0, 0)],
    )?;
    for _ in 1..held {
        add(&mut examination, row(Code::Read, 0, 9, 0))?;
    }
    Ok(examination)
}

/// Whether there is just one race, of these positions and this class.
pub(crate) fn races_once<D: Discipline + Drop>(
    examination: &Examination<D>,
    earlier: u16,
    later: u16,
    class: u8,
) -> bool {
    let untouched = RaceRow {
        earlier: 7,
        later: 7,
        class: 7,
    };
    let race = RaceRow {
        earlier,
        later,
        class,
    };
    let mut places = [untouched; 2];
    examination.list(&mut places) == Ok(1) && places == [race, untouched]
}

pub(crate) fn races_never<D: Discipline + Drop>(examination: &Examination<D>) -> bool {
    examination.list(&mut []) == Ok(0)
}
