//! Feeding a file.
ghost use Rattle.recording.specs.Records.{row_in};
ghost use Rattle.examination.specs.Holding.{held, setting_of, SameSetting, FairlyHeld};
ghost use Rattle.feeding.specs.Feeding.{Feeds, Takes};

use crate::fault::FeedFault;
use dispatch::discipline::Discipline;
use examination::examination::Examination;
use files::faults::at::At;
use files::header::Header;
use files::reader::{Reader, Record};

/// Judges a record and adds its operation.
fn take<D: Discipline + Drop>(
    examination: &mut Examination<D>,
    part: Record<'_>,
) -> Result<(), FeedFault>
    ensures takes { Takes (setting_of D.Discipline.admission D.Discipline.precedence examination.old) (held examination.old) part.entry.number (row_in part.entry.bytes.now) result (held examination.new) }
    ensures setting { SameSetting examination.old examination.new }
    ensures fair { FairlyHeld examination.old → FairlyHeld examination.new }
{
    let number = part.number;
    let operation = part.operation()?;
    examination
        .add(operation)
        .map_err(|fault| At { number, fault })?;
    Ok(())
}

/// Judges the header of a file, then adds its records in turn, under the examination's own discipline
/// and mask, and answers their number. A fault stops it; what was accepted until then is kept.
pub fn feed<D: Discipline + Drop>(
    examination: &mut Examination<D>,
    file: &[u8],
) -> Result<usize, FeedFault>
    ensures feeds { Feeds (setting_of D.Discipline.admission D.Discipline.precedence examination.old) file.now (held examination.old) result (held examination.new) }
    ensures setting { SameSetting examination.old examination.new }
    ensures fair { FairlyHeld examination.old → FairlyHeld examination.new }
{
    let header = Header::read(file)?;
    for record in Reader::new(file) {
        take(examination, record)?;
    }
    Ok(header.count)
}
