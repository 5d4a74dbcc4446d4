//! The report of a file.
ghost use Rattle.std.specs.Prelude.{◌≡◌, IfOk};
ghost use Rattle.reporting.specs.Reports.{lines_of, is_accepted, Reported, Refuses};

use crate::lines::report_text;
use crate::race_list::races_of;
use examination::examination::Examination;
use feeding::fault::FeedFault;
use feeding::feed::feed;
use files::header::Header;
use std::alloc::{AllocError, Global};

/// The lines about a file.
// not one type with what a script is told: other facts decide the cases
#[derive(Drop)]
pub enum ReportLines {
    /// The file has no fault, and these are its races.
    Races(String),
    /// Its fault, as the only line.
    Fault(String),
}

impl ReportLines {
    /// The lines.
    pub fn text(&self) -> &str
        ensures { result.now ≡ lines_of self.now }
    {
        match self {
            ReportLines::Races(text) | ReportLines::Fault(text) => text,
        }
    }
}

/// The report of a file that has a fault.
fn refused(heap: Global, fault: FeedFault) -> Result<ReportLines, AllocError>
    ensures { IfOk result (Refuses fault) }
{
    Ok(ReportLines::Fault(format!(in heap; "{fault}\n")?))
}

/// The report of a file, under its own discipline and initial threads, or its fault as the only line.
pub fn report(heap: Global, file: &[u8]) -> Result<ReportLines, AllocError>
    ensures { IfOk result (λ report. Reported file.now (lines_of report) (is_accepted report)) }
{
    // by match: after `?` a fault and want of memory would have to be told apart again
    let header = match Header::read(file) {
        Ok(header) => header,
        Err(fault) => return refused(heap, FeedFault::File(fault)),
    };
    let mut examination = Examination::open(heap, header.discipline, header.mask)?;
    match feed(&mut examination, file) {
        Ok(ops) => {
            let races = races_of(heap, &examination)?;
            Ok(ReportLines::Races(report_text(heap, ops, &races)?))
        }
        Err(fault) => refused(heap, fault),
    }
}
