//! Examines the recording on standard input and lists its races, or says its fault and ends with status 1.
#![tactic(auto)]

use anyhow::anyhow;
use files::input::input;
use reporting::report::{ReportLines, report};

fn main(rt: HostRuntime) -> anyhow::Result<()> {
    let file = input(rt.alloc(), rt.stdin())?;
    let report = report(rt.alloc(), &file)?;
    rt.write_all(report.text().as_bytes())?;
    match report {
        ReportLines::Races(_) => Ok(()),
        ReportLines::Fault(_) => Err(anyhow!("the recording is refused")),
    }
}
