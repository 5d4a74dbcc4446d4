//! Reports each recording that is named on the command line, its name before its lines.
#![tactic(auto)]

use files::input::input;
use reporting::report::report;
use std::env;
use std::fs::File;

fn main(rt: HostRuntime) -> anyhow::Result<()> {
    for path in env::args(&rt)?.skip(1) {
        let file = input(rt.alloc(), File::open(&rt, path.as_str())?)?;
        let report = report(rt.alloc(), &file)?;
        println!(rt; "{path}")?;
        rt.write_all(report.text().as_bytes())?;
    }
    Ok(())
}
