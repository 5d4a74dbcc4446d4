//! Makes the calls of the script on standard input, and says what each answers.
//! A line that is none ends it, with status 1.
#![tactic(auto)]

use anyhow::anyhow;
use script::tell::{Told, tell};
use std::io::Read;

fn main(rt: HostRuntime) -> anyhow::Result<()> {
    let mut script = Vec::new(rt.alloc());
    rt.stdin().read_to_end(&mut script)?;
    let told = tell(rt.alloc(), &script)?;
    rt.write_all(told.text().as_bytes())?;
    match told {
        Told::Whole(_) => Ok(()),
        Told::Stopped(_) => Err(anyhow!("the script is refused")),
    }
}
