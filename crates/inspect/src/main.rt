//! Lists the recording on standard input, or says its fault and ends with status 1.
#![tactic(auto)]

use anyhow::anyhow;
use files::faults::failure::Failure;
use files::input::input;
use listing::fault::fault_line;
use listing::inspect::inspect;

fn main(rt: HostRuntime) -> anyhow::Result<()> {
    let heap = rt.alloc();
    let file = input(heap, rt.stdin())?;
    match inspect(heap, &file) {
        Ok(text) => {
            rt.write_all(text.as_bytes())?;
            Ok(())
        }
        Err(Failure::Fault(fault)) => {
            rt.write_all(fault_line(heap, fault)?.as_bytes())?;
            Err(anyhow!("the recording is refused"))
        }
        Err(Failure::Memory) => Err(anyhow!("no memory is left")),
    }
}
