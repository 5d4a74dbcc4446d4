//! What `inspect` prints.
use files::faults::failure::Failure;
use listing::fault::fault_line;
use listing::inspect::inspect;
use std::alloc::Global;
use std::test::Fail;

/// The line of a file's fault.
fn refused(heap: Global, file: &[u8]) -> Result<String, Fail> {
    match inspect(heap, file) {
        Err(Failure::Fault(fault)) => Ok(fault_line(heap, fault)?),
        _ => Err(Fail::new("no fault")),
    }
}

#[test]
fn no_operation(rt: HostRuntime) -> Result<(), Fail> {
    let file = b"TLR\x01\x01\x00\x00\x00\x00\x00\x00\x00\x00\x00\x00\x00";
    let text = inspect(rt.alloc(), file)?;
    assert_eq!(rt;
        text.as_str(),
        "discipline 1 any order\ninitial threads none\ncount 0\n0 operations read, written again: same bytes\n"
    );
    Ok(())
}

#[test]
fn one_post(rt: HostRuntime) -> Result<(), Fail> {
    let file =
        b"TLR\x00\x01\x00\x01\x00\x03\x00\x00\x00\x00\x00\x00\x80\x07\x01\x05\x01\x02\x03\x00\x00\xfa\x00\x00\x00";
    let text = inspect(rt.alloc(), file)?;
    assert_eq!(rt;
        text.as_str(),
        "discipline 0 first in first out\ninitial threads 0 1 63\ncount 1\n0 post(1,261,2,env,delay=250)\n1 operations read, written again: same bytes\n"
    );
    Ok(())
}

#[test]
fn faults(rt: HostRuntime) -> Result<(), Fail> {
    let line = refused(rt.alloc(), b"TLR")?;
    assert_eq!(rt; line.as_str(), "file 5 at 0\n");
    let file =
        b"TLR\x00\x01\x00\x01\x00\x00\x00\x00\x00\x00\x00\x00\x00\x07\x00\x00\x02\x00\x00\x00\x00\x00\x00\x00\x00";
    let line = refused(rt.alloc(), file)?;
    assert_eq!(rt; line.as_str(), "record 3 at 0\n");
    Ok(())
}
