//! Scripts that end before their last line.
use crate::tried::check_script;
use script::tell::{Told, tell};
use std::test::Fail;

const NO_CALL: &str = "opened\nline 2: this is no call\n";

/// Second lines that are no calls.
const BAD: [&[u8]; 16] = [
    b"open 0 0\n\n",
    b"open 0 0\nadd",
    b"open 0 0\ncut",
    b"open 0 0\ncut ",
    b"open 0 0\ncut  1",
    b"open 0 0\ncut 1 ",
    b"open 0 0\n cut 1",
    b"open 0 0\ncut +1",
    b"open 0 0\ncut 01",
    b"open 0 0\ncut 18446744073709551616",
    b"open 0 0\ncut 1\r\n",
    b"open 0 0\nCUT 1\n",
    b"open 0 0\norder 1\n",
    b"open 0 0\nadd 256 0 0 0 0 0 0\n",
    b"open 0 0\nlist 262145\n",
    b"open 0 0\ncut \xff\n",
];

#[test]
fn no_calls(rt: HostRuntime) -> Result<(), Fail> {
    for script in BAD {
        check_script(&rt, rt.alloc(), script, NO_CALL, false)?;
    }
    Ok(())
}

#[test]
fn not_opened(rt: HostRuntime) -> Result<(), Fail> {
    let none = "line 1: this is no opening\n";
    check_script(&rt, rt.alloc(), b"", none, false)?;
    check_script(&rt, rt.alloc(), b"cut 0\n", none, false)?;
    check_script(&rt, rt.alloc(), b"open 256 0\n", none, false)?;
    check_script(&rt, rt.alloc(), b"open 3 0\ncut\n", "file 7 at 3\n", false)
}

#[test]
fn opened_twice(rt: HostRuntime) -> Result<(), Fail> {
    check_script(
        &rt,
        rt.alloc(),
        b"open 0 0\ncut 0\nopen 0 0\ncut 0\n",
        "opened\ncut 0\nline 3: a second opening\n",
        false,
    )
}

#[test]
fn too_many_places(rt: HostRuntime) -> Result<(), Fail> {
    let told = tell(
        rt.alloc(),
        b"open 0 0\nlist 262144\nlist 262144\nlist 262144\nlist 262144\nlist 0\nlist 1\n",
    )?;
    assert!(rt; told.text().ends_with("\nline 7: too many places lent\n"));
    assert_eq!(rt; told.text().len(), 6291537);
    assert!(rt; matches!(told, Told::Stopped(_)));
    Ok(())
}
