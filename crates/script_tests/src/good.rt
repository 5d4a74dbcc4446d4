//! Scripts that are answered whole.
use crate::tried::check_script;
use std::test::Fail;

#[test]
fn opened(rt: HostRuntime) -> Result<(), Fail> {
    check_script(&rt, rt.alloc(), b"open 0 0", "opened\n", true)?;
    check_script(
        &rt,
        rt.alloc(),
        b"open 2 18446744073709551615\n",
        "opened\n",
        true,
    )
}

#[test]
fn operations(rt: HostRuntime) -> Result<(), Fail> {
    check_script(
        &rt,
        rt.alloc(),
        b"open 0 1\nadd 1 0 0 0 0 0 0\nadd 255 255 65535 255 255 65535 4294967295\nadd 14 0 65535 0 0 0 0\nadd 1 0 0 0 0 0 0",
        "opened\nadded 0 0\nrecord 1 at 0\nadded 1 1\nrefused 12\n",
        true,
    )
}

#[test]
fn positions(rt: HostRuntime) -> Result<(), Fail> {
    check_script(
        &rt,
        rt.alloc(),
        b"open 1 1\norder 0 0\nadd 1 0 0 0 0 0 0\norder 0 0\nclass 0 0\nclass 0 18446744073709551615\ncut 1\ncut 2\ncut 0\n",
        "opened\nrefused 18\nadded 0 0\nsame\nclass 0\nrefused 18\ncut 1\nrefused 18\ncut 0\n",
        true,
    )
}

#[test]
fn races(rt: HostRuntime) -> Result<(), Fail> {
    check_script(
        &rt,
        rt.alloc(),
        b"open 0 3\nadd 1 0 0 0 0 0 0\nadd 1 1 0 0 0 0 0\nlist 0\nadd 14 0 9 0 0 0 0\nadd 13 1 9 0 0 0 0\norder 0 2\norder 2 0\norder 2 3\nclass 3 2\nlist 0\nlist 2\n",
        "opened\nadded 0 0\nadded 1 0\nlisted 0\nadded 2 1\nadded 3 1\nbefore\nafter\nunordered\nclass 1\nneeds 1\nlisted 1\n2 3 1\n7 7 7\n",
        true,
    )
}
