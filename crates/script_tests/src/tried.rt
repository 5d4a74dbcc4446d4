//! Running a script.
use script::tell::{Told, tell};
use std::alloc::Global;
use std::process::Abort;
use std::test::Fail;

/// Checks what a script is answered with, and whether it is answered whole.
pub(crate) fn check_script(
    rt: &impl Abort,
    heap: Global,
    script: &[u8],
    answers: &str,
    whole: bool,
) -> Result<(), Fail> {
    let told = tell(heap, script)?;
    assert_eq!(rt; told.text(), answers);
    assert_eq!(rt; matches!(told, Told::Whole(_)), whole);
    Ok(())
}
