//! The text that the program writes to standard error.
use crate::report::Complaint;
use std::test::Fail;
use vb_script::DriveError;

#[test]
fn errors_are_told_with_the_name_of_the_program(rt: HostRuntime) -> Result<(), Fail> {
    let unreadable = DriveError::Unreadable {
        line: 18446744073709551615,
    };
    for (error, text) in [
        (unreadable, "vbits: line 18446744073709551615 can't be read"),
        (DriveError::Read, "vbits: input can't be read"),
        (DriveError::Write, "vbits: output can't be written"),
        (DriveError::Memory, "vbits: out of memory"),
    ] {
        let told = format!(in rt.alloc(); "{}", Complaint(error))?;
        assert_eq!(rt; told.as_str(), text);
    }
    Ok(())
}
