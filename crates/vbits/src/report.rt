//! The texts of the program apart from its answers.
ghost use Rattle.std.specs.Prelude.{◌≡◌};
ghost use Rattle.vbits.specs.Report.{status_of};

use std::fmt;
use vb_script::DriveError;

/// The line that the program prints first at a terminal.
pub const WAITS: &str =
    "vbits: type commands, one a line, and Ctrl-D at the end; docs/COMMANDS.md lists them";

/// Returns the exit status: 0 if the program answered the whole input, 2 if it could not parse a
/// line, and 3 if a read, a write or an allocation failed.
pub fn status(ended: Result<(), DriveError>) -> u8
    ensures { result ≡ status_of ended }
{
    match ended {
        Ok(()) => 0,
        Err(DriveError::Unreadable { line: _ }) => 2,
        Err(DriveError::Read | DriveError::Write | DriveError::Memory) => 3,
    }
}

/// The text of an error on standard error: the name of the program, and the error.
#[derive(Clone, Copy)]
pub struct Complaint(pub DriveError);

impl fmt::Display for Complaint {
    fn fmt<W: fmt::Write>(&self, f: &mut fmt::Formatter<W>) -> fmt::Result {
        write!(f, "vbits: {}", self.0)
    }
}
