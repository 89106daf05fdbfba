//! The programs, and the lines that they write on their error outputs.

ghost use Rattle.std.specs.Prelude.{◌≡◌};
ghost use Rattle.relay_commands.specs.Programs.{fault_line, usage_line};

use relay_streams::RelayError;

/// A program, whose command line this is.
#[derive(Clone, Copy, Debug, PartialEq, Eq)]
pub enum Program {
    /// Relays a program's output as frames, or shows what was relayed.
    Screenrelay,
    /// Relays a program's output as it comes.
    Screenlive,
    /// Prints the screen that a program's output leaves.
    Screencat,
}

// The line of a program of this name at a fault.
macro_rules! fault_line {
    ($name:literal, $error:expr) => {
        match $error {
            RelayError::Read => concat!($name, ": read\n"),
            RelayError::Write => concat!($name, ": write\n"),
            RelayError::Memory => concat!($name, ": memory\n"),
            RelayError::TooManyReads => concat!($name, ": too many reads\n"),
            RelayError::FrameTooLong => concat!($name, ": frame too long\n"),
        }
    };
}

impl Program {
    // What is written for arguments that aren't understood.
    pub(crate) fn usage_line(self) -> &'static str
        ensures { result.now ≡ usage_line self }
    {
        match self {
            Program::Screenrelay => "usage: screenrelay relay|show ROWS COLS\n",
            Program::Screenlive => "usage: screenlive ROWS COLS [--no-line-drawing]\n",
            Program::Screencat => "usage: screencat ROWS COLS [--no-line-drawing]\n",
        }
    }

    // What is written at a fault.
    pub(crate) fn fault_line(self, error: RelayError) -> &'static str
        ensures { result.now ≡ fault_line self error }
    {
        match self {
            Program::Screenrelay => fault_line!("screenrelay", error),
            Program::Screenlive => fault_line!("screenlive", error),
            Program::Screencat => fault_line!("screencat", error),
        }
    }
}
