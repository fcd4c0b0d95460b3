use std::error::Error;
use std::fmt;

/// Why a line spells no command: its first fault, in the order of the variants. Of the arguments,
/// it is that of the first faulty one from the left. Arguments are numbered from 1.
#[derive(Clone, Copy, Debug, PartialEq)]
pub enum LineFault {
    /// The line has more than 8192 bytes.
    TooLong,
    /// It holds a NUL or an LF.
    BadByte,
    /// It doesn't begin with `[`, a number, `]` and one space.
    NoTime,
    /// What follows up to the first semicolon is no command's name.
    UnknownCommand,
    /// A semicolon follows a command that has no arguments.
    ExtraArgument,
    /// The line ends before this argument.
    MissingArgument(u32),
    /// This argument is a name, and empty.
    EmptyName(u32),
    /// This argument isn't a number, or out of its range.
    BadNumber(u32),
    /// No memory is left. It is reported only of a line without a fault, whose command has a name
    /// or a text.
    OutOfMemory,
}

impl LineFault {
    /// The number of the faulty argument, where it is one, and what is wrong with it or the line.
    fn phrase(self) -> (Option<u32>, &'static str) {
        match self {
            Self::TooLong => (None, "command line too long: more than 8192 bytes"),
            Self::BadByte => (None, "the command line holds a NUL or an LF"),
            Self::NoTime => (
                None,
                "the command line does not begin with a time in brackets and one space",
            ),
            Self::UnknownCommand => (None, "unknown command"),
            Self::ExtraArgument => (None, "the command takes no argument"),
            Self::MissingArgument(number) => (Some(number), "is missing"),
            Self::EmptyName(number) => (Some(number), "is an empty name"),
            Self::BadNumber(number) => (Some(number), "is not a number in its range"),
            Self::OutOfMemory => (None, "out of memory"),
        }
    }
}

impl fmt::Display for LineFault {
    fn fmt<W: fmt::Write>(&self, f: &mut fmt::Formatter<W>) -> fmt::Result {
        match self.phrase() {
            (Some(number), phrase) => write!(f, "argument {number} {phrase}"),
            (None, phrase) => f.write_str(phrase),
        }
    }
}

impl Error for LineFault {}
