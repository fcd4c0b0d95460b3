use gate_model::{Kind, State};
use std::io;
use std::io::Write;

pub fn kind_name(kind: Kind) -> &'static str {
    match kind {
        Kind::Host => "host",
        Kind::Service => "service",
    }
}

pub fn state_name(state: State) -> &'static str {
    match state {
        State::Pending => "PENDING",
        State::Ok => "OK",
        State::Warning => "WARNING",
        State::Critical => "CRITICAL",
        State::Unknown => "UNKNOWN",
        State::Up => "UP",
        State::Down => "DOWN",
        State::Unreachable => "UNREACHABLE",
    }
}

/// Prints numbers in the order in which they come: `1, 4 to 6`. What follows on the last number is
/// printed with it.
#[derive(Drop)]
pub struct Spans {
    last: Option<(u32, u32)>,
    has_printed: bool,
}

impl Spans {
    pub fn new() -> Spans {
        Spans {
            last: None,
            has_printed: false,
        }
    }

    fn show_last(&mut self, output: &mut impl Write) -> io::Result<()> {
        if let Some((first, last)) = self.last {
            let separator = if self.has_printed { ", " } else { "" };
            self.has_printed = true;
            if first == last {
                write!(output, "{separator}{first}")?;
            } else {
                write!(output, "{separator}{first} to {last}")?;
            }
        }
        Ok(())
    }

    /// The next number.
    pub fn show(&mut self, number: u32, output: &mut impl Write) -> io::Result<()> {
        if let Some((first, last)) = self.last {
            if last.checked_add(1) == Some(number) {
                self.last = Some((first, number));
                return Ok(());
            }
        }
        self.show_last(output)?;
        self.last = Some((number, number));
        Ok(())
    }

    /// There are no more numbers. Where there were none at all, `none` is printed.
    pub fn end(&mut self, output: &mut impl Write) -> io::Result<()> {
        if self.last.is_none() {
            return write!(output, "none");
        }
        self.show_last(output)
    }
}
