// The line that says why a log stops and what to do.
use std::fmt;

// What is no whole record: a byte that is no record's kind, a record that is cut short, a body that is no event's.
#[derive(Clone, Copy)]
pub enum Damage {
    Unknown(u8),
    Cut { kind: u8, wants: u8, left: usize },
    Strange(u8),
}

impl fmt::Display for Damage {
    fn fmt<W: fmt::Write>(&self, f: &mut fmt::Formatter<W>) -> fmt::Result {
        f.write_str("stops here: ")?;
        match *self {
            Damage::Unknown(kind) => write!(
                f,
                "{kind:#x} is no record's kind. See that this is a log or a stream, and how it was written from here on."
            ),
            Damage::Cut { kind, wants, left } => write!(
                f,
                "a record of kind {kind:#x} is cut short: its body wants {wants} bytes, {left} are left. Get the rest of the file."
            ),
            // Only answers and refusals have bodies that are no event's.
            Damage::Strange(0x10) => f.write_str(
                "an answer whose number is none of 1 to 4. Run the stream again for a sound log.",
            ),
            Damage::Strange(_) => f.write_str(
                "a refusal whose number is none of 1 to 12. Run the stream again for a sound log.",
            ),
        }
    }
}
