// Where a log stops before its end, and why.
use input::Ended;
use records::Item;
use std::fmt;

// Why a bill is not of a whole log.
#[derive(Clone, Copy)]
pub enum Lack {
    Unread,
    Command,
    CutShort,
    NoRecord,
    NoEvent,
}

// What stands at the front of some bytes that no more bytes would make an event.
pub fn damage_in(s: &[u8]) -> Option<Lack> {
    match records::item_at(s, 0) {
        Item::Command { .. } => Some(Lack::Command),
        Item::Unknown(_) => Some(Lack::NoRecord),
        Item::Strange(_) => Some(Lack::NoEvent),
        Item::Event { .. } | Item::End | Item::Cut { .. } => None,
    }
}

// What waits when the input has ended, by the system's word for it: nothing, or a record that is cut short.
pub fn left_in(_end: Ended, s: &[u8]) -> Option<Lack> {
    match records::item_at(s, 0) {
        Item::Cut { .. } => Some(Lack::CutShort),
        _ => None,
    }
}

// From which byte of the log on the bill lacks what.
#[derive(Clone, Copy)]
pub struct Stop {
    pub place: u64,
    pub why: Lack,
}

impl fmt::Display for Stop {
    fn fmt<W: fmt::Write>(&self, f: &mut fmt::Formatter<W>) -> fmt::Result {
        let why = match self.why {
            // What could not be read is not billed: a whole-looking bill of it would mislead.
            Lack::Unread => {
                return writeln!(
                    f,
                    "The log could not be read from byte {} on. The bill is of what stands before.",
                    self.place
                );
            }
            Lack::Command => "a command, and no event, stands there",
            Lack::CutShort => "its last record is cut short",
            Lack::NoRecord => "no record begins so",
            Lack::NoEvent => "its record is no event",
        };
        writeln!(
            f,
            "The log is damaged at byte {}: {why}. The bill is of what stands before; `show` lists it.",
            self.place
        )
    }
}
