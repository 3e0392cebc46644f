// "Records" of document 01: a byte of kind, then a body whose length the kind gives. In order: `format` (its numbers), `numbers` (little-endian numbers, read
// and put), `reader` (records and items read out of a stream), `writer` (their bytes, put where there is room; the
// that are public ask for it), `masks` (the bytes that a write-back marks); here the public writer, which looks for room first.
#![tactic(auto)]

mod format;
mod masks;
mod numbers;
mod reader;
mod writer;

ghost use Rattle.std.specs.Prelude.{◌≡◌, ◌+◌, leb};
ghost use Rattle.records.specs.Stores.{Stored};

pub use format::{EVENT_ROOM, LONGEST, ROUND_ROOM, WAIT_ROOM};
pub use masks::dirty_bytes;
use model::{Command, Event};
pub use numbers::Number;
pub use reader::{
    body_of, command_of, event_of, is_command, is_settings, item_at, length_of, read_at,
};
pub use writer::{Recorded, put_access, put_filled, put_sent, put_ticked};

// What stands at a place of a log or a stream: a command or an event, with the place behind it, or why there is neither. Six answers and no
// Result: a program that shows them all has words for each.
#[derive(Clone, Copy)]
pub enum Item {
    Command { command: Command, next: usize },
    Event { event: Event, next: usize },
    // No byte is left.
    End,
    // The body wants more bytes than are left behind its kind.
    Cut { kind: u8, wants: u8, left: usize },
    // A kind in neither list.
    Unknown(u8),
    // A body that is no event's.
    Strange(u8),
}

// Whether n bytes from a place on are within a length.
// `text` has the same over a slice; neither is below the other.
fn has_room(len: usize, at: usize, n: usize) -> bool
    ensures { result ≡ leb (at + n) len }
{
    at <= len && n <= len - at
}

// Writes the records of an event, a command or what a call tells at a place, where there is room for all of them; says how many bytes.
// 0 for no room, and no Option: `Stored` says so, and C gets this number.
pub fn encode<T: Recorded>(x: T, out: &mut [u8], at: usize) -> usize
    ensures stored { Stored out.old at (T.bytes x) result out.new }
    ensures fits { T.Fits x }
{
    let n = x.size();
    if !has_room(out.len(), at, n) {
        return 0;
    }
    x.write(out, at);
    n
}
