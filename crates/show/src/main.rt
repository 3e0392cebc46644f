// Shows a log of events or a stream of commands, from standard input or the file that the first argument names, as plain
// text: a line a record, the place of its first byte in front. A damaged log is shown up to the damage, and a last line
// says where and why it stops.
#![tactic(auto)]

mod damage;

ghost use Rattle.std.specs.Prelude.{◌<◌, ◌≤◌, length, IfOk, IfSome};

use damage::Damage;
use input::{Ended, NoMore, Source};
use output::Output;
use records::Item;
use std::fmt;
use std::fmt::Write as _;

// The most bytes of a line.
const LINE: usize = 512;

// Why the work ends before the input does: at a damage, or writing failed.
#[derive(Clone, Copy, PartialEq, Eq, Debug)]
enum Stop {
    Damaged,
    Lost,
}

// The lines that wait to be written, how many bytes they are, and the place of the buffer's first byte in the whole input.
// A slice and no `output::Page`: `wording` puts at a place of it.
#[derive(Drop)]
struct Page<'a> {
    to: Output,
    text: &'a mut [u8],
    put: usize,
    place: u64,
}

impl fmt::Write for Page<'_> {
    fn write_str(&mut self, s: &str) -> fmt::Result {
        let at = self.put;
        self.put = text::put_text(s.as_bytes(), self.text, at);
        Ok(())
    }
}

impl Page<'_> {
    // Writes what waits.
    fn write_out(&mut self) -> Result<(), Stop> {
        let waiting = self.put;
        self.put = 0;
        if self.to.write(text::front(self.text, waiting)) {
            Ok(())
        } else {
            Err(Stop::Lost)
        }
    }

    // Writes what waits where few places are free.
    fn make_room(&mut self) -> Result<(), Stop> {
        if self.text.len().saturating_sub(self.put) < LINE {
            self.write_out()?;
        }
        Ok(())
    }

    // The place of a byte of the buffer, in its column; a page takes all that fits, and no write to it fails.
    fn put_place(&mut self, at: usize) {
        let place = self.place.wrapping_add(at as u64);
        let _ = write!(self, "{place:>12}  ");
    }

    // The line of a damage at a place of the buffer.
    fn put_damage(&mut self, at: usize, damage: Damage) {
        self.put_place(at);
        let _ = write!(self, "{damage}\n");
    }

    // The record at a place of the buffer, as a line: says where the next one stands, if more bytes need not come first.
    fn show_one(&mut self, s: &[u8], at: usize) -> Result<Option<usize>, Stop>
        ensures { IfOk result (λ o. IfSome o (λ next. (at < next) × (next ≤ length s.now))) }
    {
        self.make_room()?;
        match records::item_at(s, at) {
            Item::Command { command, next } => {
                self.put_place(at);
                let put = self.put;
                self.put = wording::commands::put_command(command, self.text, put);
                let _ = write!(self, "\n");
                Ok(Some(next))
            }
            Item::Event { event, next } => {
                self.put_place(at);
                let put = self.put;
                self.put = wording::events::put_event(event, self.text, put);
                let _ = write!(self, "\n");
                Ok(Some(next))
            }
            Item::End | Item::Cut { .. } => Ok(None),
            Item::Unknown(kind) => {
                self.put_damage(at, Damage::Unknown(kind));
                Err(Stop::Damaged)
            }
            Item::Strange(kind) => {
                self.put_damage(at, Damage::Strange(kind));
                Err(Stop::Damaged)
            }
        }
    }

    // The whole records of a buffer; says where the rest begins.
    fn show_records(&mut self, s: &[u8]) -> Result<usize, Stop> {
        let mut at = 0;
        while let Some(next) = self.show_one(s, at)? {
            at = next;
        }
        Ok(at)
    }

    // At the end of the input, by the system's word for it: what still waits is cut short.
    fn show_rest(&mut self, _end: Ended, s: &[u8]) {
        if let Item::Cut { kind, wants, left } = records::item_at(s, 0) {
            self.put_damage(0, Damage::Cut { kind, wants, left });
        }
    }

    // Shows an input to its end, or as far as it can be read.
    fn show(&mut self, source: &mut Source, buf: &mut [u8]) -> Result<(), Stop> {
        let mut have = 0;
        let mut left = u64::MAX;
        loop {
            match source.read_more(self.to, buf, have, left) {
                Ok(more) => {
                    left = more.left;
                    let at = self.show_records(text::front(buf, more.have))?;
                    have = input::carry(buf, at, more.have);
                    self.place = self.place.wrapping_add(at as u64);
                }
                Err(NoMore::End(end)) => {
                    self.show_rest(end, text::front(buf, have));
                    return Ok(());
                }
                Err(NoMore::Full | NoMore::Failed(_)) => return Ok(()),
            }
        }
    }
}

// Shows the stream or log that is named or comes on standard input. After a failed write nothing more is written.
fn main(rt: HostRuntime) {
    let to = Output::new(rt.stdout(), rt.stderr());
    let Some(mut source) = input::open_input(&rt, rt.stdin(), to) else {
        return;
    };
    let mut buf = [0u8; 65536];
    let mut text = [0u8; 65536];
    let mut page = Page {
        to,
        text: &mut text,
        put: 0,
        place: 0,
    };
    if page.show(&mut source, &mut buf) != Err(Stop::Lost) {
        let _ = page.write_out();
    }
}
