// What is printed: a run's rounds and its events in words, and whether two runs agree.
use model::{Access, Command, Event};
use records::Item;
use rounds::{NotRun, Went};
use wording::{commands, events, stops};

// How many rounds ran, and the bytes of their events; none where none could.
pub(crate) fn went(ran: Result<Went, NotRun>) -> Went {
    ran.unwrap_or(Went {
        rounds: 0,
        written: 0,
    })
}

// In the assembler's words.
fn put_access(x: Access, out: &mut [u8], at: usize) -> usize {
    commands::put_command(Command::from(x), out, at)
}

// The case's name and its access.
pub(crate) fn put_title(name: &[u8], x: Access, out: &mut [u8], at: usize) -> usize {
    let a = text::put_text(name, out, at);
    let b = text::put_text(b", offered ", out, a);
    let c = put_access(x, out, b);
    text::put_text(b"\n", out, c)
}

// A log's events, each a line.
// As `wait` has it: what an event is called stands in `wording`, and each program frames it for itself.
fn put_events(s: &[u8], out: &mut [u8], at: usize) -> usize {
    let mut place = 0;
    let mut end = at;
    while let Item::Event { event, next } = records::item_at(s, place) {
        end = text::put_text(b"  ", out, end);
        end = events::put_event(event, out, end);
        end = text::put_text(b"\n", out, end);
        place = next;
    }
    end
}

// How many rounds ran, and their events.
pub(crate) fn put_run(name: &[u8], w: Went, log: &[u8], out: &mut [u8], at: usize) -> usize {
    let a = stops::put_number(name, w.rounds as u64, out, at);
    let b = text::put_text(b"\n", out, a);
    put_events(text::front(log, w.written), out, b)
}

// A log without 0x11; how many bytes that is.
fn leave_out(s: &[u8], out: &mut [u8]) -> usize {
    let mut at = 0;
    let mut put = 0;
    while let Item::Event { event, next } = records::item_at(s, at) {
        if !matches!(event, Event::Refused(_)) {
            put = text::put_text(text::part(s, at, next), out, put);
        }
        at = next;
    }
    put
}

// Whether the events but 0x11 are the same.
pub(crate) fn same_events(ran: Went, log: &[u8], struck: Went, struck_log: &[u8]) -> bool {
    let mut left = [0u8; 4096];
    let n = leave_out(text::front(log, ran.written), &mut left);
    check::same(
        text::front(&left, n),
        text::front(struck_log, struck.written),
    )
}

// What agrees, or not.
fn put_agree(name: &[u8], agree: bool, out: &mut [u8], at: usize) -> usize {
    let a = text::put_text(name, out, at);
    if agree {
        return text::put_text(b"agree\n", out, a);
    }
    text::put_text(b"differ\n", out, a)
}

// Whether tables and events agree.
pub(crate) fn put_same(tables: bool, events: bool, out: &mut [u8], at: usize) -> usize {
    let a = put_agree(b"the numbers of the tables ", tables, out, at);
    let b = put_agree(b"the events but 0x11 ", events, out, a);
    text::put_text(b"\n", out, b)
}
