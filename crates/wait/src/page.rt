// The lines as text.
use crate::waiting::Counts;
use model::{Access, Command, Event, Refusal, Reply, Stop};
use records::Item;
use rounds::{Accepted, NotAccepted};
use wording::{commands, events, stops};

// In the assembler's words.
fn put_access(x: Access, out: &mut [u8], at: usize) -> usize {
    commands::put_command(Command::from(x), out, at)
}

// A place in the stream, in brackets.
fn put_place(place: u64, out: &mut [u8], at: usize) -> usize {
    let a = stops::put_number(b" (byte ", place, out, at);
    text::put_text(b")", out, a)
}

// How many rounds there are at the most.
fn put_most(most: usize, out: &mut [u8], at: usize) -> usize {
    let a = stops::put_number(b": at most ", most as u64, out, at);
    if most == 1 {
        text::put_text(b" round\n", out, a)
    } else {
        text::put_text(b" rounds\n", out, a)
    }
}

// The first line: the access, its place, what is queued and missed, the most rounds.
pub(crate) fn put_start(x: Access, place: u64, n: Counts, most: usize, out: &mut [u8]) -> usize {
    let a = text::put_text(b"waiting for ", out, 0);
    let b = put_access(x, out, a);
    let c = put_place(place, out, b);
    let d = stops::put_number(b", ", n.queued as u64, out, c);
    let e = stops::put_number(b" queued, ", n.missed as u64, out, d);
    let f = text::put_text(b" missed", out, e);
    put_most(most, out, f)
}

// An event on a line of its own, under its round.
// Text at a place, as in `trace`: `wording` puts it so.
fn put_event(e: Event, out: &mut [u8], at: usize) -> usize {
    let a = text::put_text(b"  ", out, at);
    let b = events::put_event(e, out, a);
    text::put_text(b"\n", out, b)
}

// The events of a round, one behind the other. What is no event ends the list: a round writes only events.
fn put_events(s: &[u8], out: &mut [u8], at: usize) -> usize {
    let mut place = 0;
    let mut end = at;
    while let Item::Event { event, next } = records::item_at(s, place) {
        end = put_event(event, out, end);
        place = next;
    }
    end
}

// A refused offer writes no event, and is told by its refusal.
pub(crate) fn put_round(round: usize, events: &[u8], reply: Reply, out: &mut [u8]) -> usize {
    let a = stops::put_number(b"round ", round as u64, out, 0);
    let b = text::put_text(b"\n", out, a);
    let c = put_events(events, out, b);
    if turns::accepted(reply) {
        return c;
    }
    put_event(reply.first, out, c)
}

// The last line: what waiting came to.
pub(crate) fn put_end(
    waiting: Result<Accepted, NotAccepted>,
    most: usize,
    out: &mut [u8],
) -> usize {
    match waiting {
        Ok(Accepted { round, answer: _ }) => {
            let a = stops::put_number(b"accepted in round ", round as u64, out, 0);
            let b = stops::put_number(b" of at most ", most as u64, out, a);
            text::put_text(b"\n", out, b)
        }
        Err(NotAccepted::Held) => text::put_text(b"held: no wait will help\n", out, 0),
        Err(NotAccepted::Refused(n)) => {
            let a = events::put_event(Event::Refused(n), out, 0);
            text::put_text(b"\n", out, a)
        }
        Err(NotAccepted::NoRoom) => text::put_text(b"too little event room\n", out, 0),
    }
}

// Why an access that is not well formed is not waited for.
pub(crate) fn put_malformed(x: Access, place: u64, out: &mut [u8]) -> usize {
    let a = events::put_event(Event::Refused(Refusal::BadAccess), out, 0);
    let b = text::put_text(b": ", out, a);
    let c = put_access(x, out, b);
    let d = put_place(place, out, c);
    text::put_text(
        b"; an address is a multiple of 32 below 2^48, a write's mask is not 0\n",
        out,
        d,
    )
}

// Why a stream that ends in another command has nothing to wait for.
pub(crate) fn put_no_access(c: Command, place: u64, out: &mut [u8]) -> usize {
    let a = text::put_text(b"the stream ends in ", out, 0);
    let b = commands::put_command(c, out, a);
    let d = put_place(place, out, b);
    text::put_text(b"; end it in the read or the write to wait for\n", out, d)
}

// Why a stream of settings alone has nothing to wait for.
pub(crate) fn put_only_settings(out: &mut [u8]) -> usize {
    text::put_text(
        b"the stream ends behind its settings; end it in the read or the write to wait for\n",
        out,
        0,
    )
}

// Why an empty stream has nothing to wait for.
pub(crate) fn put_empty(out: &mut [u8]) -> usize {
    text::put_text(
        b"the stream is empty; start it with its settings, end it in the read or the write to wait for\n",
        out,
        0,
    )
}

// Where and why the stream stopped before its last record.
pub(crate) fn put_stopped(stop: Stop, rest: &[u8], place: u64, out: &mut [u8]) -> usize {
    let a = stops::put_number(b"stop ", u8::from(stop) as u64, out, 0);
    let b = stops::put_number(b" consumed ", place, out, a);
    let c = text::put_text(b" (", out, b);
    let d = stops::put_why(Some(stop), rest, place, out, c);
    text::put_text(b"): nothing is waited for\n", out, d)
}
