// A command, its events and what a refused access waits for, as text: behind a place of a slice, as `text` and `wording` put it.
use model::{Command, Event};
use reasons::Reason;
use records::Item;
use wording::{commands, events, stops};

// The end of a line.
fn put_line_end(out: &mut [u8], at: usize) -> usize {
    text::put_text(b"\n", out, at)
}

// What stands under a command begins here.
fn put_indent(out: &mut [u8], at: usize) -> usize {
    text::put_text(b"                ", out, at)
}

// A command's line, with its place.
fn put_command(c: Command, place: u64, out: &mut [u8], at: usize) -> usize {
    let a = text::put_right(place, 12, out, at);
    let b = text::put_text(b"  ", out, a);
    let d = commands::put_command(c, out, b);
    put_line_end(out, d)
}

// An event's line, under its command.
fn put_event(e: Event, out: &mut [u8], at: usize) -> usize {
    let a = put_indent(out, at);
    let b = events::put_event(e, out, a);
    put_line_end(out, b)
}

// The command at an index of some bytes of a stream, which has its place in the whole stream in front.
pub(crate) fn put_command_at(s: &[u8], at: usize, place: u64, out: &mut [u8], put: usize) -> usize {
    let Item::Command { command, .. } = records::item_at(s, at) else {
        return put;
    };
    put_command(command, place, out, put)
}

// The events of a command, a line each. What is no event ends the list: a command writes only events.
pub(crate) fn put_events(s: &[u8], out: &mut [u8], at: usize) -> usize {
    let mut put = at;
    let mut place = 0;
    while let Item::Event { event, next } = records::item_at(s, place) {
        put = put_event(event, out, put);
        place = next;
    }
    put
}

// A number and what is counted.
fn put_count(n: usize, one: &[u8], more: &[u8], out: &mut [u8], at: usize) -> usize {
    let a = text::put_decimal(n as u64, out, at);
    if n == 1 {
        text::put_text(one, out, a)
    } else {
        text::put_text(more, out, a)
    }
}

// Whether the read of a sector was sent.
fn put_sent(sent: bool, out: &mut [u8], at: usize) -> usize {
    if sent {
        text::put_text(b", sent, ", out, at)
    } else {
        text::put_text(b", still queued, ", out, at)
    }
}

// The miss entry that an access waits for.
fn put_entry(address: u64, sent: bool, readers: usize, out: &mut [u8], at: usize) -> usize {
    let a = text::put_text(b"waits for the sector at ", out, at);
    let b = text::put_hex(address, out, a);
    let c = put_sent(sent, out, b);
    put_count(readers, b" reader", b" readers", out, c)
}

// How many dirty lines are missing, and of how many.
fn put_lines(
    missing: usize,
    dirty: usize,
    lines: usize,
    percent: usize,
    out: &mut [u8],
    at: usize,
) -> usize {
    let a = put_count(missing, b" more dirty line", b" more dirty lines", out, at);
    let b = stops::put_number(b" would let the set go (", dirty as u64, out, a);
    let c = stops::put_number(b" of ", lines as u64, out, b);
    let d = stops::put_number(b" dirty, ", percent as u64, out, c);
    text::put_text(b" percent asked)", out, d)
}

// What a send takes, of the event that it would tell.
fn put_head(head: Event, out: &mut [u8], at: usize) -> usize {
    match head {
        Event::ReadSent(address) => {
            let a = text::put_text(b"the read of ", out, at);
            text::put_hex(address, out, a)
        }
        Event::WriteBackSent { block, .. } => {
            let a = text::put_text(b"the write-back of ", out, at);
            text::put_hex(block, out, a)
        }
        Event::Answered { .. }
        | Event::Refused(_)
        | Event::ReadQueued(_)
        | Event::WriteBackQueued { .. }
        | Event::Released(_)
        | Event::Filled(_)
        | Event::Ticked => at,
    }
}

// That a send is waited for, and what goes next.
fn put_queue(head: Event, free: usize, out: &mut [u8], at: usize) -> usize {
    let a = text::put_text(b"waits for a send: ", out, at);
    let b = put_count(
        free,
        b" queue place free, ",
        b" queue places free, ",
        out,
        a,
    );
    let c = put_head(head, out, b);
    text::put_text(b" goes next", out, c)
}

// The words of a reason. Each kind has words and numbers of its own.
fn put_words(r: Reason, out: &mut [u8], at: usize) -> usize {
    match r {
        Reason::Entry {
            address,
            sent,
            readers,
        } => put_entry(address, sent, readers, out, at),
        Reason::Lines {
            missing,
            dirty,
            lines,
            percent,
        } => put_lines(missing, dirty, lines, percent, out, at),
        Reason::Queue { head, free } => put_queue(head, free, out, at),
        Reason::Nothing => text::put_text(b"no wait will help", out, at),
    }
}

// What a refused access waits for, a line under its events.
pub(crate) fn put_reason(r: Reason, out: &mut [u8], at: usize) -> usize {
    let a = put_indent(out, at);
    let b = put_words(r, out, a);
    put_line_end(out, b)
}
