// Outcomes of calls as text.
use model::{Answer, Event, QueueKind, Queued, Refusal, Reply};

// Where an outcome's text ends, and whether it is a refusal: both have a text, and behind a refusal goes what it left.
#[derive(Clone, Copy)]
pub(crate) struct Outcome {
    pub end: usize,
    pub refused: bool,
}

// A refusal by its number.
fn put_refused(n: Refusal, out: &mut [u8]) -> Outcome {
    let a = text::put_text(b"refused ", out, 0);
    Outcome {
        end: text::put_decimal(u8::from(n) as u64, out, a),
        refused: true,
    }
}

// What a check or fresh tables came to.
pub(crate) fn put_verdict(v: Result<(), Refusal>, passed: &[u8], out: &mut [u8]) -> Outcome {
    match v {
        Ok(()) => Outcome {
            end: text::put_text(passed, out, 0),
            refused: false,
        },
        Err(n) => put_refused(n, out),
    }
}

// How many lines are dirty.
pub(crate) fn put_dirty(n: usize, out: &mut [u8]) -> Outcome {
    let a = text::put_text(b"dirty lines ", out, 0);
    Outcome {
        end: text::put_decimal(n as u64, out, a),
        refused: false,
    }
}

// Behind a refusal: whether it changed anything.
pub(crate) fn put_left(refused: bool, unchanged: bool, out: &mut [u8], at: usize) -> usize {
    if !refused {
        return at;
    }
    if unchanged {
        text::put_text(b", tables unchanged", out, at)
    } else {
        text::put_text(b", TABLES CHANGED", out, at)
    }
}

// What it is, and its address.
fn put_address(what: &[u8], address: u64, out: &mut [u8], at: usize) -> usize {
    let a = text::put_text(what, out, at);
    text::put_hex(address, out, a)
}

// A mask behind a space.
fn put_mask(mask: u32, out: &mut [u8], at: usize) -> usize {
    let a = text::put_text(b" ", out, at);
    text::put_word(mask as u64, out, a)
}

// A write-back's four masks.
fn put_masks(masks: [u32; 4], out: &mut [u8], at: usize) -> usize {
    let mut end = text::put_text(b" masks", out, at);
    for mask in masks {
        end = put_mask(mask, out, end);
    }
    end
}

// An answer and its line.
fn put_answered(answer: Answer, line: u16, out: &mut [u8], at: usize) -> usize {
    let a = wording::names::put_answer(answer, out, at);
    let b = text::put_text(b" line ", out, a);
    text::put_decimal(line as u64, out, b)
}

// The first event of a call; the others are told beside it.
fn put_first(e: Event, out: &mut [u8], at: usize) -> usize {
    match e {
        Event::Answered { answer, line } => put_answered(answer, line, out, at),
        Event::Refused(n) => put_refused(n, out).end,
        Event::ReadQueued(address) => put_address(b"read queued ", address, out, at),
        Event::WriteBackQueued {
            block,
            m0: _,
            m1: _,
            m2: _,
            m3: _,
        } => put_address(b"write-back queued ", block, out, at),
        Event::Released(ticket) => put_address(b"released ", ticket as u64, out, at),
        Event::ReadSent(address) => put_address(b"read sent ", address, out, at),
        Event::WriteBackSent {
            block,
            m0,
            m1,
            m2,
            m3,
        } => {
            let a = put_address(b"write-back sent ", block, out, at);
            put_masks([m0, m1, m2, m3], out, a)
        }
        Event::Filled(address) => put_address(b"filled ", address, out, at),
        Event::Ticked => text::put_text(b"ticked", out, at),
    }
}

// An entry that was queued.
fn put_entry(x: Queued, out: &mut [u8], at: usize) -> usize {
    let kind = x.kind;
    let masks = x.masks;
    match kind {
        QueueKind::Read => put_address(b", read queued ", x.address, out, at),
        QueueKind::WriteBack => {
            let a = put_address(b", write-back queued ", x.address, out, at);
            put_masks(masks, out, a)
        }
    }
}

// The entries that were queued, in order.
fn put_queued(count: usize, queued: [Queued; 2], out: &mut [u8], at: usize) -> usize {
    let mut end = at;
    for x in queued.iter().take(count) {
        end = put_entry(*x, out, end);
    }
    end
}

// A ticket that was released.
fn put_ticket(ticket: u32, out: &mut [u8], at: usize) -> usize {
    let a = text::put_text(b", released ", out, at);
    text::put_decimal(ticket as u64, out, a)
}

// The tickets that were released, in order.
fn put_tickets(count: usize, tickets: [u32; 8], out: &mut [u8], at: usize) -> usize {
    let mut end = at;
    for t in tickets.iter().take(count) {
        end = put_ticket(*t, out, end);
    }
    end
}

// All that a call told, on one line.
pub(crate) fn put_reply(reply: Reply, out: &mut [u8]) -> Outcome {
    let first = reply.first;
    let queued = reply.queued;
    let tickets = reply.tickets;
    let a = put_first(first, out, 0);
    let b = put_queued(reply.queues, queued, out, a);
    Outcome {
        end: put_tickets(reply.count, tickets, out, b),
        refused: matches!(first, Event::Refused(_)),
    }
}
