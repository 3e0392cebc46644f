// The records of a buffer, one after another: each is run by itself and shown.
ghost use Rattle.std.specs.Prelude.{◌≡◌, ◌≤◌, false, length};
ghost use Rattle.model.specs.Lent.{lent};
ghost use Rattle.model.specs.Inner.{SoundSlices};
ghost use Rattle.trace.specs.Offers.{offer_verdict};
ghost use Rattle.trace.specs.Turns.{Traced};

use crate::page;
use layout::Geometry;
use model::{Access, Event, Ran, Refusal, Stop};
use output::Output;
use records::Item;

// Within one buffer: the place of the next record in it, the bytes of text that wait to be printed, the bytes of events, why
// the runner stopped last, whether a whole record may stand there, whether printing failed. Both flags are told of a turn that has
// a place and text besides, so that a Result of it would say no less.
#[derive(Clone, Copy)]
pub(crate) struct Turn {
    pub at: usize,
    pub put: usize,
    pub written: u64,
    pub stop: Option<Stop>,
    pub more: bool,
    pub lost: bool,
}

// What the command at a place offers.
fn offered_at(s: &[u8], at: usize) -> Option<Access> {
    match records::item_at(s, at) {
        Item::Command { command, .. } => command.access(),
        _ => None,
    }
}

// The refusal that an event tells, if any.
// A Result, as the verdict of a call is.
fn refusal_of(e: Event) -> Result<(), Refusal>
    ensures { result ≡ offer_verdict e }
{
    match e {
        Event::Refused(n) => Err(n),
        Event::Answered { .. }
        | Event::ReadQueued(_)
        | Event::WriteBackQueued { .. }
        | Event::Released(_)
        | Event::ReadSent(_)
        | Event::WriteBackSent { .. }
        | Event::Filled(_)
        | Event::Ticked => Ok(()),
    }
}

// Whether the first of a command's events is a refusal.
fn refusal_in(events: &[u8]) -> Result<(), Refusal> {
    match records::item_at(events, 0) {
        Item::Event { event, .. } => refusal_of(event),
        _ => Ok(()),
    }
}

// Under a refused access what it waits for. A refusal left the tables as they were.
fn put_wait(
    g: Geometry,
    longs: &[u64],
    words: &[u32],
    marks: &[u8],
    offer: Option<Access>,
    refusal: Result<(), Refusal>,
    out: &mut [u8],
    at: usize,
) -> usize
    requires { SoundSlices g.settings (lent longs.now words.now marks.now) }
{
    let (Some(x), Err(n)) = (offer, refusal) else {
        return at;
    };
    let reason = reasons::reason_held(g, longs, words, marks, x, n);
    page::put_reason(reason, out, at)
}

// Where the record at a place ends; the end of the bytes where no whole command stands there.
fn record_end(s: &[u8], at: usize) -> usize
    requires { at ≤ length s.now }
    ensures { at ≤ result }
{
    match records::item_at(s, at) {
        Item::Command { next, .. } => next.max(at),
        _ => s.len(),
    }
}

// Prints the first n bytes of a page; says whether they went.
pub(crate) fn print(to: Output, page: &[u8], n: usize) -> bool {
    to.write(text::front(page, n))
}

// Prints what waits where few places are free: no command takes 1,024 bytes.
fn with_room(to: Output, out: &[u8], t: Turn) -> Turn
    ensures { result.at ≡ t.at }
{
    if 1024 <= out.len().saturating_sub(t.put) {
        return t;
    }
    let done = print(to, out, t.put);
    Turn {
        put: 0,
        more: t.more & done,
        lost: !done,
        ..t
    }
}

// The runner stops at this record, or there is none.
fn halted(t: Turn, stop: Option<Stop>) -> Turn
    ensures { (result.at ≡ t.at) × (result.more ≡ false) }
{
    Turn {
        stop,
        more: false,
        ..t
    }
}

// The command that a turn stands at, the events that it wrote and, where it was refused, what it waits for; `place` is that of the buffer
// in the stream.
fn put_record(
    g: Geometry,
    longs: &[u64],
    words: &[u32],
    marks: &[u8],
    bytes: &[u8],
    place: u64,
    told: &[u8],
    out: &mut [u8],
    t: Turn,
) -> usize
    requires { SoundSlices g.settings (lent longs.now words.now marks.now) }
{
    let here = place.wrapping_add(t.at as u64);
    let a = page::put_command_at(bytes, t.at, here, out, t.put);
    let b = page::put_events(told, out, a);
    let offer = offered_at(bytes, t.at);
    put_wait(g, longs, words, marks, offer, refusal_in(told), out, b)
}

// Behind a record that was run, with so much text.
fn passed(t: Turn, ran: Ran, put: usize) -> Turn
    ensures { result.at ≡ ran.consumed }
{
    Turn {
        at: ran.consumed,
        put,
        written: t.written.wrapping_add(ran.written as u64),
        stop: ran.stop,
        more: ran.stop.is_none(),
        lost: false,
    }
}

// The record at a place of the buffer, run by itself and shown; `place` is that of the buffer in the stream.
fn trace_one(
    to: Output,
    g: Geometry,
    bytes: &[u8],
    place: u64,
    events: &mut [u8],
    longs: &mut [u64],
    words: &mut [u32],
    marks: &mut [u8],
    out: &mut [u8],
    t: Turn,
) -> Turn
    requires sound { SoundSlices g.settings (lent longs.old words.old marks.old) }
    requires at_in_bounds { t.at ≤ length bytes.now }
    ensures { Traced g.settings (length bytes.now) t result (lent longs.new words.new marks.new) }
{
    let at = t.at;
    let end = record_end(bytes, at);
    let part = text::front(bytes, end);
    let ran = running::run_records(g, part, at, events, 0, longs, words, marks);
    if ran.consumed <= at {
        return halted(t, ran.stop);
    }
    let told = text::front(events, ran.written);
    let put = put_record(g, longs, words, marks, bytes, place, told, out, t);
    with_room(to, out, passed(t, ran, put))
}

// The whole records of a buffer.
pub(crate) fn trace_records(
    to: Output,
    g: Geometry,
    bytes: &[u8],
    place: u64,
    events: &mut [u8],
    longs: &mut [u64],
    words: &mut [u32],
    marks: &mut [u8],
    out: &mut [u8],
    put: usize,
) -> Turn
    requires { SoundSlices g.settings (lent longs.old words.old marks.old) }
    ensures { SoundSlices g.settings (lent longs.new words.new marks.new) }
{
    let mut t = Turn {
        at: 0,
        put,
        written: 0,
        stop: None,
        more: true,
        lost: false,
    };
    // Each turn's state says whether there is another: no list is walked.
    while t.more {
        t = trace_one(to, g, bytes, place, events, longs, words, marks, out, t);
    }
    t
}
