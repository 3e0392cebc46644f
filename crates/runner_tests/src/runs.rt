// A stream that a script writes, its run, and what the run leaves as text.
ghost use Rattle.std.specs.Prelude.{◌<◌};

use model::{Ran, Settings};
use output::Output;

// The bytes of the stream so far, the event room, and how many numbers of each slice are lent.
#[derive(Clone, Copy)]
pub(crate) struct Trial {
    pub len: usize,
    pub room: usize,
    pub longs: usize,
    pub words: usize,
    pub marks: usize,
}

// What a run left in the tables: what stood there, fresh tables of document 01's settings, or others.
#[derive(Clone, Copy)]
enum Left {
    Unchanged,
    Fresh,
    AsRun,
}

// An empty stream with room and tables as the whole run has them.
pub(crate) fn new_trial() -> Trial {
    Trial {
        len: 0,
        room: 256,
        longs: 8,
        words: 35,
        marks: 24,
    }
}

// The trial with so many bytes of stream.
pub(crate) fn with_len(t: Trial, len: usize) -> Trial {
    Trial { len, ..t }
}

// The trial with so much event room.
pub(crate) fn with_room(t: Trial, room: u64) -> Trial {
    Trial {
        room: room as usize,
        ..t
    }
}

// The trial with lent slices of these lengths.
pub(crate) fn with_lengths(t: Trial, line: &[u8], at: usize) -> Trial {
    let longs = scripts::number_next(line, at);
    let words = scripts::number_next(line, longs.next);
    let marks = scripts::number_next(line, words.next);
    Trial {
        longs: longs.value as usize,
        words: words.value as usize,
        marks: marks.value as usize,
        ..t
    }
}

// One byte more, where there is room.
pub(crate) fn with_byte(t: Trial, n: u64, stream: &mut [u8]) -> Trial {
    let len = t.len;
    let Some(place) = stream.get_mut(len) else {
        return t;
    };
    *place = u8::try_from(n).unwrap_or(u8::MAX);
    with_len(t, len + 1)
}

// The last n bytes fewer.
pub(crate) fn cut(t: Trial, n: u64) -> Trial {
    with_len(t, t.len.saturating_sub(n as usize))
}

// Document 01's settings for the whole run and the fourteen accesses, with so many sets.
fn with_sets(sets: u64) -> Settings {
    Settings {
        sets: sets as usize,
        ways: 2,
        dirty: 50,
        misses: 2,
        readers: 2,
        queue: 4,
        rule: 0,
    }
}

// Fresh tables of those settings, in the numbers that they take.
fn make_fresh(longs: &mut [u64], words: &mut [u32], marks: &mut [u8]) {
    let l = scripts::least(longs.len(), 8);
    let w = scripts::least(words.len(), 35);
    let m = scripts::least(marks.len(), 24);
    let _ = cache::fresh(
        with_sets(1),
        &mut longs[..l],
        &mut words[..w],
        &mut marks[..m],
    );
}

// How the tables compare with the stale ones, and with those made fresh.
fn left_in(longs: &[u64], words: &[u32], marks: &[u8]) -> Left {
    let mut long = [9u64; 16];
    let mut word = [9u32; 64];
    let mut mark = [9u8; 64];
    if scripts::same_tables(longs, &long, words, &word, marks, &mark) {
        return Left::Unchanged;
    }
    make_fresh(&mut long, &mut word, &mut mark);
    if scripts::same_tables(longs, &long, words, &word, marks, &mark) {
        return Left::Fresh;
    }
    Left::AsRun
}

// A word and a number.
fn put_number(what: &[u8], n: usize, out: &mut [u8], at: usize) -> usize {
    let a = text::put_text(what, out, at);
    text::put_decimal(n as u64, out, a)
}

// Stop, bytes consumed and bytes written.
fn put_ran(r: Ran, out: &mut [u8]) -> usize {
    let a = put_number(b"stop ", values::stop_number(r.stop) as usize, out, 0);
    let b = put_number(b" consumed ", r.consumed, out, a);
    put_number(b" written ", r.written, out, b)
}

// What became of the tables.
fn put_left(left: Left, out: &mut [u8], at: usize) -> usize {
    match left {
        Left::Unchanged => text::put_text(b", tables unchanged", out, at),
        Left::Fresh => text::put_text(b", tables fresh", out, at),
        Left::AsRun => text::put_text(b", tables as run", out, at),
    }
}

// Whether the event bytes behind those written are the stale ones.
fn put_beyond(events: &[u8], written: usize, out: &mut [u8], at: usize) -> usize {
    let stale = [0xEEu8; 256];
    let end = events.len();
    if check::same(
        text::part(events, written, end),
        text::part(&stale, written, end),
    ) {
        text::put_text(b", bytes beyond unchanged\n", out, at)
    } else {
        text::put_text(b", BYTES BEYOND CHANGED\n", out, at)
    }
}

// A digit of base 16.
// Two digits, which `text` has no function for.
fn glyph(d: u8) -> u8
    requires { d < 16 }
{
    if d < 10 { 48 + d } else { 87 + d }
}

// A byte in two digits behind a space.
fn put_byte(b: u8, out: &mut [u8], at: usize) -> usize {
    let digits = [32, glyph(b / 16), glyph(b % 16)];
    text::put_text(&digits, out, at)
}

// The bytes written, on a line of their own.
fn put_events(events: &[u8], out: &mut [u8], at: usize) -> usize {
    if events.is_empty() {
        return at;
    }
    let mut end = text::put_text(b"   ", out, at);
    for b in events {
        end = put_byte(*b, out, end);
    }
    text::put_text(b"\n", out, end)
}

// How a run stops and what it leaves.
fn print(to: Output, ran: Ran, events: &[u8], longs: &[u64], words: &[u32], marks: &[u8]) {
    let mut out = [0u8; 1024];
    let written = ran.written;
    let a = put_ran(ran, &mut out);
    let b = put_left(left_in(longs, words, marks), &mut out, a);
    let c = put_beyond(events, written, &mut out, b);
    let d = put_events(text::front(events, written), &mut out, c);
    to.put(text::front(&out, d));
}

// Runs a stream on stale tables or fresh ones, on as much of each slice as the trial lends, and prints what that leaves.
fn tried<F: FnOnce(&mut [u8], &mut [u64], &mut [u32], &mut [u8]) -> Ran>(
    to: Output,
    t: Trial,
    fresh: bool,
    run: F,
)
    requires { F.IsAlwaysCallable run }
{
    let mut longs = [9u64; 16];
    let mut words = [9u32; 64];
    let mut marks = [9u8; 64];
    let mut events = [0xEEu8; 256];
    if fresh {
        make_fresh(&mut longs, &mut words, &mut marks);
    }
    let e = scripts::least(t.room, 256);
    let l = scripts::least(t.longs, 16);
    let w = scripts::least(t.words, 64);
    let m = scripts::least(t.marks, 64);
    let ran = run(
        &mut events[..e],
        &mut longs[..l],
        &mut words[..w],
        &mut marks[..m],
    );
    print(to, ran, &events, &longs, &words, &marks);
}

// Runs the stream on stale tables.
pub(crate) fn on_run(to: Output, t: Trial, stream: &[u8]) {
    let part = text::front(stream, t.len);
    tried(to, t, false, |events, longs, words, marks| {
        runner::run(part, events, longs, words, marks)
    });
}

// Goes on with the stream as a part, on fresh tables or on stale ones.
fn on_part(to: Output, t: Trial, fresh: bool, sets: u64, stream: &[u8]) {
    let part = text::front(stream, t.len);
    tried(to, t, fresh, |events, longs, words, marks| {
        runner::resume(with_sets(sets), part, events, longs, words, marks)
    });
}

// Goes on with the stream as a part, on fresh tables.
pub(crate) fn on_resume(to: Output, t: Trial, sets: u64, stream: &[u8]) {
    on_part(to, t, true, sets, stream);
}

// Goes on with it on stale tables.
pub(crate) fn on_stale(to: Output, t: Trial, sets: u64, stream: &[u8]) {
    on_part(to, t, false, sets, stream);
}
