// The stream behind its settings, buffer by buffer: the records that wait are traced, then more bytes are read.
ghost use Rattle.std.specs.Prelude.{◌≡◌, length};
ghost use Rattle.model.specs.Lent.{lent};
ghost use Rattle.model.specs.Inner.{SoundSlices};
ghost use Rattle.streaming.specs.declared.work.Next.TheVariants as next;
ghost use Rattle.streaming.specs.Works.{stopped_of};
ghost use Rattle.trace.specs.Turns.{after_records, Standing, RecordsThenRead, Over};

use crate::turns;
use crate::turns::Turn;
use input::Source;
use layout::Geometry;
use model::{Settings, Stop};
use output::Output;
use streaming::work::Next;
use streaming::{parts, work as runs};
use wording::stops;

// Where the run of the stream stands, the bytes of text that wait, whether printing failed.
// `lost` beside the run's own failure: what waits is still printed where reading failed.
#[derive(Clone, Copy)]
pub(crate) struct Work {
    pub run: runs::Work,
    pub put: usize,
    pub lost: bool,
}

// Behind settings that are accepted: a record of `size` bytes that writes no event.
pub(crate) fn begun(size: usize, have: usize, put: usize) -> Work
    ensures { result.run.next ≡ next.Run }
{
    Work {
        run: runs::Work::begun(size, have, u64::MAX),
        put,
        lost: false,
    }
}

// The first record stops the run.
pub(crate) fn at_once(first: runs::Work, stop: Option<Stop>) -> Work
    ensures { result.run ≡ stopped_of first stop }
{
    Work {
        run: first.stopped(stop),
        put: 0,
        lost: false,
    }
}

// A record that is cut short may become whole with more bytes.
// Not as `streaming` has it: where a command's events have no room, a trace ends.
fn next_of(stop: Option<Stop>) -> Next
    ensures { result ≡ after_records stop }
{
    match stop {
        None | Some(Stop::CutShort) => Next::Read,
        Some(
            Stop::NoRoom
            | Stop::SettingOutOfRange
            | Stop::SliceLength
            | Stop::NotSound
            | Stop::OutOfPlace
            | Stop::UnknownKind,
        ) => Next::Stopped,
    }
}

// Behind the records of a buffer.
fn behind(w: Work, t: Turn, have: usize) -> Work
    ensures { Standing have w.run.left result.run }
{
    let run = runs::Work {
        have,
        left: w.run.left,
        consumed: w.run.consumed.wrapping_add(t.at as u64),
        written: w.run.written.wrapping_add(t.written),
        stop: t.stop,
        next: next_of(t.stop),
    };
    if t.lost {
        return Work {
            run: run.failed(),
            put: t.put,
            lost: true,
        };
    }
    Work {
        run,
        put: t.put,
        lost: false,
    }
}

// One turn: the records that wait, then more bytes.
fn turn(
    source: &mut Source,
    to: Output,
    g: Geometry,
    buf: &mut [u8],
    events: &mut [u8],
    longs: &mut [u64],
    words: &mut [u32],
    marks: &mut [u8],
    out: &mut [u8],
    w: Work,
) -> Work
    requires { SoundSlices g.settings (lent longs.old words.old marks.old) }
    ensures { RecordsThenRead g.settings (length buf.new) w.run result.run (lent longs.new words.new marks.new) }
{
    let bytes = text::front(buf, w.run.have);
    let t = turns::trace_records(
        to,
        g,
        bytes,
        w.run.consumed,
        events,
        longs,
        words,
        marks,
        out,
        w.put,
    );
    let have = input::carry(buf, t.at, w.run.have);
    let v = behind(w, t, have);
    if v.run.goes_on() {
        return Work {
            run: parts::read_part(source, to, buf, v.run),
            put: v.put,
            lost: v.lost,
        };
    }
    v
}

// The text that still waits.
fn finished(to: Output, out: &[u8], w: Work) -> Work
    requires { Over w.run }
    ensures { Over result.run }
{
    if w.lost || turns::print(to, out, w.put) {
        return w;
    }
    Work {
        run: w.run.failed(),
        put: w.put,
        lost: true,
    }
}

// To where the stream stops, or to its end as the system told it. The layout is computed once, for all buffers.
pub(crate) fn trace_rest(
    source: &mut Source,
    to: Output,
    s: Settings,
    buf: &mut [u8],
    longs: &mut [u64],
    words: &mut [u32],
    marks: &mut [u8],
    out: &mut [u8],
    start: Work,
) -> Work
    requires sound_slices { SoundSlices s (lent longs.old words.old marks.old) }
    requires next_value { start.run.next ≡ next.Run }
    ensures { Over result.run }
{
    let g = Geometry::new(s);
    let mut space = [0u8; 4096];
    let events: &mut [u8] = &mut space;
    let mut w = start;
    // Each turn's state says whether there is another: no list is walked.
    while w.run.goes_on() {
        w = turn(source, to, g, buf, events, longs, words, marks, out, w);
    }
    finished(to, out, w)
}

// The last line: stop, bytes consumed and written, and why.
fn put_last(rest: &[u8], w: runs::Work, out: &mut [u8]) -> usize {
    let a = stops::put_number(b"stop ", values::stop_number(w.stop) as u64, out, 0);
    let b = stops::put_number(b" consumed ", w.consumed, out, a);
    let c = stops::put_number(b" written ", w.written, out, b);
    let d = text::put_text(b" (", out, c);
    let e = stops::put_why(w.stop, rest, w.consumed, out, d);
    text::put_text(b")\n", out, e)
}

// Why the run stopped, as `run` says it.
pub(crate) fn last_line(to: Output, buf: &[u8], w: runs::Work) {
    let mut page = [0u8; 4096];
    let end = put_last(text::front(buf, w.have), w, &mut page);
    to.say(text::front(&page, end));
}
