// The run itself: the first record, then part by part what the buffer holds, each on the tables that the part before left.
ghost use Rattle.std.specs.Prelude.{◌≡◌, ◌+◌, ◌^◌, ◌<◌, ◌≤◌, true, length, take};
ghost use Rattle.model.specs.Lent.{lent};
ghost use Rattle.model.specs.Inner.{SoundSlices};
ghost use Rattle.model.specs.Runner.{event_room};
ghost use Rattle.running.specs.Begin.{first_record};
ghost use Rattle.running.specs.Lengths.{lengths_for, Long};
ghost use Rattle.streaming.specs.Works.{goes_next};
ghost use Rattle.streaming.specs.Halts.{Claims};
ghost use Rattle.streaming.specs.Parts.{Ready, Ran, ReadsOnce, PartTurn, Rested, Starts};

use crate::scope::Scope;
use crate::work::Work;
use input::{NoMore, Source, Waiting};
use layout::Geometry;
use model::{Settings, Stop};
use output::Output;

// Writes events to standard output, and says it if that fails.
fn write_out(to: Output, events: &[u8]) -> bool {
    to.write(events)
}

// Writes the events of a part, where they are wanted: how many bytes were handed out, and whether they went. What the system does with
// them no contract says; that these bytes are the part's events, `run_part` promises, which counts what is handed out here.
fn hand_out(to: Output, scope: Scope, events: &[u8]) -> (usize, bool)
    ensures { result.0 ≡ length events.now }
{
    let done = match scope {
        Scope::All => write_out(to, events),
        Scope::BeforeLast => true,
    };
    (events.len(), done)
}

// Of the bytes that wait runs what is in scope as far as it goes, and moves what is left of them to the front.
fn run_part(
    to: Output,
    g: Geometry,
    buf: &mut [u8],
    events: &mut [u8],
    longs: &mut [u64],
    words: &mut [u32],
    marks: &mut [u8],
    w: Work,
    scope: Scope,
) -> Work
    requires sound { SoundSlices g.settings (lent longs.old words.old marks.old) }
    requires have_in_bounds { w.have ≤ length buf.old }
    requires have_bound { w.consumed + w.have < 2 ^ 64 }
    ensures { Ran g.settings scope (take w.have buf.old) events.old (lent longs.old words.old marks.old)
        w result buf.new events.new (lent longs.new words.new marks.new) }
{
    let have = w.have;
    let end = scope.part_end(text::front(buf, have));
    let part = text::front(buf, end);
    let ran = running::run_records(g, part, 0, events, 0, longs, words, marks);
    let (written, done) = hand_out(to, scope, text::front(events, ran.written));
    let rest = input::carry(buf, ran.consumed, have);
    let v = w.behind(ran.stop, ran.consumed, written, rest);
    if done { v } else { v.failed() }
}

// Reads once: what came waits to be run, or the input has ended. No room in the buffer is a failure.
pub fn read_part(source: &mut Source, to: Output, buf: &mut [u8], w: Work) -> Work
    ensures { ReadsOnce buf.old w result buf.new }
{
    match source.read_more(to, buf, w.have, w.left) {
        Ok(Waiting { have, left }) => w.read(have, left),
        Err(NoMore::End(end)) => w.ended(end),
        Err(NoMore::Full | NoMore::Failed(_)) => w.failed(),
    }
}

// One turn: reads, or runs what waits. `run_part` is called here alone, so that the compiler takes it in. The buffer is never full where it
// reads.
fn turn(
    source: &mut Source,
    to: Output,
    g: Geometry,
    buf: &mut [u8],
    events: &mut [u8],
    longs: &mut [u64],
    words: &mut [u32],
    marks: &mut [u8],
    w: Work,
    scope: Scope,
) -> Work
    requires ready { Ready g.settings scope (lent longs.old words.old marks.old) buf.old w }
    requires next_value { goes_next w.next ≡ true }
    requires event_room_in_bounds { event_room ≤ length events.old }
    ensures { PartTurn g.settings scope (length events.old) (lent longs.old words.old marks.old) (take w.have buf.old)
        w result buf.new (lent longs.new words.new marks.new) }
{
    if w.reads() {
        read_part(source, to, buf, w)
    } else {
        run_part(to, g, buf, events, longs, words, marks, w, scope)
    }
}

// Turn by turn to the end: the run has stopped, or the system said that the input has ended, or reading or writing failed. The layout is
// computed once, for all parts.
pub fn run_rest(
    source: &mut Source,
    to: Output,
    s: Settings,
    buf: &mut [u8],
    longs: &mut [u64],
    words: &mut [u32],
    marks: &mut [u8],
    start: Work,
    scope: Scope,
) -> Work
    requires ready { Ready s scope (lent longs.old words.old marks.old) buf.old start }
    requires claims { Claims start.next start.stop start.have }
    ensures { Rested s scope 65536 (lent longs.old words.old marks.old) (take start.have buf.old)
        start result buf.new (lent longs.new words.new marks.new) }
{
    let g = Geometry::new(s);
    let mut space = [0u8; 65536];
    let events: &mut [u8] = &mut space;
    let mut w = start;
    // Each turn's state says whether there is another: nothing is counted.
    while w.goes_on() {
        w = turn(source, to, g, buf, events, longs, words, marks, w, scope);
    }
    w
}

// The first record, as it was read, on slices as long as its settings ask: stop 2 never comes. Settings at which the run goes on, and from
// where; or a run that has stopped.
pub fn start(
    first: Result<(Settings, usize), Option<Stop>>,
    buf: &mut [u8],
    longs: &mut [u64],
    words: &mut [u32],
    marks: &mut [u8],
    w: Work,
) -> Result<(Settings, Work), Work>
    requires have_in_bounds { w.have ≤ length buf.old }
    requires in_bounds { 64 ≤ length buf.old }
    requires left_bound { w.have + w.left < 2 ^ 64 }
    requires long { Long (lent longs.old words.old marks.old) (lengths_for (take w.have buf.old)) }
    requires first_value { first ≡ first_record (take w.have buf.old) }
    ensures { Starts (lent longs.old words.old marks.old) (take w.have buf.old) w result
        (lent longs.new words.new marks.new) buf.new }
{
    match running::begin(first, longs, words, marks) {
        Err(stop) => Err(w.stopped(stop)),
        Ok((settings, next)) => {
            let rest = input::carry(buf, next, w.have);
            Ok((settings, Work::begun(next, rest, w.left)))
        }
    }
}
