// Runs a command stream of any length up to its last record, a read or a write, from standard input or the file that the
// first argument names; then the rounds of demand 3 for that access, each round's events in words on standard output, and
// a last line: in which round it was accepted, or that no wait will help. Where there is nothing to wait for, standard
// error says why.
#![tactic(auto)]

mod last;
mod page;
mod says;
mod waiting;

ghost use Rattle.std.specs.Prelude.{◌≡◌, ◌≤◌, length, take};
ghost use Rattle.model.specs.Lent.{lent};
ghost use Rattle.running.specs.Begin.{first_record};
ghost use Rattle.running.specs.Lengths.{lengths_for, Long};
ghost use Rattle.streaming.specs.declared.scope.Scope.TheVariants as scope;
ghost use Rattle.streaming.specs.First.{Opened};
ghost use Rattle.streaming.specs.Halts.{Claims};
ghost use Rattle.streaming.specs.Parts.{Ready};

use input::Source;
use last::Last;
use model::{Settings, Stop};
use output::Output;
use streaming::scope::Scope;
use streaming::work::Work;
use streaming::{first, parts, rooms};

// At the end of the input: the last record is what waits in the buffer.
fn wait_last(
    to: Output,
    s: Settings,
    buf: &[u8],
    longs: &mut [u64],
    words: &mut [u32],
    marks: &mut [u8],
    w: Work,
)
    requires { Ready s scope.BeforeLast (lent longs.old words.old marks.old) buf.now w }
{
    let rest = text::front(buf, w.have);
    match last::last_of(rest) {
        Ok(Last::Offer(x)) => {
            let _ = waiting::wait_for(to, s, longs, words, marks, x, w.consumed);
        }
        Ok(Last::Other(c)) => says::no_access(to, c, w.consumed),
        Ok(Last::Nothing) => says::only_settings(to),
        Err(stop) => says::stopped(to, stop, rest, w.consumed),
    }
}

// All before the last record, then that.
fn wait_rest(
    source: &mut Source,
    to: Output,
    s: Settings,
    buf: &mut [u8],
    longs: &mut [u64],
    words: &mut [u32],
    marks: &mut [u8],
    start: Work,
)
    requires ready { Ready s scope.BeforeLast (lent longs.old words.old marks.old) buf.old start }
    requires claims { Claims start.next start.stop start.have }
{
    let w = parts::run_rest(
        source,
        to,
        s,
        buf,
        longs,
        words,
        marks,
        start,
        Scope::BeforeLast,
    );
    if !w.has_stopped() {
        return;
    }
    if let Some(stop) = w.stop {
        says::stopped(to, stop, text::front(buf, w.have), w.consumed);
        return;
    }
    wait_last(to, s, buf, longs, words, marks, w);
}

// The first record, then the rest, on slices as long as the stream's settings ask.
fn wait_all(
    source: &mut Source,
    to: Output,
    first: Result<(Settings, usize), Option<Stop>>,
    buf: &mut [u8],
    longs: &mut [u64],
    words: &mut [u32],
    marks: &mut [u8],
    w: Work,
)
    requires opened { Opened buf.old w }
    requires in_bounds { 64 ≤ length buf.old }
    requires long { Long (lent longs.old words.old marks.old) (lengths_for (take w.have buf.old)) }
    requires first_value { first ≡ first_record (take w.have buf.old) }
{
    match parts::start(first, buf, longs, words, marks, w) {
        Err(stopped) => {
            let stop = stopped.stop;
            says::first_stop(to, stop, text::front(buf, stopped.have));
        }
        Ok((settings, work)) => { wait_rest(source, to, settings, buf, longs, words, marks, work) }
    }
}

// Lends what the stream's own settings ask for, so that stop 2 never comes.
fn wait_stream(source: &mut Source, to: Output, buf: &mut [u8], w: Work)
    requires opened { Opened buf.old w }
    requires in_bounds { 64 ≤ length buf.old }
{
    let first = running::first_record(text::front(buf, w.have));
    let n = running::lengths_for(first);
    let mut longs = [0u64; rooms::LONGS];
    let mut words = [0u32; rooms::WORDS];
    let mut marks = [0u8; rooms::MARKS];
    let a = n.longs;
    let b = n.words;
    let c = n.marks;
    wait_all(
        source,
        to,
        first,
        buf,
        &mut longs[..a],
        &mut words[..b],
        &mut marks[..c],
        w,
    );
}

// Runs a stream up to its last record and shows the rounds for that.
fn main(rt: HostRuntime) {
    let to = Output::new(rt.stdout(), rt.stderr());
    let Some(mut source) = input::open_input(&rt, rt.stdin(), to) else {
        return;
    };
    let mut space = [0u8; 65536];
    let buf: &mut [u8] = &mut space;
    let first = first::read_first(&mut source, to, buf);
    if first.has_failed() {
        return;
    }
    wait_stream(&mut source, to, buf, first);
}
