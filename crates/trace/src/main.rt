// Traces a command stream of any length, from standard input or the file that the first argument names: each command with
// its events under it, in words, and under a refused access what it waits for. One last line on standard error says why
// the run stops and what was consumed and written.
#![tactic(auto)]

mod page;
mod turns;
mod work;

ghost use Rattle.std.specs.Prelude.{◌≡◌, take};
ghost use Rattle.model.specs.Lent.{lent};
ghost use Rattle.model.specs.Inner.{SoundSlices};
ghost use Rattle.running.specs.Begin.{first_record};
ghost use Rattle.streaming.specs.First.{Opened};
ghost use Rattle.trace.specs.Turns.{Over};

use input::Source;
use model::{Settings, Stop};
use output::Output;
use streaming::{first, rooms};
use work::Work;

// Behind settings that are accepted, a record of `size` bytes, of which `have` bytes were read.
fn trace_behind(
    source: &mut Source,
    to: Output,
    s: Settings,
    size: usize,
    buf: &mut [u8],
    longs: &mut [u64],
    words: &mut [u32],
    marks: &mut [u8],
    have: usize,
) -> Work
    requires { SoundSlices s (lent longs.old words.old marks.old) }
    ensures { Over result.run }
{
    let mut space = [0u8; 65536];
    let out: &mut [u8] = &mut space;
    let put = page::put_command_at(text::front(buf, have), 0, 0, out, 0);
    let rest = input::carry(buf, size, have);
    let start = work::begun(size, rest, put);
    work::trace_rest(source, to, s, buf, longs, words, marks, out, start)
}

// The first record, then the rest.
fn trace_all(
    source: &mut Source,
    to: Output,
    opening: Result<(Settings, usize), Option<Stop>>,
    buf: &mut [u8],
    longs: &mut [u64],
    words: &mut [u32],
    marks: &mut [u8],
    first: streaming::work::Work,
) -> Work
    requires { Opened buf.old first × (opening ≡ first_record (take first.have buf.old)) }
    ensures { Over result.run }
{
    let have = first.have;
    match running::begin(opening, longs, words, marks) {
        Err(stop) => work::at_once(first, stop),
        Ok((settings, next)) => {
            trace_behind(source, to, settings, next, buf, longs, words, marks, have)
        }
    }
}

// Lends what the stream's own settings ask for.
fn trace_stream(
    source: &mut Source,
    to: Output,
    buf: &mut [u8],
    first: streaming::work::Work,
) -> Work
    requires { Opened buf.old first }
    ensures { Over result.run }
{
    let opening = running::first_record(text::front(buf, first.have));
    let n = running::lengths_for(opening);
    let mut longs = [0u64; rooms::LONGS];
    let mut words = [0u32; rooms::WORDS];
    let mut marks = [0u8; rooms::MARKS];
    let a = n.longs;
    let b = n.words;
    let c = n.marks;
    trace_all(
        source,
        to,
        opening,
        buf,
        &mut longs[..a],
        &mut words[..b],
        &mut marks[..c],
        first,
    )
}

// Traces the stream that is named or comes on standard input.
fn main(rt: HostRuntime) {
    let to = Output::new(rt.stdout(), rt.stderr());
    let Some(mut source) = input::open_input(&rt, rt.stdin(), to) else {
        return;
    };
    let mut space = [0u8; 65536];
    let buf: &mut [u8] = &mut space;
    let first = first::read_first(&mut source, to, buf);
    if first.has_failed() {
        return;
    }
    let last = trace_stream(&mut source, to, buf, first);
    if last.run.has_stopped() {
        work::last_line(to, buf, last.run);
    }
}
