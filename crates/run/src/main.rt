// Runs a command stream of any length, from standard input or the file that the first argument names, part by part: its
// events go to standard output, and one last line on standard error says why it stops and what was consumed and written.
#![tactic(auto)]

mod says;

ghost use Rattle.std.specs.Prelude.{◌≡◌, ◌≤◌, length, take};
ghost use Rattle.model.specs.Lent.{lent};
ghost use Rattle.running.specs.Begin.{first_record};
ghost use Rattle.running.specs.Lengths.{lengths_for, Long};
ghost use Rattle.streaming.specs.First.{Opened};
ghost use Rattle.streaming.specs.Wholes.{Whole, WholeRun};

use input::Source;
use model::{Settings, Stop};
use output::Output;
use streaming::scope::Scope;
use streaming::work::Work;
use streaming::{first, parts, rooms};

// The first record, then the rest, on slices as long as the stream's settings ask.
fn run_all(
    source: &mut Source,
    to: Output,
    first: Result<(Settings, usize), Option<Stop>>,
    buf: &mut [u8],
    longs: &mut [u64],
    words: &mut [u32],
    marks: &mut [u8],
    w: Work,
) -> Work
    requires opened { Opened buf.old w }
    requires in_bounds { 64 ≤ length buf.old }
    requires long { Long (lent longs.old words.old marks.old) (lengths_for (take w.have buf.old)) }
    requires first_value { first ≡ first_record (take w.have buf.old) }
    ensures { Whole (lent longs.old words.old marks.old) (take w.have buf.old) w result
        (lent longs.new words.new marks.new) }
{
    match parts::start(first, buf, longs, words, marks, w) {
        Err(stopped) => stopped,
        Ok((settings, work)) => parts::run_rest(
            source,
            to,
            settings,
            buf,
            longs,
            words,
            marks,
            work,
            Scope::All,
        ),
    }
}

// Lends what the stream's own settings ask for, so that stop 2 never comes.
fn run_stream(source: &mut Source, to: Output, buf: &mut [u8], w: Work) -> Work
    requires opened { Opened buf.old w }
    requires in_bounds { 64 ≤ length buf.old }
    ensures { WholeRun (take w.have buf.old) w result }
{
    let first = running::first_record(text::front(buf, w.have));
    let n = running::lengths_for(first);
    let mut longs = [0u64; rooms::LONGS];
    let mut words = [0u32; rooms::WORDS];
    let mut marks = [0u8; rooms::MARKS];
    let a = n.longs;
    let b = n.words;
    let c = n.marks;
    run_all(
        source,
        to,
        first,
        buf,
        &mut longs[..a],
        &mut words[..b],
        &mut marks[..c],
        w,
    )
}

// Runs the stream that is named or comes on standard input.
fn main(rt: HostRuntime) {
    let to = Output::new(rt.stdout(), rt.stderr());
    let Some(mut source) = input::open_input(&rt, rt.stdin(), to) else {
        return;
    };
    let mut space = [0u8; 65536];
    let buf: &mut [u8] = &mut space;
    let first = first::read_first(&mut source, to, buf);
    if first.has_failed() {
        return;
    }
    let last = run_stream(&mut source, to, buf, first);
    if last.has_stopped() {
        says::last_line(to, buf, last);
    }
}
