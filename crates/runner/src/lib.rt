// The stream runner (document 01, "Records"), which asks nothing of its caller: `run` runs a stream from its settings on, `resume` goes on
// from kept tables and settings with the next part. What they are made of stands in `running`.
#![tactic(auto)]

ghost use Rattle.std.specs.Prelude.{◌≡◌, length};
ghost use Rattle.model.specs.Lent.{lent};
ghost use Rattle.model.specs.Runner.{run, resume, Runs};
ghost use Rattle.runner.specs.Stops.{stop_of};

use layout::Geometry;
use model::{Ran, Refusal, Settings, Stop};

// Runs a stream: its events, and the tables as the records run left them.
pub fn run(
    stream: &[u8],
    events: &mut [u8],
    longs: &mut [u64],
    words: &mut [u32],
    marks: &mut [u8],
) -> Ran
    ensures { Runs (run (length events.old) stream.now (lent longs.old words.old marks.old))
        events.old result events.new (lent longs.new words.new marks.new) }
{
    let first = running::first_record(stream);
    match running::begin(first, longs, words, marks) {
        Err(stop) => Ran {
            stop,
            consumed: 0,
            written: 0,
        },
        Ok((settings, next)) => {
            let g = Geometry::new(settings);
            running::run_records(g, stream, next, events, 0, longs, words, marks)
        }
    }
}

// What a part that goes on stops with where the checks refuse it: 1, 2 or 3.
fn stop_of(n: Refusal) -> Stop
    ensures { result ≡ stop_of n }
{
    if n == Refusal::SettingOutOfRange {
        return Stop::SettingOutOfRange;
    }
    if n == Refusal::SliceLength {
        return Stop::SliceLength;
    }
    Stop::NotSound
}

// Goes on from kept tables and settings with the next part of a stream: its events, and the tables as its records left them.
pub fn resume(
    s: Settings,
    stream: &[u8],
    events: &mut [u8],
    longs: &mut [u64],
    words: &mut [u32],
    marks: &mut [u8],
) -> Ran
    ensures { Runs (resume s (length events.old) stream.now (lent longs.old words.old marks.old))
        events.old result events.new (lent longs.new words.new marks.new) }
{
    match soundness::checked_layout(s, longs, words, marks) {
        Err(n) => Ran {
            stop: Some(stop_of(n)),
            consumed: 0,
            written: 0,
        },
        Ok(g) => running::run_records(g, stream, 0, events, 0, longs, words, marks),
    }
}
