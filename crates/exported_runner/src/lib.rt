// The stream runner as C sees it (include/labintugmo.h), without the single calls: each step is called at one place then, so that the
// compiler takes it into the run. The static library `exported_runner_c` exports both functions.
#![tactic(auto)]

ghost use Rattle.std.specs.Prelude.{◌≡◌, [], ◌∷◌, length};
ghost use Rattle.model.specs.Lent.{lent};
ghost use Rattle.model.specs.Numbers.{stop_number};
ghost use Rattle.model.specs.Runner.{run, resume};
ghost use Rattle.lending.specs.Lending.{settings_from};
ghost use Rattle.exported_runner.specs.Called.{RunCalled};

use model::Ran;

// The bytes consumed and written go to the counts; the stop's number.
// The stop is a number, as the header of C says it.
fn note_run(ran: Ran, counts: &mut [u64]) -> u32
    requires { length counts.old ≡ 2 }
    ensures { (result ≡ stop_number ran.stop) × (counts.new ≡ ran.consumed ∷ ran.written ∷ []) }
{
    counts[0] = ran.consumed as u64;
    counts[1] = ran.written as u64;
    values::stop_number(ran.stop) as u32
}

// `runner::run` for C: the stop number; `counts` takes bytes consumed and written.
pub fn labintugmo_run(
    stream: &[u8],
    events: &mut [u8],
    longs: &mut [u64],
    words: &mut [u32],
    marks: &mut [u8],
    counts: &mut [u64],
) -> u32
    ensures { RunCalled (run (length events.old) stream.now (lent longs.old words.old marks.old)) (lent longs.old words.old marks.old)
        events.old counts.old result events.new counts.new (lent longs.new words.new marks.new) }
{
    if counts.len() != 2 {
        return 2;
    }
    note_run(runner::run(stream, events, longs, words, marks), counts)
}

// Goes on from kept tables and settings with the next part of a stream.
pub fn labintugmo_resume(
    settings: &[u32],
    stream: &[u8],
    events: &mut [u8],
    longs: &mut [u64],
    words: &mut [u32],
    marks: &mut [u8],
    counts: &mut [u64],
) -> u32
    ensures { RunCalled (resume (settings_from settings.now) (length events.old) stream.now (lent longs.old words.old marks.old)) (lent longs.old words.old marks.old)
        events.old counts.old result events.new counts.new (lent longs.new words.new marks.new) }
{
    if counts.len() != 2 {
        return 2;
    }
    let s = lending::settings_from(settings);
    note_run(
        runner::resume(s, stream, events, longs, words, marks),
        counts,
    )
}
