// The stream runner of `exported_runner` under its C names (include/labintugmo.h): a static library, compiled by itself, so that each step
// is called at one place and the compiler takes it into the run.
#![tactic(auto)]

ghost use Rattle.std.specs.Prelude.{length};
ghost use Rattle.model.specs.Lent.{lent};
ghost use Rattle.model.specs.Runner.{run, resume};
ghost use Rattle.lending.specs.Lending.{settings_from};
ghost use Rattle.exported_runner.specs.Called.{RunCalled};

// `runner::run` for C: the stop number; `counts` takes bytes consumed and written.
#[unsafe(no_mangle)]
pub extern "C" fn labintugmo_run(
    stream: &[u8],
    events: &mut [u8],
    longs: &mut [u64],
    words: &mut [u32],
    marks: &mut [u8],
    counts: &mut [u64],
) -> u32
    ensures { RunCalled (run (length events.old) stream.now (lent longs.old words.old marks.old)) (lent longs.old words.old marks.old)
        events.old counts.old result events.new counts.new (lent longs.new words.new marks.new) }
{
    exported_runner::labintugmo_run(stream, events, longs, words, marks, counts)
}

// Goes on from kept tables and settings with the next part of a stream.
#[unsafe(no_mangle)]
pub extern "C" fn labintugmo_resume(
    settings: &[u32],
    stream: &[u8],
    events: &mut [u8],
    longs: &mut [u64],
    words: &mut [u32],
    marks: &mut [u8],
    counts: &mut [u64],
) -> u32
    ensures { RunCalled (resume (settings_from settings.now) (length events.old) stream.now (lent longs.old words.old marks.old)) (lent longs.old words.old marks.old)
        events.old counts.old result events.new counts.new (lent longs.new words.new marks.new) }
{
    exported_runner::labintugmo_resume(settings, stream, events, longs, words, marks, counts)
}
