// Runs streams by `runner::run`, and parts that go on by `runner::resume`, as a script from standard input writes them, on tables and an event room full of stale
// numbers, and prints how each run stops and what it leaves. The expected output, `stdout`, is from document 01: the whole
// run's 45 bytes stand there; the rest is worked out by the reference, which is written from document 01 alone and reads
// the same script.
//
// A script has the assembler's commands, whose bytes are put behind the stream's. Beside them:
//     test NAME        a new stream, with 256 bytes of event room and 8, 35 and 24 numbers lent
//     byte N           one byte more
//     cut N            the last N bytes fewer
//     room N           so much event room
//     lengths L W M    so many numbers of each slice
//     run              runs the stream
//     resume N         goes on with it as a part, on fresh tables of document 01's settings, lent with N for sets
//     stale N          the same on the stale tables
#![tactic(auto)]

mod runs;

use assembly::Refused;
use input::Source;
use output::Output;
use runs::Trial;

// A test's name.
fn show_name(to: Output, line: &[u8], at: usize) {
    let mut out = [0u8; 512];
    let start = text::skip_spaces(line, at);
    let end = text::put_text(text::part(line, start, line.len()), &mut out, 0);
    let next = text::put_text(b": ", &mut out, end);
    to.put(text::front(&out, next));
}

// A line that is no command.
fn on_word(to: Output, line: &[u8], t: Trial, stream: &mut [u8; 256]) -> Trial {
    let at = text::skip_spaces(line, 0);
    let end = text::word_end(line, at);
    let n = scripts::number_next(line, end);
    match text::part(line, at, end) {
        b"test" => {
            show_name(to, line, end);
            return runs::new_trial();
        }
        b"byte" => return runs::with_byte(t, n.value, stream),
        b"cut" => return runs::cut(t, n.value),
        b"room" => return runs::with_room(t, n.value),
        b"lengths" => return runs::with_lengths(t, line, end),
        b"run" => runs::on_run(to, t, stream),
        b"resume" => runs::on_resume(to, t, n.value, stream),
        b"stale" => runs::on_stale(to, t, n.value, stream),
        _ => to.put(b"a line that is none\n"),
    }
    t
}

// One line of the script: a command for the stream, or a word of the script's own.
fn one_line(to: Output, line: &[u8], t: Trial, stream: &mut [u8; 256]) -> Trial {
    match assembly::assemble_line(line, stream, t.len) {
        Ok(len) => runs::with_len(t, len),
        Err(Refused::NoRoom) => t,
        Err(Refused::Bad(_)) => on_word(to, line, t, stream),
    }
}

// A script's last line ends in a line feed.
fn run(to: Output, script: &[u8]) {
    let mut stream = [0u8; 256];
    let mut t = runs::new_trial();
    for line in script.split_inclusive(|c| *c == b'\n') {
        let Some(line) = line.strip_suffix(b"\n") else {
            return;
        };
        t = one_line(to, line, t, &mut stream);
    }
}

// Runs the script on standard input.
fn main(rt: HostRuntime) {
    let to = Output::new(rt.stdout(), rt.stderr());
    let mut source = Source::from(rt.stdin());
    let mut script = [0u8; 65536];
    let n = source.read_full(&mut script);
    run(to, text::front(&script, n));
}
