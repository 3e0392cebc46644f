// Runs the calls of `cache` on small lent tables by a script from standard input, and prints the outcome of each call that
// the script asks about. The expected output, `stdout`, is from document 01: the fourteen accesses and the whole run stand
// there; the rest is worked out by the reference, which is written from document 01 alone and reads the same script.
//
// A script has the assembler's commands, each made as a call; `settings` makes the tables fresh, of the lengths that those
// settings ask for. Beside them:
//     test NAME              the outcome of the next call is printed behind the name
//     lengths L W M          from here on so many numbers of each slice are lent
//     long AT N              place AT of the 64-bit numbers becomes N; `word` and `mark` for the other two slices
//     fresh, check           these two calls
//     masked ADDRESS MASK    a read with a mask
//     dirty N                how many of the first N lines are dirty
#![tactic(auto)]

mod calls;
mod outcomes;

use calls::{Bench, Deed};
use input::Source;
use output::Output;

// Writes the first n bytes to standard output.
fn write_out(to: Output, out: &[u8], n: usize) {
    to.put(text::front(out, n));
}

// A test's name.
fn show_name(to: Output, line: &[u8], at: usize) {
    let mut out = [0u8; 512];
    let start = text::skip_spaces(line, at);
    let end = text::put_text(text::part(line, start, line.len()), &mut out, 0);
    let next = text::put_text(b": ", &mut out, end);
    write_out(to, &out, next);
}

// Makes a call; its outcome is printed where that was asked for, and what a refused call left.
fn on_deed(
    to: Output,
    d: Deed,
    b: Bench,
    longs: &mut [u64; 16],
    words: &mut [u32; 64],
    marks: &mut [u8; 64],
) -> Bench {
    let long = *longs;
    let word = *words;
    let mark = *marks;
    let mut out = [0u8; 512];
    let o = calls::perform(d, b, longs, words, marks, &mut out);
    let unchanged = scripts::same_tables(longs, &long, words, &word, marks, &mark);
    let end = outcomes::put_left(o.refused, unchanged, &mut out, o.end);
    let next = text::put_text(b"\n", &mut out, end);
    if b.asked {
        write_out(to, &out, next);
    }
    calls::asking(b, false)
}

// A read with a mask, which refusal 4 is for.
fn on_masked(
    to: Output,
    line: &[u8],
    at: usize,
    b: Bench,
    longs: &mut [u64; 16],
    words: &mut [u32; 64],
    marks: &mut [u8; 64],
) -> Bench {
    let address = scripts::number_next(line, at);
    let mask = scripts::number_next(line, address.next);
    on_deed(
        to,
        calls::offered_read(address.value, calls::word_of(mask.value), 0),
        b,
        longs,
        words,
        marks,
    )
}

// A line that puts a number into a slice, or says what else it is.
fn on_number(
    to: Output,
    line: &[u8],
    at: usize,
    longs: &mut [u64; 16],
    words: &mut [u32; 64],
    marks: &mut [u8; 64],
) {
    let end = text::word_end(line, at);
    let place = scripts::number_next(line, end);
    let n = scripts::number_next(line, place.next);
    match text::part(line, at, end) {
        b"long" => calls::put(longs, place.value, n.value),
        b"word" => calls::put(words, place.value, calls::word_of(n.value)),
        b"mark" => calls::put(marks, place.value, calls::mark_of(n.value)),
        _ => to.put(b"a line that is none\n"),
    }
}

// A line that is no command.
fn on_word(
    to: Output,
    line: &[u8],
    b: Bench,
    longs: &mut [u64; 16],
    words: &mut [u32; 64],
    marks: &mut [u8; 64],
) -> Bench {
    let at = text::skip_spaces(line, 0);
    let end = text::word_end(line, at);
    match text::part(line, at, end) {
        b"test" => {
            show_name(to, line, end);
            calls::asking(b, true)
        }
        b"lengths" => calls::with_lengths(b, line, end),
        b"fresh" => on_deed(to, Deed::Fresh, b, longs, words, marks),
        b"check" => on_deed(to, Deed::Check, b, longs, words, marks),
        b"masked" => on_masked(to, line, end, b, longs, words, marks),
        b"dirty" => {
            let n = scripts::number_next(line, end);
            on_deed(to, Deed::Dirty(n.value), b, longs, words, marks)
        }
        _ => {
            on_number(to, line, at, longs, words, marks);
            b
        }
    }
}

// One line of the script: a command, or a word of the script's own.
fn one_line(
    to: Output,
    line: &[u8],
    b: Bench,
    longs: &mut [u64; 16],
    words: &mut [u32; 64],
    marks: &mut [u8; 64],
) -> Bench {
    match assembly::parse_line(line) {
        Ok(Some(c)) => on_deed(to, Deed::from(c), calls::set_up(c, b), longs, words, marks),
        Ok(None) => b,
        Err(_) => on_word(to, line, b, longs, words, marks),
    }
}

// A script's last line ends in a line feed.
fn run(to: Output, script: &[u8]) {
    let mut longs = [0u64; 16];
    let mut words = [0u32; 64];
    let mut marks = [0u8; 64];
    let mut b = calls::empty_bench();
    for line in script.split_inclusive(|c| *c == b'\n') {
        let Some(line) = line.strip_suffix(b"\n") else {
            return;
        };
        b = one_line(to, line, b, &mut longs, &mut words, &mut marks);
    }
}

// Runs the script on standard input.
fn main(rt: HostRuntime) {
    let to = Output::new(rt.stdout(), rt.stderr());
    let mut source = Source::from(rt.stdin());
    let mut script = [0u8; 65536];
    let n = source.read_full(&mut script);
    run(to, text::front(&script, n));
}
