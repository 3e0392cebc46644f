// Demand 3 by the calls: on a busy set, on one that is held for ever, on one that is held at first, and on a full queue, the rounds and, on a
// copy of the same tables, the struck rounds, fed the flags of the first. Both logs are printed, and whether all numbers of the tables
// and all events but 0x11 agree.
#![tactic(auto)]

mod page;

use model::{Access, Settings};
use output::Output;
use rounds::Went;

// Two lines in two sets, two miss entries, two tickets in each, four places in the queue: the arrays below are as long as these ask.
fn settings(dirty: usize) -> Settings {
    Settings {
        sets: 2,
        ways: 1,
        dirty,
        misses: 2,
        readers: 2,
        queue: 4,
        rule: 0,
    }
}

// A write of a sector's first eight bytes.
fn write_to(address: u64) -> Access {
    Access::Write {
        address,
        mask: 255,
        ticket: 0,
    }
}

// Prints a case: its rounds, its struck rounds, and whether they agree.
fn print(
    to: Output,
    name: &[u8],
    x: Access,
    ran: Went,
    log: &[u8],
    struck: Went,
    struck_log: &[u8],
    same: bool,
) {
    let mut out = [0u8; 4096];
    let a = page::put_title(name, x, &mut out, 0);
    let b = page::put_run(b"rounds: ", ran, log, &mut out, a);
    let c = page::put_run(b"struck rounds: ", struck, struck_log, &mut out, b);
    let d = page::put_same(
        same,
        page::same_events(ran, log, struck, struck_log),
        &mut out,
        c,
    );
    to.put(text::front(&out, d));
}

// The rounds, four at the most, on three slices; the struck rounds on three others.
fn run_both(
    to: Output,
    name: &[u8],
    s: Settings,
    x: Access,
    longs: &mut [u64],
    words: &mut [u32],
    marks: &mut [u8],
    struck_longs: &mut [u64],
    struck_words: &mut [u32],
    struck_marks: &mut [u8],
) {
    let mut flags = [0u8; 4];
    let mut log = [0u8; 448];
    let mut struck_log = [0u8; 448];
    let ran = page::went(rounds::run_rounds(s, longs, words, marks, x, 4, &mut flags, &mut log));
    let fed = text::front(&flags, ran.rounds);
    let struck = page::went(rounds::run_struck(
        s,
        struck_longs,
        struck_words,
        struck_marks,
        x,
        fed,
        &mut struck_log,
    ));
    let same = scripts::same_tables(
        longs,
        struck_longs,
        words,
        struck_words,
        marks,
        struck_marks,
    );
    print(to, name, x, ran, &log, struck, &struck_log, same);
}

// Both, the second on a copy of the tables.
fn show(
    to: Output,
    name: &[u8],
    s: Settings,
    x: Access,
    longs: &mut [u64; 8],
    words: &mut [u32; 36],
    marks: &mut [u8; 24],
) {
    let mut long = *longs;
    let mut word = *words;
    let mut mark = *marks;
    run_both(
        to, name, s, x, longs, words, marks, &mut long, &mut word, &mut mark,
    );
}

// A case: fresh tables, the calls before its access, then both.
fn show_case<F: FnOnce(Settings, &mut [u64], &mut [u32], &mut [u8])>(
    to: Output,
    name: &[u8],
    dirty: usize,
    x: Access,
    before: F,
)
    requires { F.IsAlwaysCallable before }
{
    let mut longs = [0u64; 8];
    let mut words = [0u32; 36];
    let mut marks = [0u8; 24];
    let s = settings(dirty);
    let _ = cache::fresh(s, &mut longs, &mut words, &mut marks);
    before(s, &mut longs, &mut words, &mut marks);
    show(to, name, s, x, &mut longs, &mut words, &mut marks);
}

// Set 0 waits for a fill, and set 1's comes first.
fn busy(to: Output) {
    show_case(
        to,
        b"a busy set",
        60,
        write_to(256),
        |s, longs, words, marks| {
            cache::read(s, longs, words, marks, 128, 1);
            cache::read(s, longs, words, marks, 0, 2);
            cache::read(s, longs, words, marks, 0, 3);
        },
    );
}

// One dirty line of two, where 60 percent are asked for: nothing is on its way that could change it.
fn held(to: Output) {
    show_case(
        to,
        b"a held set",
        60,
        write_to(256),
        |s, longs, words, marks| {
            cache::write(s, longs, words, marks, 0, 255);
        },
    );
}

// The same, but a fill makes the other line dirty.
fn held_at_first(to: Output) {
    show_case(
        to,
        b"a set held at first",
        60,
        write_to(256),
        |s, longs, words, marks| {
            cache::write(s, longs, words, marks, 128, 255);
            cache::read(s, longs, words, marks, 160, 1);
            cache::read(s, longs, words, marks, 128, 2);
            cache::write(s, longs, words, marks, 0, 255);
        },
    );
}

// Four write-backs wait; a read with a dirty victim needs two places.
fn full(to: Output) {
    let x = Access::Read {
        address: 1280,
        mask: 0,
        ticket: 9,
    };
    show_case(to, b"a full queue", 0, x, |s, longs, words, marks| {
        for address in [0, 256, 512, 768, 1024] {
            cache::write(s, longs, words, marks, address, 255);
        }
    });
}

// A busy set, a held one, one that is held at first, a full queue.
fn main(rt: HostRuntime) {
    let to = Output::new(rt.stdout(), rt.stderr());
    busy(to);
    held(to);
    held_at_first(to);
    full(to);
}
