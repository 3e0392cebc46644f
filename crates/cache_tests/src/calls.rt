// The calls that a script makes, on the first numbers of each slice, as many as are lent.
use crate::outcomes;
use crate::outcomes::Outcome;
use cache::Call;
use model::{Access, Command, Settings};

// The settings and the lengths that calls are made with; whether the next one's outcome is asked for.
#[derive(Clone, Copy)]
pub(crate) struct Bench {
    pub settings: Settings,
    pub longs: usize,
    pub words: usize,
    pub marks: usize,
    pub asked: bool,
}

// A value, as `cache::Call`: a line of the script is read before it is made.
#[derive(Clone, Copy)]
pub(crate) enum Deed {
    Fresh,
    Check,
    Made(Call),
    Dirty(u64),
}

// Before a script has settings those of this bench are refused.
pub(crate) fn empty_bench() -> Bench {
    let settings = Settings {
        sets: 0,
        ways: 0,
        dirty: 0,
        misses: 0,
        readers: 0,
        queue: 0,
        rule: 0,
    };
    Bench {
        settings,
        longs: 0,
        words: 0,
        marks: 0,
        asked: false,
    }
}

// A bench that says or does not say whether the call was refused.
pub(crate) fn asking(b: Bench, asked: bool) -> Bench {
    Bench { asked, ..b }
}

// With other settings, and the lengths that they ask for if they are in range.
fn with_settings(b: Bench, s: Settings) -> Bench {
    if layout::in_range(s) {
        return Bench {
            settings: s,
            longs: layout::longs_length(s),
            words: layout::words_length(s),
            marks: layout::marks_length(s),
            ..b
        };
    }
    Bench { settings: s, ..b }
}

// The call of a read, which wants mask 0.
pub(crate) fn offered_read(address: u64, mask: u32, ticket: u32) -> Deed {
    let x = Access::Read {
        address,
        mask,
        ticket,
    };
    Deed::Made(Call::Offer(x))
}

// A command as a call: settings make the tables fresh.
impl From<Command> for Deed {
    fn from(c: Command) -> Deed {
        match c {
            Command::Settings(_) => Deed::Fresh,
            Command::Read { address, ticket } => offered_read(address, 0, ticket),
            Command::Write { address, mask } => Deed::Made(Call::Offer(Access::Write {
                address,
                mask,
                ticket: 0,
            })),
            Command::Send => Deed::Made(Call::Send),
            Command::Fill(address) => Deed::Made(Call::Fill(address)),
            Command::Tick(cycle) => Deed::Made(Call::Tick(cycle)),
        }
    }
}

// Settings are taken over before they are judged; a rule that is left out is least recently used.
pub(crate) fn set_up(c: Command, b: Bench) -> Bench {
    let Command::Settings(g) = c else {
        return b;
    };
    let s = Settings {
        sets: g.sets as usize,
        ways: g.ways as usize,
        dirty: g.dirty as usize,
        misses: g.misses as usize,
        readers: g.readers as usize,
        queue: g.queue as usize,
        rule: g.rule.unwrap_or(0) as usize,
    };
    with_settings(b, s)
}

// With the three lengths that a line names.
pub(crate) fn with_lengths(b: Bench, line: &[u8], at: usize) -> Bench {
    let longs = scripts::number_next(line, at);
    let words = scripts::number_next(line, longs.next);
    let marks = scripts::number_next(line, words.next);
    Bench {
        longs: longs.value as usize,
        words: words.value as usize,
        marks: marks.value as usize,
        ..b
    }
}

// A number as 32 bits; one that is larger, the largest.
pub(crate) fn word_of(n: u64) -> u32 {
    u32::try_from(n).unwrap_or(u32::MAX)
}

// A number as 8 bits; one that is larger, the largest.
pub(crate) fn mark_of(n: u64) -> u8 {
    u8::try_from(n).unwrap_or(u8::MAX)
}

// A place of a slice gets a number; a place beyond it none.
pub(crate) fn put<T: Copy>(numbers: &mut [T], at: u64, n: T) {
    if let Some(place) = numbers.get_mut(at as usize) {
        *place = n;
    }
}

// How many of the first lines are dirty, counted here: the library keeps a count.
fn dirty_lines(marks: &[u8], lines: u64) -> usize {
    let n = lines as usize;
    if marks.len() / 4 < n {
        return 0;
    }
    (0..n).filter(|l| tables::is_dirty(marks, *l)).count()
}

// Makes the call on lent slices; its outcome is put at the start of `out`.
fn make(
    d: Deed,
    s: Settings,
    longs: &mut [u64],
    words: &mut [u32],
    marks: &mut [u8],
    out: &mut [u8],
) -> Outcome {
    match d {
        Deed::Fresh => outcomes::put_verdict(cache::fresh(s, longs, words, marks), b"fresh", out),
        Deed::Check => outcomes::put_verdict(cache::check(s, longs, words, marks), b"sound", out),
        Deed::Made(k) => outcomes::put_reply(cache::perform(s, longs, words, marks, k), out),
        Deed::Dirty(lines) => outcomes::put_dirty(dirty_lines(marks, lines), out),
    }
}

// The same on the first numbers of each slice, as many as the bench lends.
pub(crate) fn perform(
    d: Deed,
    b: Bench,
    longs: &mut [u64],
    words: &mut [u32],
    marks: &mut [u8],
    out: &mut [u8],
) -> Outcome {
    let s = b.settings;
    let l = scripts::least(b.longs, longs.len());
    let w = scripts::least(b.words, words.len());
    let m = scripts::least(b.marks, marks.len());
    make(d, s, &mut longs[..l], &mut words[..w], &mut marks[..m], out)
}
