// The inner layer of the stream runner (document 01, "Records"): the checks at a record, the records behind the first on tables that are
// known to be sound, the usual ones by `record`, and the first record. `begin` and `run_records` are the two halves of a run, for a caller
// that holds the tables and their layout between them; `first_there`, `first_record` and `lengths_for` tell such a caller when to begin,
// with what, and what to lend.
#![tactic(auto)]

mod record;

ghost use Rattle.std.specs.Prelude.{◌≡◌, ◌+◌, ◌-◌, ◌≤◌};
ghost use Rattle.model.specs.Lent.{lent};
ghost use Rattle.model.specs.Inner.{SoundSlices};
ghost use Rattle.model.specs.Records.{settings_in};
ghost use Rattle.model.specs.Runner.{room_stop};
ghost use Rattle.running.specs.Begin.{first_record, refused_stop, Accepts, first_there};
ghost use Rattle.running.specs.Lengths.{no_lengths, lengths_of, lengths_asked};
ghost use Rattle.running.specs.Resume.{head_stop, found_stop, later_found, RunAt, rest_from, Resumes};

use layout::Geometry;
use model::{Body, Ran, Refusal, Settings, Stop};
use reader::Reader;
use record::{Went, run_usual};
use records::Number;

// How long the three lent slices are.
#[derive(Clone, Copy)]
pub struct Lengths {
    pub longs: usize,
    pub words: usize,
    pub marks: usize,
}

// The settings in a body, unjudged.
fn settings_in(body: &[u8]) -> Settings
    ensures { result ≡ settings_in body.now }
{
    Settings {
        sets: usize::from(u16::read(body, 0)),
        ways: usize::from(u8::read(body, 2)),
        dirty: usize::from(u8::read(body, 3)),
        misses: usize::from(u8::read(body, 4)),
        readers: usize::from(u8::read(body, 5)),
        queue: usize::from(u8::read(body, 6)),
        rule: usize::from(u8::read(body, 7)),
    }
}

// What stops at the head of a record, of its kind and what reading it came to.
fn head_stop(kind: u8, found: Result<Body, Stop>) -> Option<Stop>
    ensures { result ≡ head_stop kind found }
{
    if !records::is_command(kind) {
        return Some(Stop::UnknownKind);
    }
    found.err()
}

// The checks at any record, in order, of its kind and what reading it came to: behind the head, what is asked of settings and of another.
fn record_stop(
    kind: u8,
    found: Result<Body, Stop>,
    settings: Option<Stop>,
    other: Option<Stop>,
) -> Option<Stop>
    ensures { result ≡ found_stop kind found settings other }
{
    let stop = head_stop(kind, found);
    if stop.is_some() {
        return stop;
    }
    if records::is_settings(kind) {
        settings
    } else {
        other
    }
}

// 16, where there is less event room than a record may need.
fn room_stop(room: usize) -> Option<Stop>
    ensures { result ≡ room_stop room }
{
    if room < records::EVENT_ROOM {
        Some(Stop::NoRoom)
    } else {
        None
    }
}

// The checks at a record that is not the first, with this much event room.
fn later_stop(kind: u8, found: Result<Body, Stop>, room: usize) -> Option<Stop>
    ensures { result ≡ later_found room kind found }
{
    record_stop(kind, found, Some(Stop::OutOfPlace), room_stop(room))
}

// A run that stops there with this.
fn ran_to(stop: Option<Stop>, here: Went) -> Ran
    ensures { result ≡ record { stop = stop; consumed = here.at; written = here.out } }
{
    Ran {
        stop,
        consumed: here.at,
        written: here.out,
    }
}

// At how many places of n bytes so many begin that all lie among them.
fn starts(n: usize, size: usize) -> usize
    requires { 1 ≤ size }
    ensures { result ≡ n + 1 - size }
{
    n.saturating_sub(size - 1)
}

// The records from byte `start` on, at fixed settings and on sound tables; events go behind the first `first` bytes. The layout is the
// caller's, computed once for all of them; how many queue places and miss entries are in use is found once, and then follows from what
// each record tells. Where the usual records end, the next one is judged in full, and then run by itself.
// A record says how long it is: no index counts by one.
pub fn run_records(
    g: Geometry,
    stream: &[u8],
    start: usize,
    events: &mut [u8],
    first: usize,
    longs: &mut [u64],
    words: &mut [u32],
    marks: &mut [u8],
) -> Ran
    requires sound { SoundSlices g.settings (lent longs.old words.old marks.old) }
    requires run_at { RunAt stream.now start first events.old }
    ensures { Resumes g.settings (rest_from g.settings stream.now start first events.old)
        stream.now start first events.old
        (lent longs.old words.old marks.old) result
        events.new (lent longs.new words.new marks.new) }
{
    let ample = starts(events.len(), records::EVENT_ROOM);
    let mut limit = starts(stream.len(), records::LONGEST);
    let mut here = Went {
        at: start,
        out: first,
        queued: layout::used(marks, g.at.kinds, g.settings.queue),
        missed: layout::used(marks, g.at.counts, g.settings.misses),
    };
    loop {
        here = run_usual(g, stream, here, limit, ample, events, longs, words, marks);
        if stream.len() <= here.at {
            return ran_to(None, here);
        }
        let found = records::read_at(stream, here.at);
        let stop = later_stop(stream[here.at], found, events.len() - here.out);
        if stop.is_some() {
            return ran_to(stop, here);
        }
        limit = here.at + 1;
    }
}

// The first record, read once: its settings, unjudged, and the place of the next record, or why the run stops there. Whoever begins a run
// is handed it.
pub fn first_record(stream: &[u8]) -> Result<(Settings, usize), Option<Stop>>
    ensures { result ≡ first_record stream.now }
{
    if stream.is_empty() {
        return Err(None);
    }
    let mut reader = Reader::new(stream, 0);
    let first = reader.next();
    let stop = record_stop(stream[0], first.found, None, Some(Stop::OutOfPlace));
    if stop.is_some() {
        return Err(stop);
    }
    Ok((settings_in(first.body), reader.at))
}

// What fresh tables that are refused stop with: 1 or 2.
fn refused_stop(n: Refusal) -> Stop
    ensures { result ≡ refused_stop n }
{
    if n == Refusal::SettingOutOfRange {
        Stop::SettingOutOfRange
    } else {
        Stop::SliceLength
    }
}

// The first record, as it was read: its settings are accepted and the tables made fresh for them, or it stops the run and leaves the
// tables. The settings are judged here and nowhere else.
pub fn begin(
    first: Result<(Settings, usize), Option<Stop>>,
    longs: &mut [u64],
    words: &mut [u32],
    marks: &mut [u8],
) -> Result<(Settings, usize), Option<Stop>>
    ensures { Accepts (lent longs.old words.old marks.old) first result
        (lent longs.new words.new marks.new) }
{
    let (settings, next) = first?;
    match cache::fresh(settings, longs, words, marks) {
        Ok(()) => Ok((settings, next)),
        Err(n) => Err(Some(refused_stop(n))),
    }
}

// Whether more bytes change nothing for the first record: it is all there, or no command's.
pub fn first_there(stream: &[u8]) -> bool
    ensures { result ≡ first_there stream.now }
{
    if stream.is_empty() {
        return false;
    }
    head_stop(stream[0], records::read_at(stream, 0)) != Some(Stop::CutShort)
}

// Lengths for no settings.
// Zeros and no Option: a caller lends slices of these lengths also where no settings came.
fn no_lengths() -> Lengths
    ensures { result ≡ no_lengths }
{
    Lengths {
        longs: 0,
        words: 0,
        marks: 0,
    }
}

// The lengths that settings ask for; none outside their ranges.
fn lengths_of(s: Settings) -> Lengths
    ensures { result ≡ lengths_of s }
{
    if !layout::in_range(s) {
        return no_lengths();
    }
    Lengths {
        longs: layout::longs_length(s),
        words: layout::words_length(s),
        marks: layout::marks_length(s),
    }
}

// The lengths that a first record asks for: a caller that lends these never meets stop 2.
pub fn lengths_for(first: Result<(Settings, usize), Option<Stop>>) -> Lengths
    ensures { result ≡ lengths_asked first }
{
    match first {
        Err(_) => no_lengths(),
        Ok((settings, _)) => lengths_of(settings),
    }
}
