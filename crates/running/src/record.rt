// The usual records, on sound tables: those of a step that are known to be whole and to have room. Each one's step, and its events behind
// those that are written. Each step's function and the writer of its events are called at one place alone, so that the compiler takes
// them in and a step's value, which is large, stays out of memory.
ghost use Rattle.std.specs.Prelude.{◌≡◌, ◌+◌, ◌-◌, ◌≤◌, ◌<◌, true, ◌&&◌, ltb, length, take};
ghost use Rattle.words.specs.Words.{one};
ghost use Rattle.model.specs.Address.{is_read, mask_of};
ghost use Rattle.model.specs.Lent.{lent};
ghost use Rattle.model.specs.Sound.{all_ones};
ghost use Rattle.model.specs.Inner.{SoundSlices};
ghost use Rattle.running.specs.Resume.{record_kind_at, rest_at, is_step, access_in, ran_of, RunAt, RecordReady, record_from, Resumes, UsualAt, Tries, WholeBelow, RunStands, UsedInMarks, UsedAfter, entries_left};

use layout::Geometry;
use model::{Access, Event};
use records::Number;

// How far a run is: before this byte of the stream, behind so many bytes of events; and how many queue places and miss entries are in use.
#[derive(Clone, Copy)]
pub struct Went {
    pub at: usize,
    pub out: usize,
    pub queued: usize,
    pub missed: usize,
}

// The kinds of the commands that are steps: the first two are accesses.
const READ: u8 = 1;

const WRITE: u8 = 2;

const SEND: u8 = 3;

const FILL: u8 = 4;

const TICK: u8 = 5;

// The access of a record that is there whole, of kind 1 or 2.
// A write's ticket is not looked at: any number stands there.
fn access_at(stream: &[u8], at: usize) -> Access
    requires { at + 13 ≤ length stream.now }
    ensures { (result ≡ access_in (record_kind_at stream.now at) (take 12 (rest_at stream.now at))) × (mask_of result ≤ all_ones) }
{
    if stream[at] == READ {
        let body = records::body_of(stream, at, READ);
        return Access::Read {
            address: Number::read(body, 0),
            mask: 0,
            ticket: Number::read(body, 8),
        };
    }
    let body = records::body_of(stream, at, WRITE);
    let mask = Number::read(body, 8);
    Access::Write {
        address: Number::read(body, 0),
        mask,
        ticket: mask,
    }
}

// How many miss entries an access makes that queues something: a read makes one.
fn fetched(x: Access) -> usize
    ensures { (result ≡ one (is_read x)) × (result ≤ 1) }
{
    match x {
        Access::Read { .. } => 1,
        Access::Write { .. } => 0,
    }
}

// Behind an access that queues so many. Mostly that is nothing, and then no count is touched.
fn went_on(went: Went, x: Access, queues: usize) -> Went
    requires { (went.queued + queues ≤ 66) × (went.missed ≤ 64) }
    ensures { result ≡ record { at = went.at; out = went.out; queued = went.queued + queues; missed = went.missed + one (is_read x && ltb 0 queues) } }
{
    if queues == 0 {
        return went;
    }
    Went {
        queued: went.queued + queues,
        missed: went.missed + fetched(x),
        ..went
    }
}

// How many of n miss entries a fill leaves that begins with this event.
fn left_after(first: Event, n: usize) -> usize
    ensures { result ≡ entries_left first n }
{
    match first {
        Event::Filled(_) => n.saturating_sub(1),
        _ => n,
    }
}

// A read or a write.
fn access_record(
    g: Geometry,
    stream: &[u8],
    here: Went,
    events: &mut [u8],
    longs: &mut [u64],
    words: &mut [u32],
    marks: &mut [u8],
) -> Went
    requires sound { SoundSlices g.settings (lent longs.old words.old marks.old) × UsedInMarks g.settings g.at marks.old here.queued here.missed }
    requires ready { RecordReady stream.now here.at here.out events.old × (record_kind_at stream.now here.at ≤ 2) }
    ensures resumes { Resumes g.settings (record_from g.settings stream.now here.at here.out events.old)
        stream.now here.at here.out events.old
        (lent longs.old words.old marks.old) (ran_of result)
        events.new (lent longs.new words.new marks.new) }
    ensures used_in_marks { UsedInMarks g.settings g.at marks.new result.queued result.missed }
{
    let x = access_at(stream, here.at);
    let reply = access::access_counted(g, longs, words, marks, x, here.queued, here.missed);
    let out = records::put_access(reply, events, here.out);
    let went = Went {
        at: here.at + records::LONGEST,
        out,
        ..here
    };
    went_on(went, x, reply.queues)
}

// A send.
fn send_record(
    g: Geometry,
    stream: &[u8],
    here: Went,
    events: &mut [u8],
    longs: &mut [u64],
    words: &mut [u32],
    marks: &mut [u8],
) -> Went
    requires sound { SoundSlices g.settings (lent longs.old words.old marks.old) × UsedInMarks g.settings g.at marks.old here.queued here.missed }
    requires ready { RecordReady stream.now here.at here.out events.old × (record_kind_at stream.now here.at ≡ 3) }
    ensures resumes { Resumes g.settings (record_from g.settings stream.now here.at here.out events.old)
        stream.now here.at here.out events.old
        (lent longs.old words.old marks.old) (ran_of result)
        events.new (lent longs.new words.new marks.new) }
    ensures used_in_marks { UsedInMarks g.settings g.at marks.new result.queued result.missed }
{
    let reply = steps::send_counted(g, longs, words, marks, here.queued);
    let out = records::put_sent(reply, events, here.out);
    Went {
        at: here.at + 1,
        out,
        queued: here.queued.saturating_sub(1),
        ..here
    }
}

// A fill.
fn fill_record(
    g: Geometry,
    stream: &[u8],
    here: Went,
    events: &mut [u8],
    longs: &mut [u64],
    words: &mut [u32],
    marks: &mut [u8],
) -> Went
    requires sound { SoundSlices g.settings (lent longs.old words.old marks.old) × UsedInMarks g.settings g.at marks.old here.queued here.missed }
    requires ready { RecordReady stream.now here.at here.out events.old × (record_kind_at stream.now here.at ≡ 4) }
    ensures resumes { Resumes g.settings (record_from g.settings stream.now here.at here.out events.old)
        stream.now here.at here.out events.old
        (lent longs.old words.old marks.old) (ran_of result)
        events.new (lent longs.new words.new marks.new) }
    ensures used_in_marks { UsedInMarks g.settings g.at marks.new result.queued result.missed }
{
    let body = records::body_of(stream, here.at, FILL);
    let address = Number::read(body, 0);
    let reply = steps::fill_counted(g, longs, words, marks, here.missed, address);
    let first = reply.first;
    let out = records::put_filled(reply, events, here.out);
    Went {
        at: here.at + 1 + body.len(),
        out,
        missed: left_after(first, here.missed),
        ..here
    }
}

// A tick.
fn tick_record(
    g: Geometry,
    stream: &[u8],
    here: Went,
    events: &mut [u8],
    longs: &mut [u64],
    words: &mut [u32],
    marks: &mut [u8],
) -> Went
    requires sound { SoundSlices g.settings (lent longs.old words.old marks.old) × UsedInMarks g.settings g.at marks.old here.queued here.missed }
    requires ready { RecordReady stream.now here.at here.out events.old × (record_kind_at stream.now here.at ≡ 5) }
    ensures resumes { Resumes g.settings (record_from g.settings stream.now here.at here.out events.old)
        stream.now here.at here.out events.old
        (lent longs.old words.old marks.old) (ran_of result)
        events.new (lent longs.new words.new marks.new) }
    ensures used_in_marks { UsedInMarks g.settings g.at marks.new result.queued result.missed }
{
    let body = records::body_of(stream, here.at, TICK);
    let cycle = Number::read(body, 0);
    let reply = steps::tick_step(g.settings, longs, words, marks, cycle);
    let out = records::put_ticked(reply, events, here.out);
    Went {
        at: here.at + 1 + body.len(),
        out,
        ..here
    }
}

// Runs a record that is a step's; at any other nothing is done.
fn step_record(
    g: Geometry,
    stream: &[u8],
    here: Went,
    events: &mut [u8],
    longs: &mut [u64],
    words: &mut [u32],
    marks: &mut [u8],
) -> Option<Went>
    requires sound { SoundSlices g.settings (lent longs.old words.old marks.old) × UsedInMarks g.settings g.at marks.old here.queued here.missed }
    requires usual_at { UsualAt stream.now here.at here.out events.old }
    ensures tries { Tries g.settings stream.now here events.old
        (lent longs.old words.old marks.old) result
        events.new (lent longs.new words.new marks.new) }
    ensures used_after { UsedAfter g.settings g.at marks.new here result }
{
    let kind = stream[here.at];
    // Most records are accesses: told by a test of their own, before the others, they need no jump by a table.
    if (READ <= kind) & (kind <= WRITE) {
        return Some(access_record(g, stream, here, events, longs, words, marks));
    }
    match kind {
        SEND => Some(send_record(g, stream, here, events, longs, words, marks)),
        FILL => Some(fill_record(g, stream, here, events, longs, words, marks)),
        TICK => Some(tick_record(g, stream, here, events, longs, words, marks)),
        _ => None,
    }
}

// The usual records, one after the other, up to one that is no step's, or does not begin below `limit`, or has no room below `ample`.
// Below `limit` a step's record is whole, below `ample` there is room for its events.
pub(crate) fn run_usual(
    g: Geometry,
    stream: &[u8],
    start: Went,
    limit: usize,
    ample: usize,
    events: &mut [u8],
    longs: &mut [u64],
    words: &mut [u32],
    marks: &mut [u8],
) -> Went
    requires sound { SoundSlices g.settings (lent longs.old words.old marks.old) × UsedInMarks g.settings g.at marks.old start.queued start.missed }
    requires run_at { RunAt stream.now start.at start.out events.old }
    requires whole_below { WholeBelow stream.now start.at limit × (ample ≡ length events.old + 1 - 64) }
    ensures run_stands { RunStands g.settings stream.now start.at start.out events.old
        (lent longs.old words.old marks.old) result.at result.out
        events.new (lent longs.new words.new marks.new) }
    ensures used_in_marks { UsedInMarks g.settings g.at marks.new result.queued result.missed }
    ensures start_lt_at { start.at < limit → start.out < ample → is_step (record_kind_at stream.now start.at) ≡ true → start.at < result.at }
{
    let mut here = start;
    // A record says how long it is: no index counts by one.
    while (here.at < limit) & (here.out < ample) {
        match step_record(g, stream, here, events, longs, words, marks) {
            Some(went) => here = went,
            None => return here,
        }
    }
    here
}
