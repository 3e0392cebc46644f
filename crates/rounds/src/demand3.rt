// The rounds of demand 3 and the struck rounds as two calls on the caller's slices, made of `cache`'s send, fill and access: `run_rounds` and
// `run_struck`, which ask nothing, below their parts. They write every event, refusals too.
ghost use Rattle.std.specs.Prelude.{◌≡◌, ◌+◌, ◌*◌, ◌≤◌, length, eqb};
ghost use Rattle.model.specs.Address.{mask_of};
ghost use Rattle.model.specs.Sound.{all_ones};
ghost use Rattle.model.specs.Lent.{lent};
ghost use Rattle.model.specs.Calls.{events_told};
ghost use Rattle.model.specs.Inner.{SoundSlices};
ghost use Rattle.model.specs.Records.{log_bytes, fill_bytes, round_bytes, settle_bytes};
ghost use Rattle.turns.specs.Parts.{Noted};
ghost use Rattle.rounds.specs.Demand3.{rounds_shown, rounds_call, flags_call, struck_call};
ghost use Rattle.rounds.specs.Parts.{Queueless, SeesSend, SeesFill, SeesDrain, SeesRound, SeesStruck, RunsOn, StrikesOn, MayRun};

use crate::{NotRun, Offer, Went};
use layout::{Geometry, Slices};
use model::{Access, Refusal, Reply, Settings};

// Writes every event of a call behind `out` bytes. `turns::note` leaves refusals out, and each promises exactly what it writes.
fn tell(reply: Reply, events: &mut [u8], out: usize) -> usize
    requires { out + length (log_bytes (events_told reply)) ≤ length events.old }
    ensures { Noted events.old out (events_told reply) result events.new }
{
    let n = records::encode(reply, events, out);
    out + n
}

// Whether the queue is empty.
fn nothing_queued(t: &Slices) -> bool
    requires { SoundSlices t.now.geometry.settings (lent t.now.longs.now t.now.words.now t.now.marks.now) }
    ensures { Queueless t.now.geometry.settings (lent t.now.longs.now t.now.words.now t.now.marks.now) result }
{
    let n = layout::used(t.marks, t.geometry.at.kinds, t.geometry.settings.queue);
    n == 0
}

// Sends the queue head, if there is one.
fn see_send(
    g: Geometry,
    longs: &mut [u64],
    words: &mut [u32],
    marks: &mut [u8],
    events: &mut [u8],
    out: usize,
) -> usize
    requires held { SoundSlices g.settings (lent longs.old words.old marks.old) }
    requires out_in_bounds { out + 25 ≤ length events.old }
    ensures { SeesSend g.settings (lent longs.old words.old marks.old) events.old out result
        events.new (lent longs.new words.new marks.new) }
{
    let t = Slices {
        geometry: g,
        longs: &*longs,
        words: &*words,
        marks: &*marks,
    };
    if nothing_queued(&t) {
        return out;
    }
    let reply = cache::send(g.settings, longs, words, marks);
    tell(reply, events, out)
}

// Fills the oldest sent miss, if there is one.
fn see_fill(
    g: Geometry,
    longs: &mut [u64],
    words: &mut [u32],
    marks: &mut [u8],
    events: &mut [u8],
    out: usize,
) -> usize
    requires held { SoundSlices g.settings (lent longs.old words.old marks.old) }
    requires fill_bytes_in_bounds { out + fill_bytes ≤ length events.old }
    ensures { SeesFill g.settings (lent longs.old words.old marks.old) events.old out result
        events.new (lent longs.new words.new marks.new) }
{
    let t = Slices {
        geometry: g,
        longs: &*longs,
        words: &*words,
        marks: &*marks,
    };
    let Some(address) = turns::first_sent(&t) else {
        return out;
    };
    let reply = cache::fill(g.settings, longs, words, marks, address);
    tell(reply, events, out)
}

// The send and the fill of a round.
fn see_drain(
    g: Geometry,
    longs: &mut [u64],
    words: &mut [u32],
    marks: &mut [u8],
    events: &mut [u8],
    out: usize,
) -> usize
    requires held { SoundSlices g.settings (lent longs.old words.old marks.old) }
    requires settle_bytes_in_bounds { out + settle_bytes ≤ length events.old }
    ensures { SeesDrain g.settings (lent longs.old words.old marks.old) events.old out result
        events.new (lent longs.new words.new marks.new) }
{
    let sent = see_send(g, longs, words, marks, events, out);
    see_fill(g, longs, words, marks, events, sent)
}

// One round: the send, the fill, the offer.
fn see_round(
    g: Geometry,
    longs: &mut [u64],
    words: &mut [u32],
    marks: &mut [u8],
    x: Access,
    events: &mut [u8],
    out: usize,
) -> Offer
    requires held { SoundSlices g.settings (lent longs.old words.old marks.old) }
    requires round_bytes_in_bounds { (out + round_bytes ≤ length events.old) × (mask_of x ≤ all_ones) }
    ensures { SeesRound g.settings x (lent longs.old words.old marks.old) events.old out result
        events.new (lent longs.new words.new marks.new) }
{
    let drained = see_drain(g, longs, words, marks, events, out);
    let reply = cache::access(g.settings, longs, words, marks, x);
    let written = tell(reply, events, drained);
    let taken = turns::accepted(reply);
    Offer { taken, written }
}

// One round of the struck rounds: the access is offered if the round is marked. The flag is a byte, as the caller lends it.
fn see_struck(
    g: Geometry,
    longs: &mut [u64],
    words: &mut [u32],
    marks: &mut [u8],
    x: Access,
    flag: u8,
    events: &mut [u8],
    out: usize,
) -> usize
    requires held { SoundSlices g.settings (lent longs.old words.old marks.old) }
    requires round_bytes_in_bounds { (out + round_bytes ≤ length events.old) × (mask_of x ≤ all_ones) }
    ensures { SeesStruck g.settings x (eqb flag 1) (lent longs.old words.old marks.old) events.old out result
        events.new (lent longs.new words.new marks.new) }
{
    if flag == 1 {
        let made = see_round(g, longs, words, marks, x, events, out);
        return made.written;
    }
    see_drain(g, longs, words, marks, events, out)
}

// The rounds, on sound tables. Apart from `struck_on`: this stops at an accepted offer and writes the flags that the other reads, and both
// clauses are exact.
fn rounds_on(
    g: Geometry,
    longs: &mut [u64],
    words: &mut [u32],
    marks: &mut [u8],
    x: Access,
    n: usize,
    flags: &mut [u8],
    events: &mut [u8],
) -> Went
    requires held { SoundSlices g.settings (lent longs.old words.old marks.old) }
    requires n_in_bounds { (n ≤ length flags.old) × (round_bytes * n ≤ length events.old) × (mask_of x ≤ all_ones) }
    ensures { RunsOn g.settings x n (lent longs.old words.old marks.old) flags.old events.old result
        (lent longs.new words.new marks.new) flags.new events.new }
{
    let mut out = 0;
    for i in 0..n {
        let made = see_round(g, longs, words, marks, x, events, out);
        flags[i] = u8::from(made.taken);
        out = made.written;
        if made.taken {
            return Went {
                rounds: i + 1,
                written: out,
            };
        }
    }
    Went {
        rounds: n,
        written: out,
    }
}

// The struck rounds, on sound tables.
fn struck_on(
    g: Geometry,
    longs: &mut [u64],
    words: &mut [u32],
    marks: &mut [u8],
    x: Access,
    flags: &[u8],
    events: &mut [u8],
) -> Went
    requires held { SoundSlices g.settings (lent longs.old words.old marks.old) }
    requires flags_in_bounds { (round_bytes * length flags.now ≤ length events.old) × (mask_of x ≤ all_ones) }
    ensures { StrikesOn g.settings x (lent longs.old words.old marks.old) flags.now events.old result
        (lent longs.new words.new marks.new) events.new }
{
    let mut out = 0;
    for flag in flags {
        out = see_struck(g, longs, words, marks, x, *flag, events, out);
    }
    Went {
        rounds: flags.len(),
        written: out,
    }
}

// Refusals 1 to 4, before the first round.
fn may_run(
    s: Settings,
    longs: &[u64],
    words: &[u32],
    marks: &[u8],
    x: Access,
) -> Result<Geometry, Refusal>
    ensures { MayRun s x (lent longs.now words.now marks.now) result }
{
    let g = soundness::checked_layout(s, longs, words, marks)?;
    if !access::well_formed(x) {
        return Err(Refusal::BadAccess);
    }
    Ok(g)
}

// Rounds of a send, a fill and an offer, until the access is accepted and `n` at the most. Every event is written; flag i becomes 1 if
// the offer of round i, counted from 0, was accepted, and 0 if not.
pub fn run_rounds(
    s: Settings,
    longs: &mut [u64],
    words: &mut [u32],
    marks: &mut [u8],
    x: Access,
    n: usize,
    flags: &mut [u8],
    events: &mut [u8],
) -> Result<Went, NotRun>
    ensures events_after { rounds_shown result (lent longs.new words.new marks.new) events.new
        ≡ rounds_call s x n (lent longs.old words.old marks.old) flags.old events.old }
    ensures flags_after { flags.new
        ≡ flags_call s x n (lent longs.old words.old marks.old) flags.old events.old }
{
    let g = may_run(s, longs, words, marks, x)?;
    if flags.len() < n || events.len() / records::ROUND_ROOM < n {
        return Err(NotRun::NoRoom);
    }
    Ok(rounds_on(g, longs, words, marks, x, n, flags, events))
}

// The same rounds with the refused offers struck out: a round for each flag, and the access is offered where the flag is 1.
pub fn run_struck(
    s: Settings,
    longs: &mut [u64],
    words: &mut [u32],
    marks: &mut [u8],
    x: Access,
    flags: &[u8],
    events: &mut [u8],
) -> Result<Went, NotRun>
    ensures { rounds_shown result (lent longs.new words.new marks.new) events.new
        ≡ struck_call s x (lent longs.old words.old marks.old) flags.now events.old }
{
    let g = may_run(s, longs, words, marks, x)?;
    if events.len() / records::ROUND_ROOM < flags.len() {
        return Err(NotRun::NoRoom);
    }
    Ok(struck_on(g, longs, words, marks, x, flags, events))
}
