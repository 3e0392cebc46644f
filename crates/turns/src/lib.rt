// One round of demand 3 (document 01) over lent tables, and how many rounds settle an access: for callers that have checked the tables.
// `rounds` has the calls that ask nothing.
#![tactic(auto)]

ghost use Rattle.std.specs.Prelude.{◌≡◌, not, ◌+◌, ◌≤◌, length};
ghost use Rattle.model.specs.Address.{mask_of};
ghost use Rattle.model.specs.Sound.{all_ones};
ghost use Rattle.model.specs.Lent.{lent};
ghost use Rattle.model.specs.Calls.{events_told};
ghost use Rattle.model.specs.Inner.{SoundSlices};
ghost use Rattle.model.specs.Records.{log_bytes, fill_bytes, round_bytes};
ghost use Rattle.turns.specs.Parts.{is_refusal, noted, Noted, FindsSent, Sends, Fills, Offers, Enough};

use layout::{Geometry, Slices};
use model::{Access, Event, Reply};

// One round: what its offer told, and the bytes of events up to and with this round.
#[derive(Clone, Copy)]
pub struct Round {
    pub reply: Reply,
    pub written: usize,
}

// Whether a call was accepted.
pub fn accepted(reply: Reply) -> bool
    ensures { result ≡ not (is_refusal reply.first) }
{
    !matches!(reply.first, Event::Refused(_))
}

// Writes what an accepted call told behind `out` bytes; of a refused one nothing. The room and the bytes written so far stay side by side:
// a struct that held the lent slice would lose its elements where it lends it on.
fn note(reply: Reply, events: &mut [u8], out: usize) -> usize
    requires { out + length (log_bytes (events_told reply)) ≤ length events.old }
    ensures { Noted events.old out (noted reply) result events.new }
{
    if accepted(reply) {
        let n = records::encode(reply, events, out);
        return out + n;
    }
    out
}

// The first entry marked sent, the oldest.
pub fn first_sent(t: &Slices) -> Option<u64>
    requires { SoundSlices t.now.geometry.settings (lent t.now.longs.now t.now.words.now t.now.marks.now) }
    ensures { FindsSent t.now.geometry.settings (lent t.now.longs.now t.now.words.now t.now.marks.now) result }
{
    let n = layout::used(t.marks, t.geometry.at.counts, t.geometry.settings.misses);
    let e = layout::find_mark(t.marks, t.geometry.at.sent, n, 1);
    if n <= e {
        return None;
    }
    Some(t.longs[t.geometry.at.misses + e])
}

// Sends the queue head, if there is one: with none, send is refused and nothing is written.
fn send_turn(
    g: Geometry,
    longs: &mut [u64],
    words: &mut [u32],
    marks: &mut [u8],
    events: &mut [u8],
    out: usize,
) -> usize
    requires held { SoundSlices g.settings (lent longs.old words.old marks.old) }
    requires out_in_bounds { out + 25 ≤ length events.old }
    ensures { Sends g.settings (lent longs.old words.old marks.old) events.old out result
        events.new (lent longs.new words.new marks.new) }
{
    let reply = steps::send_step(g, longs, words, marks);
    note(reply, events, out)
}

// Fills the oldest sent miss, if there is one.
fn fill_turn(
    g: Geometry,
    longs: &mut [u64],
    words: &mut [u32],
    marks: &mut [u8],
    events: &mut [u8],
    out: usize,
) -> usize
    requires held { SoundSlices g.settings (lent longs.old words.old marks.old) }
    requires fill_bytes_in_bounds { out + fill_bytes ≤ length events.old }
    ensures { Fills g.settings (lent longs.old words.old marks.old) events.old out result
        events.new (lent longs.new words.new marks.new) }
{
    let t = Slices {
        geometry: g,
        longs: &*longs,
        words: &*words,
        marks: &*marks,
    };
    let Some(address) = first_sent(&t) else {
        return out;
    };
    let reply = steps::fill_step(g, longs, words, marks, address);
    note(reply, events, out)
}

// One round: the send, the fill, the offer; the events of all but a refused offer go behind `out` bytes.
pub fn one_round(
    g: Geometry,
    longs: &mut [u64],
    words: &mut [u32],
    marks: &mut [u8],
    x: Access,
    events: &mut [u8],
    out: usize,
) -> Round
    requires held { SoundSlices g.settings (lent longs.old words.old marks.old) }
    requires round_bytes_in_bounds { (out + round_bytes ≤ length events.old) × (mask_of x ≤ all_ones) }
    ensures { Offers g.settings x (lent longs.old words.old marks.old) events.old out result
        events.new (lent longs.new words.new marks.new) }
{
    let sent = send_turn(g, longs, words, marks, events, out);
    let filled = fill_turn(g, longs, words, marks, events, sent);
    let reply = access::access_step(g, longs, words, marks, x);
    let written = note(reply, events, filled);
    Round { reply, written }
}

// Queue entries and miss entries together, and at least 1.
pub fn most_rounds(t: &Slices) -> usize
    requires { SoundSlices t.now.geometry.settings (lent t.now.longs.now t.now.words.now t.now.marks.now) }
    ensures { Enough t.now.geometry.settings (lent t.now.longs.now t.now.words.now t.now.marks.now) result }
{
    let queued = layout::used(t.marks, t.geometry.at.kinds, t.geometry.settings.queue);
    let missed = layout::used(t.marks, t.geometry.at.counts, t.geometry.settings.misses);
    (queued + missed).max(1)
}
