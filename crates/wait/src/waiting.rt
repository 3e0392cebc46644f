// The rounds for an access, shown as they go; their end is what the call `rounds::wait` says.
ghost use Rattle.std.specs.Prelude.{◌≡◌, true, ◌≤◌};
ghost use Rattle.model.specs.Address.{mask_of, well_formed};
ghost use Rattle.model.specs.Sound.{all_ones};
ghost use Rattle.model.specs.Lent.{lent};
ghost use Rattle.model.specs.Inner.{SoundSlices};
ghost use Rattle.rounds.specs.Waiting.{wait_call};
ghost use Rattle.turns.specs.Parts.{Enough};
ghost use Rattle.wait.specs.Counts.{CountsOfTables};

use crate::says;
use crate::says::Pages;
use layout::{Geometry, Slices};
use model::{Access, Refusal, Settings};
use output::Output;
use rounds::{Accepted, NotAccepted};

// The queue places and the miss entries in use.
#[derive(Clone, Copy)]
pub(crate) struct Counts {
    pub queued: usize,
    pub missed: usize,
}

// How many queue places and miss entries are in use.
fn in_use(t: &Slices) -> Counts
    requires { SoundSlices t.now.geometry.settings (lent t.now.longs.now t.now.words.now t.now.marks.now) }
    ensures { CountsOfTables t.now.geometry.settings (lent t.now.longs.now t.now.words.now t.now.marks.now) result }
{
    let queued = layout::used(t.marks, t.geometry.at.kinds, t.geometry.settings.queue);
    let missed = layout::used(t.marks, t.geometry.at.counts, t.geometry.settings.misses);
    Counts { queued, missed }
}

// The rounds, `most` of them at most; each is printed if all before it were.
// Not `rounds::wait`: each round is shown before the next one is run.
fn wait_rounds(
    pages: &mut Pages,
    g: Geometry,
    longs: &mut [u64],
    words: &mut [u32],
    marks: &mut [u8],
    x: Access,
    most: usize,
) -> Result<Accepted, NotAccepted>
    requires held { SoundSlices g.settings (lent longs.old words.old marks.old) }
    requires x_value { (well_formed x ≡ true) × (mask_of x ≤ all_ones) }
    requires enough { Enough g.settings (lent longs.old words.old marks.old) most }
    ensures { result ≡ (wait_call g.settings x (lent longs.old words.old marks.old)).waiting }
{
    let mut space = [0u8; 65536];
    let events: &mut [u8] = &mut space;
    let mut out = 0;
    for before in 0..most {
        let made = turns::one_round(g, longs, words, marks, x, events, out);
        let round = before + 1;
        pages.round(round, text::part(events, out, made.written), made.reply);
        out = made.written;
        if turns::accepted(made.reply) {
            let answer = made.reply.first;
            return Ok(Accepted { round, answer });
        }
    }
    Err(NotAccepted::Held)
}

// Waits for the access whose record begins at byte `place`.
pub(crate) fn wait_for(
    to: Output,
    s: Settings,
    longs: &mut [u64],
    words: &mut [u32],
    marks: &mut [u8],
    x: Access,
    place: u64,
) -> Result<Accepted, NotAccepted>
    requires { SoundSlices s (lent longs.old words.old marks.old) }
    ensures { result ≡ (wait_call s x (lent longs.old words.old marks.old)).waiting }
{
    if !access::well_formed(x) {
        says::malformed(to, x, place);
        return Err(NotAccepted::Refused(Refusal::BadAccess));
    }
    let g = Geometry::new(s);
    let t = Slices {
        geometry: g,
        longs: &*longs,
        words: &*words,
        marks: &*marks,
    };
    let n = in_use(&t);
    let most = turns::most_rounds(&t);
    let mut pages = Pages::new(to);
    pages.start(x, place, n, most);
    let waiting = wait_rounds(&mut pages, g, longs, words, marks, x, most);
    pages.end(waiting, most);
    waiting
}
