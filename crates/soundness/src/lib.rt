// Refusals 1, 2 and 3 (document 01), exact, on settings and lent slices of any content: the settings in range and the slices' lengths
// by `layout`, sound tables here. The work is at most proportional to 4 lines + lines ways + R M + M ways + M M + Q M, where R is the
// number of RESERVED sectors. `&` and `|` between tests look at both sides. Statuses, kinds and marks are compared as numbers: the slices
// hold any, and one above the last is what is refused.
#![tactic(auto)]

mod dirty;
mod first;
mod lines;
mod misses;
mod queue;
mod search;
mod sets;

ghost use Rattle.std.specs.Prelude.{◌≡◌};
ghost use Rattle.model.specs.Lent.{lent};
ghost use Rattle.model.specs.SoundLent.{sound_numbers};
ghost use Rattle.model.specs.Calls.{check_call, verdict_of};
ghost use Rattle.layout.specs.Held.{held};
ghost use Rattle.soundness.specs.Laid.{Checks};

use dirty::count_fine;
use first::FineLines;
use layout::{Geometry, Slices, gathered, in_range, lengths_fit, used};
use lines::{lines_fine, sectors_fine};
use misses::{entries_fine, tickets_fine};
use model::{Refusal, Settings};
use queue::places_fine;
use sets::trees_fine;

// Refusal 3 does not apply. Lines first, and where the queue ends: what follows relies on them.
pub fn tables_sound(t: &Slices) -> bool
    ensures { result ≡ held t.now sound_numbers }
{
    let s = t.geometry.settings;
    let at = t.geometry.at;
    if !((t.words[0] <= 0xFFFF_FFFE) & gathered(t.marks, at.kinds, s.queue) & lines_fine(t)) {
        return false;
    }
    let f = FineLines {
        slices: *t,
        queued: used(t.marks, at.kinds, s.queue),
    };
    sectors_fine(&f)
        & tickets_fine(t)
        & gathered(t.marks, at.counts, s.misses)
        & entries_fine(&f)
        & places_fine(t)
        & count_fine(t)
        & trees_fine(t)
}

// Refusals 1, 2 and 3 in document 01's order. The layout that the last is asked by is handed on, so that a call computes it once.
pub fn checked_layout(
    s: Settings,
    longs: &[u64],
    words: &[u32],
    marks: &[u8],
) -> Result<Geometry, Refusal>
    ensures { Checks s (lent longs.now words.now marks.now) result }
{
    if !in_range(s) {
        return Err(Refusal::SettingOutOfRange);
    }
    if !lengths_fit(s, longs, words, marks) {
        return Err(Refusal::SliceLength);
    }
    let geometry = Geometry::new(s);
    let t = Slices {
        geometry,
        longs,
        words,
        marks,
    };
    if !tables_sound(&t) {
        return Err(Refusal::NotSound);
    }
    Ok(geometry)
}

// The same for a caller that wants no layout.
pub fn check(s: Settings, longs: &[u64], words: &[u32], marks: &[u8]) -> Result<(), Refusal>
    ensures { result ≡ verdict_of (check_call s (lent longs.now words.now marks.now)) }
{
    checked_layout(s, longs, words, marks)?;
    Ok(())
}
