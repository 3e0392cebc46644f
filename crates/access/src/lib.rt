// An access on sound tables: decided by reading alone, then written. In order: `asked` (the access and its answer), `sector` (what
// it leaves in its line's sectors), `plan` (refusals 7, 8 and 9, or what becomes of the miss table), `writes` (the writes, and what
// it tells); here refusals 4, 5 and 6, the ways that a read and a write go, and the whole step.
#![tactic(auto)]

mod asked;
mod plan;
mod sector;
mod writes;

ghost use Rattle.std.specs.Prelude.{◌≡◌, true, false, ◌≤◌};
ghost use Rattle.model.specs.Address.{is_read, mask_of, well_formed, good_sector};
ghost use Rattle.model.specs.Lent.{lent};
ghost use Rattle.model.specs.Inner.{SoundSlices, Does};
ghost use Rattle.model.specs.Sound.{all_ones};
ghost use Rattle.layout.specs.Places.{First};
ghost use Rattle.access.specs.Plan.{Placed, Offered, told_by};
ghost use Rattle.model.specs.Steps.{access};

use asked::{Offer, is_hit, is_read, takes_line};
use layout::{Geometry, Slices};
use model::{Access, Refusal, Reply};
use plan::miss_plan;
use writes::{act_change, act_hit, act_read, act_write};

// Whether an address is a sector's: a multiple of 32 below 2^48.
fn good_sector(address: u64) -> bool
    ensures { result ≡ good_sector address }
{
    (address % 32 == 0) & (address < 0x1_0000_0000_0000)
}

// Refusal 4 does not apply: the address first, which a read and a write ask alike. That a mask is a 32-bit number is for callers whose proofs ask it.
pub fn well_formed(x: Access) -> bool
    ensures value { result ≡ well_formed x }
    ensures x_bound { mask_of x ≤ all_ones }
{
    good_sector(values::address_of(x))
        && match x {
            Access::Read { mask, .. } => mask == 0,
            Access::Write { mask, .. } => mask != 0,
        }
}

// A read whose place is decided: a hit, or refused by the queue or the miss table, or acted. One that hits queues nothing and leaves the
// miss table, so neither refuses it.
fn offer_read(
    g: Geometry,
    longs: &mut [u64],
    words: &mut [u32],
    marks: &mut [u8],
    o: Offer,
) -> Result<Reply, Refusal>
    requires placed { Placed g.settings g.at (lent longs.old words.old marks.old) o }
    requires reads { is_read o.access ≡ true }
    ensures { Offered g.settings (lent longs.old words.old marks.old) o.access o.decision result
        (lent longs.new words.new marks.new) }
{
    if is_hit(o.decision.answer) {
        return Ok(act_hit(g, words, o));
    }
    let plan = miss_plan(g, longs, words, marks, o)?;
    Ok(act_read(g, longs, words, marks, o, plan))
}

// A write whose place is decided: to a line that is there, or refused by the queue, or acted.
fn offer_write(
    g: Geometry,
    longs: &mut [u64],
    words: &mut [u32],
    marks: &mut [u8],
    o: Offer,
) -> Result<Reply, Refusal>
    requires placed { Placed g.settings g.at (lent longs.old words.old marks.old) o }
    requires writes { is_read o.access ≡ false }
    ensures { Offered g.settings (lent longs.old words.old marks.old) o.access o.decision result
        (lent longs.new words.new marks.new) }
{
    let d = o.decision;
    if !takes_line(d.answer) {
        return Ok(act_change(g, longs, words, marks, o));
    }
    if g.settings.queue < o.queued + usize::from(d.back.is_some()) {
        return Err(Refusal::QueueFull);
    }
    Ok(act_write(g, longs, words, marks, o))
}

// An access on sound tables, refused or done. From its decision on a read and a write go their own way.
fn offer(
    g: Geometry,
    longs: &mut [u64],
    words: &mut [u32],
    marks: &mut [u8],
    x: Access,
    queued: usize,
    missed: usize,
) -> Result<Reply, Refusal>
    requires sound { SoundSlices g.settings (lent longs.old words.old marks.old) }
    requires counted { First marks.old g.at.kinds g.settings.queue 0 queued × First marks.old g.at.counts g.settings.misses 0 missed }
    ensures { Does g.settings (access g.settings x) (lent longs.old words.old marks.old) (told_by result)
        (lent longs.new words.new marks.new) }
{
    if !well_formed(x) {
        return Err(Refusal::BadAccess);
    }
    let t = Slices {
        geometry: g,
        longs: &*longs,
        words: &*words,
        marks: &*marks,
    };
    let decision = probe::decide(&t, x)?;
    let o = Offer {
        access: x,
        decision,
        queued,
        missed,
    };
    if is_read(x) {
        return offer_read(g, longs, words, marks, o);
    }
    offer_write(g, longs, words, marks, o)
}

// An access on sound tables, of whose queue and miss table so many places are in use.
pub fn access_counted(
    g: Geometry,
    longs: &mut [u64],
    words: &mut [u32],
    marks: &mut [u8],
    x: Access,
    queued: usize,
    missed: usize,
) -> Reply
    requires { SoundSlices g.settings (lent longs.old words.old marks.old) × First marks.old g.at.kinds g.settings.queue 0 queued
        × First marks.old g.at.counts g.settings.misses 0 missed }
    ensures { Does g.settings (access g.settings x) (lent longs.old words.old marks.old) result
        (lent longs.new words.new marks.new) }
{
    offer(g, longs, words, marks, x, queued, missed).unwrap_or_else(tables::refused)
}

// The same, for a caller that doesn't know how many there are.
pub fn access_step(
    g: Geometry,
    longs: &mut [u64],
    words: &mut [u32],
    marks: &mut [u8],
    x: Access,
) -> Reply
    requires { SoundSlices g.settings (lent longs.old words.old marks.old) }
    ensures { Does g.settings (access g.settings x) (lent longs.old words.old marks.old) result
        (lent longs.new words.new marks.new) }
{
    let queued = layout::used(marks, g.at.kinds, g.settings.queue);
    let missed = layout::used(marks, g.at.counts, g.settings.misses);
    access_counted(g, longs, words, marks, x, queued, missed)
}
