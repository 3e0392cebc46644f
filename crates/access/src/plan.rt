// Refusals 7, 8 and 9 of a read, or what becomes of the miss table. Nothing is written here.
ghost use Rattle.std.specs.Prelude.{◌≡◌, ◌+◌, ◌≤◌, true, is_some};
ghost use Rattle.model.specs.Address.{is_read};
ghost use Rattle.words.specs.Words.{one};
ghost use Rattle.model.specs.Lent.{lent};
ghost use Rattle.layout.specs.Places.{First};
ghost use Rattle.access.specs.Plan.{Placed, Entered, Joining, starting, Planned};
ghost use Rattle.model.specs.Steps.{is_miss};

use crate::asked::{Offer, is_miss};
use layout::Geometry;
use model::{Answer, Refusal, SectorAddress, Settings};
use probe::Decision;

// What becomes of the miss table: nothing, a ticket that joins an entry with so many, or a new entry behind so many.
#[derive(Clone, Copy)]
pub enum MissPlan {
    Stays,
    Joins { entry: usize, count: usize },
    Starts(usize),
}

// How many free queue places a read needs whose place is decided: one where it misses, one for a write-back.
pub(crate) fn places_needed(d: Decision) -> usize
    ensures { (result ≡ one (is_miss d.answer) + one (is_some d.back)) × (result ≤ 2) }
{
    usize::from(is_miss(d.answer)) + usize::from(d.back.is_some())
}

// The plan of a read that merges: the entry for its address, one of m, has room for one more ticket, or not.
fn join_plan(
    g: Geometry,
    longs: &[u64],
    words: &[u32],
    marks: &[u8],
    address: SectorAddress,
    m: usize,
) -> Result<MissPlan, Refusal>
    requires { Entered g.settings (lent longs.now words.now marks.now) address.0 × First marks.now g.at.counts g.settings.misses 0 m }
    ensures { Joining g.settings (lent longs.now words.now marks.now) address.0 result }
{
    let entry = tables::find_entry(longs, g.at.misses, m, address);
    let count = marks[g.at.counts + entry] as usize;
    if g.settings.readers <= count {
        return Err(Refusal::EntryFull);
    }
    Ok(MissPlan::Joins { entry, count })
}

// The plan of a read that needs a new entry, behind m others.
fn start_plan(s: Settings, m: usize) -> Result<MissPlan, Refusal>
    ensures { result ≡ starting s m }
{
    if s.misses <= m {
        return Err(Refusal::MissTableFull);
    }
    Ok(MissPlan::Starts(m))
}

// The plan of a read whose place is decided.
pub(crate) fn miss_plan(
    g: Geometry,
    longs: &[u64],
    words: &[u32],
    marks: &[u8],
    o: Offer,
) -> Result<MissPlan, Refusal>
    requires placed { Placed g.settings g.at (lent longs.now words.now marks.now) o }
    requires reads { is_read o.access ≡ true }
    ensures { Planned g.settings (lent longs.now words.now marks.now) o.access o.decision result }
{
    let d = o.decision;
    if g.settings.queue < o.queued + places_needed(d) {
        return Err(Refusal::QueueFull);
    }
    match d.answer {
        Answer::HitReserved => {
            let address = SectorAddress(values::address_of(o.access));
            join_plan(g, longs, words, marks, address, o.missed)
        }
        Answer::Miss | Answer::SectorMiss => start_plan(g.settings, o.missed),
        Answer::Hit => Ok(MissPlan::Stays),
    }
}
