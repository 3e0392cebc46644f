// Conditions 11 to 16, 18 and 24 of sound tables: the miss table. An entry looks only into the set of its address.
ghost use Rattle.std.specs.Prelude.{◌≡◌, ◌+◌, ◌*◌, ◌<◌};
ghost use Rattle.words.specs.Words.{every, some};
ghost use Rattle.model.specs.Address.{set_index};
ghost use Rattle.model.specs.SoundLent as is;
ghost use Rattle.layout.specs.Held.{held};

use crate::first::FineLines;
use crate::search::{has_entry, reads_for};
use layout::Slices;
use model::SectorAddress;
use values::{block_of, sector_index};

// A line of the set of the address has its sector RESERVED. Such a line is live.
fn set_reserves(t: &Slices, a: SectorAddress) -> bool
    ensures { let s = t.now.geometry.settings in
        result ≡ some s.ways (λ w. held t.now is.reserved_for a.0 (set_index s a.0 * s.ways + w)) }
{
    let ways = t.geometry.settings.ways;
    let block = block_of(a.0);
    let sector = sector_index(a.0);
    let first = values::set_index(a.0, t.geometry.settings.sets) * ways;
    (first..first + ways).any(|l| (t.longs[l] == block.0) & (t.marks[4 * l + sector] == 1))
}

// Past the tickets of its entry ticket place `i` is 0.
fn ticket_fine(t: &Slices, i: usize) -> bool
    requires { let s = t.now.geometry.settings in i < s.readers * s.misses }
    ensures { result ≡ held t.now is.ticket_fine i }
{
    let at = &t.geometry.at;
    let readers = t.geometry.settings.readers;
    let count = t.marks[at.counts + i / readers] as usize;
    !((count <= i % readers) & (t.words[at.tickets + i] != 0))
}

// The condition on every ticket place.
pub(crate) fn tickets_fine(t: &Slices) -> bool
    ensures { let s = t.now.geometry.settings in
        result ≡ every (s.readers * s.misses) (held t.now is.ticket_fine) }
{
    let s = t.geometry.settings;
    (0..s.readers * s.misses).all(|i| ticket_fine(t, i))
}

// The lines are fine, so only the set of an entry's address can have its sector. The reads are among the used places.
fn entry_fine(f: &FineLines, e: usize) -> bool
    requires { e < f.now.slices.geometry.settings.misses }
    ensures { result ≡ held f.now.slices is.entry_fine e }
{
    let t = &f.slices;
    let at = &t.geometry.at;
    let count = t.marks[at.counts + e] as usize;
    let mark = t.marks[at.sent + e];
    let a = t.longs[at.misses + e];
    if count == 0 {
        return (a == 0) & (mark == 0);
    }
    let named = (count <= t.geometry.settings.readers)
        & (mark <= 1)
        & (a % 32 == 0)
        & set_reserves(t, SectorAddress(a))
        & !has_entry(t, e, SectorAddress(a));
    if mark != 0 {
        return named;
    }
    named & (reads_for(f, SectorAddress(a)) == 1)
}

// The conditions on every miss entry.
pub(crate) fn entries_fine(f: &FineLines) -> bool
    ensures { result ≡ every f.now.slices.geometry.settings.misses (held f.now.slices is.entry_fine) }
{
    (0..f.slices.geometry.settings.misses).all(|e| entry_fine(f, e))
}
