// An address looked for among the miss entries and the queue's reads. The address is compared first, since it seldom is the one.
ghost use Rattle.std.specs.Prelude.{◌≡◌, ◌≤◌, ◌<◌};
ghost use Rattle.words.specs.Words.{some, count_below};
ghost use Rattle.model.specs.SoundLent as is;
ghost use Rattle.layout.specs.Held.{held};

use crate::first::FineLines;
use layout::Slices;
use model::SectorAddress;

// Entry `e` is in use and has the address.
fn is_entry(t: &Slices, e: usize, a: SectorAddress) -> bool
    requires { e < t.now.geometry.settings.misses }
    ensures { result ≡ held t.now is.entry_at_for a.0 e }
{
    let at = &t.geometry.at;
    t.longs[at.misses + e] == a.0 && t.marks[at.counts + e] != 0
}

// Entry `e` is in use, unsent, and has the address.
fn is_unsent(t: &Slices, e: usize, a: SectorAddress) -> bool
    requires { e < t.now.geometry.settings.misses }
    ensures { result ≡ held t.now is.unsent_at_for a.0 e }
{
    is_entry(t, e, a) && t.marks[t.geometry.at.sent + e] == 0
}

// Queue place `p` has a read of the address.
fn is_read(t: &Slices, p: usize, a: SectorAddress) -> bool
    requires { p < t.now.geometry.settings.queue }
    ensures { result ≡ held t.now is.read_for a.0 p }
{
    let at = &t.geometry.at;
    t.longs[at.queue + p] == a.0 && t.marks[at.kinds + p] == 1
}

// One of the first `n` entries is in use and has the address.
pub(crate) fn has_entry(t: &Slices, n: usize, a: SectorAddress) -> bool
    requires { n ≤ t.now.geometry.settings.misses }
    ensures { result ≡ some n (held t.now is.entry_at_for a.0) }
{
    (0..n).any(|e| is_entry(t, e, a))
}

// An unsent entry has the address.
pub(crate) fn has_unsent(t: &Slices, a: SectorAddress) -> bool
    ensures { result ≡ some t.now.geometry.settings.misses (held t.now is.unsent_at_for a.0) }
{
    (0..t.geometry.settings.misses).any(|e| is_unsent(t, e, a))
}

// How many reads of the address are queued, all of them among the places in use.
pub(crate) fn reads_for(f: &FineLines, a: SectorAddress) -> usize
    ensures { result ≡ count_below f.now.slices.geometry.settings.queue (held f.now.slices is.read_for a.0) }
{
    (0..f.queued).filter(|&p| is_read(&f.slices, p, a)).count()
}
