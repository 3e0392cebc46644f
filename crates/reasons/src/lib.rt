// What a refused access waits for, read off the lent slices: a miss entry that has to come back, dirty lines, queue places. Nothing is
// written here. `reason_for` is public and asks nothing; `reason_held` is its part behind the checks, for a caller that holds sound
// tables and their layout.
#![tactic(auto)]

ghost use Rattle.std.specs.Prelude.{◌≡◌, true, ◌+◌, ◌*◌, ◌≤◌, length};
ghost use Rattle.model.specs.Range.{power_to256};
ghost use Rattle.model.specs.Address.{address_of, set_index};
ghost use Rattle.model.specs.Tables.{entry_for};
ghost use Rattle.model.specs.Lent.{lent};
ghost use Rattle.model.specs.Inner.{SoundSlices};
ghost use Rattle.reasons.specs.Reasons.{entry_reason, of_set, any_entry, missing_lines, lines_reason, queue_reason, reason_for, reason_call};
ghost use Rattle.reasons.specs.Parts.{FirstInSet, entry_shown, Gives};

use layout::{Geometry, Layout};
use model::{Access, Event, Refusal, SectorAddress, Settings};

// Entry: the miss entry that has to come back, its sector address, whether its read was sent, and its readers. Lines: how many more
// dirty lines let the set go, how many of the lines are dirty, and the percentage asked. Queue: the head, as the event of its sending,
// and the places that are free. Nothing, and no Option: that no wait helps is an answer that a page shows as it shows the others.
#[derive(Clone, Copy)]
pub enum Reason {
    Entry {
        address: u64,
        sent: bool,
        readers: usize,
    },
    Lines {
        missing: usize,
        dirty: usize,
        lines: usize,
        percent: usize,
    },
    Queue {
        head: Event,
        free: usize,
    },
    Nothing,
}

// The first of `n` miss addresses from `at` that is of this set, or `n`.
// `n` and no Option, as `tables::find_entry`, whose place it takes for a whole set.
fn first_in_set(longs: &[u64], at: usize, n: usize, sets: usize, set: usize) -> usize
    requires { (at + n ≤ length longs.now) × (power_to256 sets ≡ true) }
    ensures { FirstInSet longs.now at n sets set result }
{
    for i in 0..n {
        if values::set_index(longs[at + i], sets) == set {
            return i;
        }
    }
    n
}

// Entry `e`, if it is one of the `n` that there are.
fn entry_reason(at: Layout, longs: &[u64], marks: &[u8], e: usize, n: usize) -> Reason
    requires { (at.misses + n ≤ length longs.now) × (at.sent + n ≤ length marks.now) × (at.counts + n ≤ length marks.now) }
    ensures { result ≡ entry_shown at longs.now marks.now e n }
{
    if n <= e {
        return Reason::Nothing;
    }
    let l = at.misses + e;
    let m = at.sent + e;
    let k = at.counts + e;
    Reason::Entry {
        address: longs[l],
        sent: marks[m] == 1,
        readers: marks[k] as usize,
    }
}

// 5: the oldest entry of the access's set.
fn busy_reason(g: Geometry, longs: &[u64], words: &[u32], marks: &[u8], x: Access) -> Reason
    requires { SoundSlices g.settings (lent longs.now words.now marks.now) }
    ensures { Gives g.settings (λ t. entry_reason (of_set g.settings.sets (set_index g.settings (address_of x))) t.misses) (lent longs.now words.now marks.now) result }
{
    let n = layout::used(marks, g.at.counts, g.settings.misses);
    let set = values::set_index(values::address_of(x), g.settings.sets);
    let e = first_in_set(longs, g.at.misses, n, g.settings.sets, set);
    entry_reason(g.at, longs, marks, e, n)
}

// 8: the entry for the access's address, which has all its readers.
fn readers_reason(g: Geometry, longs: &[u64], words: &[u32], marks: &[u8], x: Access) -> Reason
    requires { SoundSlices g.settings (lent longs.now words.now marks.now) }
    ensures { Gives g.settings (λ t. entry_reason (entry_for (address_of x)) t.misses) (lent longs.now words.now marks.now) result }
{
    let n = layout::used(marks, g.at.counts, g.settings.misses);
    let address = SectorAddress(values::address_of(x));
    let e = tables::find_entry(longs, g.at.misses, n, address);
    entry_reason(g.at, longs, marks, e, n)
}

// 9: the oldest entry of all.
fn table_reason(g: Geometry, longs: &[u64], words: &[u32], marks: &[u8]) -> Reason
    requires { SoundSlices g.settings (lent longs.now words.now marks.now) }
    ensures { Gives g.settings (λ t. entry_reason any_entry t.misses) (lent longs.now words.now marks.now) result }
{
    let n = layout::used(marks, g.at.counts, g.settings.misses);
    entry_reason(g.at, longs, marks, 0, n)
}

// The least k with 100 × (dirty + k) ≥ P × lines.
fn missing_lines(percent: usize, lines: usize, dirty: usize) -> usize
    requires { (percent * lines ≤ 102400) × (dirty ≤ 1024) }
    ensures { result ≡ missing_lines percent lines dirty }
{
    let wanted = percent * lines;
    let there = 100 * dirty;
    if wanted <= there {
        return 0;
    }
    (wanted - there + 99) / 100
}

// 6: the dirty lines that are missing.
fn held_reason(g: Geometry, longs: &[u64], words: &[u32], marks: &[u8]) -> Reason
    requires { SoundSlices g.settings (lent longs.now words.now marks.now) }
    ensures { Gives g.settings (λ t. lines_reason g.settings t.dirty_count) (lent longs.now words.now marks.now) result }
{
    let s = g.settings;
    let lines = s.sets * s.ways;
    let dirty = words[g.at.dirty] as usize;
    let percent = s.dirty;
    let missing = missing_lines(percent, lines, dirty);
    Reason::Lines {
        missing,
        dirty,
        lines,
        percent,
    }
}

// 7: the queue's head.
fn queue_reason(g: Geometry, longs: &[u64], words: &[u32], marks: &[u8]) -> Reason
    requires { SoundSlices g.settings (lent longs.now words.now marks.now) }
    ensures { Gives g.settings (λ t. queue_reason g.settings.queue t.queue) (lent longs.now words.now marks.now) result }
{
    let n = layout::used(marks, g.at.kinds, g.settings.queue);
    if n == 0 {
        return Reason::Nothing;
    }
    let head = values::sent_event(tables::front(g.at, longs, words, marks));
    let free = g.settings.queue - n;
    Reason::Queue { head, free }
}

// On sound tables: what the access waits for that was refused by this number.
// The three by themselves, as the caller has them between two writes.
pub fn reason_held(
    g: Geometry,
    longs: &[u64],
    words: &[u32],
    marks: &[u8],
    x: Access,
    n: Refusal,
) -> Reason
    requires { SoundSlices g.settings (lent longs.now words.now marks.now) }
    ensures { Gives g.settings (λ t. reason_for g.settings x t n) (lent longs.now words.now marks.now) result }
{
    match n {
        Refusal::SetBusy => busy_reason(g, longs, words, marks, x),
        Refusal::SetHeld => held_reason(g, longs, words, marks),
        Refusal::QueueFull => queue_reason(g, longs, words, marks),
        Refusal::EntryFull => readers_reason(g, longs, words, marks, x),
        Refusal::MissTableFull => table_reason(g, longs, words, marks),
        Refusal::SettingOutOfRange
        | Refusal::SliceLength
        | Refusal::NotSound
        | Refusal::BadAccess
        | Refusal::NotSent
        | Refusal::BadCycle
        | Refusal::QueueEmpty => Reason::Nothing,
    }
}

// The same of any settings and slices, behind refusals 1, 2 and 3, by which the tables tell nothing.
pub fn reason_for(
    s: Settings,
    longs: &[u64],
    words: &[u32],
    marks: &[u8],
    x: Access,
    n: Refusal,
) -> Result<Reason, Refusal>
    ensures { result ≡ reason_call s x n (lent longs.now words.now marks.now) }
{
    let g = soundness::checked_layout(s, longs, words, marks)?;
    Ok(reason_held(g, longs, words, marks, x, n))
}
