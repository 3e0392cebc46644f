// The inner steps over the three lent slices, behind the checks of the public calls: send, fill and tick. They ask that the slices are
// the encoding of sound tables, and tell and leave what the step on those tables says.
#![tactic(auto)]

ghost use Rattle.std.specs.Prelude.{◌≡◌, true, ◌&&◌, ℕ, ◌+◌, ◌*◌, ◌≤◌, ◌<◌, length, get_or, eqb, ltb};
ghost use Rattle.model.specs.Range.{lines_of};
ghost use Rattle.words.specs.Regions.{region};
ghost use Rattle.model.specs.Address.{block_of, sector_index, set_index};
ghost use Rattle.model.specs.Lent.{lent};
ghost use Rattle.model.specs.Steps.{send, arrived, fill, tick};
ghost use Rattle.model.specs.Inner.{Sized, SoundSlices, Does};
ghost use Rattle.layout.specs.Places.{First};
ghost use Rattle.layout.specs.Sectors.{SectorRoom, Plain};
ghost use Rattle.tables.specs.Raw.{holds_at};
ghost use Rattle.tables.specs.Changed.{CountFits};
ghost use Rattle.steps.specs.Parts.{HeadAsked, HeadMarked, Holding, SectorFilled, LineFilled, releasing};

use layout::{Geometry, Layout};
use model::{
    BlockAddress, Event, QueueKind, Queued, Refusal, Reply, Sector, SectorAddress, Settings, Status,
};

// The last cycle that a tick may set.
const LAST_CYCLE: u32 = 0xFFFF_FFFE;

// ---- send

// Marks the entry of the queue's head as sent, if that is a read; `n` entries are looked at.
fn mark_head(at: Layout, longs: &[u64], marks: &mut [u8], n: usize, head: Queued)
    requires in_bounds { (at.misses + n ≤ length longs.now) × (at.sent + n ≤ length marks.old) }
    requires head_asked { HeadAsked at n longs.now head }
    ensures { HeadMarked at n longs.now head marks.old marks.new }
{
    if let QueueKind::Read = head.kind {
        let e = tables::find_entry(longs, at.misses, n, SectorAddress(head.address));
        marks[at.sent + e] = 1;
    }
}

// Takes the queue head of the n entries; a read marks its entry sent.
pub fn send_counted(
    g: Geometry,
    longs: &mut [u64],
    words: &mut [u32],
    marks: &mut [u8],
    n: usize,
) -> Reply
    requires { SoundSlices g.settings (lent longs.old words.old marks.old) × First marks.old g.at.kinds g.settings.queue 0 n }
    ensures { Does g.settings send (lent longs.old words.old marks.old) result
        (lent longs.new words.new marks.new) }
{
    if n == 0 {
        return tables::refused(Refusal::QueueEmpty);
    }
    let head = tables::front(g.at, longs, words, marks);
    mark_head(g.at, longs, marks, g.settings.misses, head);
    tables::pop(g.at, longs, words, marks, n);
    tables::blank(values::sent_event(head))
}

// The same, for a caller that doesn't know how many entries there are.
pub fn send_step(g: Geometry, longs: &mut [u64], words: &mut [u32], marks: &mut [u8]) -> Reply
    requires { SoundSlices g.settings (lent longs.old words.old marks.old) }
    ensures { Does g.settings send (lent longs.old words.old marks.old) result
        (lent longs.new words.new marks.new) }
{
    let n = layout::used(marks, g.at.kinds, g.settings.queue);
    send_counted(g, longs, words, marks, n)
}

// ---- fill

// The line that has the block, among the ways of its set from `base`.
// The first is looked at by itself: the line then comes from two places, and the compiler carries no second running address through the loop.
// Not `probe::find`: a way has the block, and there is no case for none.
fn find_line(longs: &[u64], marks: &[u8], base: usize, ways: usize, block: BlockAddress) -> usize
    requires ways_in_bounds { (base + ways ≤ length longs.now) × (4 * (base + ways) ≤ length marks.now) }
    requires holding { Holding longs.now marks.now base ways block.0 }
    ensures { (base ≤ result) × (result < base + ways) × (holds_at longs.now marks.now block.0 result ≡ true) }
{
    if tables::holds_block(longs, marks, base, block) {
        return base;
    }
    for l in base + 1..base + ways {
        if tables::holds_block(longs, marks, l, block) {
            return l;
        }
    }
    unreachable!()
}

// A sector whose data has come.
fn arrive(x: Sector) -> Sector
    ensures { result ≡ arrived x }
{
    let status = if x.mask == 0 {
        Status::Valid
    } else {
        Status::Modified
    };
    Sector {
        status,
        readable: true,
        ..x
    }
}

// The address's sector of line `l` arrives. Without a dirty byte the line stays as dirty as it was, with one it is dirty then.
fn fill_sector(g: Geometry, words: &mut [u32], marks: &mut [u8], l: usize, address: u64)
    requires l_bound { (l < lines_of g.settings) × SectorRoom g words.old marks.old × Plain g.at l marks.old }
    requires dirty_in_bounds { (g.at.dirty < length words.old) × CountFits g.at l words.old marks.old }
    ensures { SectorFilled g.settings g.at l (sector_index address) words.old marks.old words.new marks.new }
{
    let k = values::sector_index(address);
    let come = arrive(layout::sector_at(g, words, marks, 4 * l + k));
    let was = tables::is_dirty(marks, l);
    // Two calls: where the line stays as dirty as it was, the compiler leaves the count alone. By one call `run` takes more than 1.15 times the instructions of plain Rust.
    if come.mask == 0 {
        tables::change(g, words, marks, l, k, come, was, was);
    } else {
        tables::change(g, words, marks, l, k, come, was, true);
    }
}

// Fills the address's sector in the line that has its block.
fn fill_line(g: Geometry, longs: &[u64], words: &mut [u32], marks: &mut [u8], address: u64)
    requires sized { Sized g.settings longs.now words.old marks.old }
    requires holding { Holding longs.now marks.old (set_index g.settings address * g.settings.ways) g.settings.ways (block_of address) }
    requires by_index { (l : ℕ) → l < lines_of g.settings → CountFits g.at l words.old marks.old × Plain g.at l marks.old }
    ensures { LineFilled g.settings g.at (block_of address) (sector_index address) longs.now words.old marks.old
        words.new marks.new }
{
    let ways = g.settings.ways;
    let set = values::set_index(address, g.settings.sets);
    let block = values::block_of(address);
    let l = find_line(longs, marks, set * ways, ways, block);
    fill_sector(g, words, marks, l, address);
}

// Whether entry `e` is one of the `n` that there are, and sent.
fn is_sent(at: Layout, marks: &[u8], e: usize, n: usize) -> bool
    requires { at.sent + n ≤ length marks.now }
    ensures { result ≡ (ltb e n && eqb (get_or marks.now (at.sent + e) 0) 1) }
{
    e < n && marks[at.sent + e] == 1
}

// Of a sent sector address: its sector arrives, its entry, one of n, goes, its tickets are released in order.
pub fn fill_counted(
    g: Geometry,
    longs: &mut [u64],
    words: &mut [u32],
    marks: &mut [u8],
    n: usize,
    address: u64,
) -> Reply
    requires { SoundSlices g.settings (lent longs.old words.old marks.old) × First marks.old g.at.counts g.settings.misses 0 n }
    ensures { Does g.settings (fill address) (lent longs.old words.old marks.old) result
        (lent longs.new words.new marks.new) }
{
    let e = tables::find_entry(longs, g.at.misses, n, SectorAddress(address));
    if !is_sent(g.at, marks, e, n) {
        return tables::refused(Refusal::NotSent);
    }
    let readers = g.settings.readers;
    let count = marks[g.at.counts + e] as usize;
    let tickets = tables::copy_out(words, g.at.tickets + readers * e, count);
    fill_line(g, longs, words, marks, address);
    tables::remove(g.at, longs, words, marks, e, n, readers, count);
    Reply {
        count,
        tickets,
        ..tables::blank(Event::Filled(address))
    }
}

// The same, for a caller that doesn't know how many entries there are.
pub fn fill_step(
    g: Geometry,
    longs: &mut [u64],
    words: &mut [u32],
    marks: &mut [u8],
    address: u64,
) -> Reply
    requires { SoundSlices g.settings (lent longs.old words.old marks.old) }
    ensures { Does g.settings (fill address) (lent longs.old words.old marks.old) result
        (lent longs.new words.new marks.new) }
{
    let n = layout::used(marks, g.at.counts, g.settings.misses);
    fill_counted(g, longs, words, marks, n, address)
}

// ---- tick

// Sets the current cycle, if it is neither earlier nor above the limit.
pub fn tick_step(s: Settings, longs: &[u64], words: &mut [u32], marks: &[u8], cycle: u32) -> Reply
    requires { SoundSlices s (lent longs.now words.old marks.now) }
    ensures { Does s (tick cycle) (lent longs.now words.old marks.now) result
        (lent longs.now words.new marks.now) }
{
    if (cycle < words[0]) | (LAST_CYCLE < cycle) {
        return tables::refused(Refusal::BadCycle);
    }
    words[0] = cycle;
    tables::blank(Event::Ticked)
}
