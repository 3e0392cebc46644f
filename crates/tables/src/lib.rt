// Leaves over the lent slices at offsets inside them: a region that closes up, a search, the queue, the miss table, a line's tag and
// statuses, a line of which one sector changes. The contracts speak of the raw numbers. Where the parts lie and a line's four sectors are in `layout`.
#![tactic(auto)]

ghost use Rattle.std.specs.Prelude.{◌≡◌, ◌+◌, ◌-◌, ◌*◌, ◌≤◌, ◌<◌, [], ◌∷◌, length, replicate, eqb};
ghost use Rattle.words.specs.Words.{pad_to};
ghost use Rattle.model.specs.Range.{lines_of};
ghost use Rattle.model.specs.Numbers.{queue_kind_number};
ghost use Rattle.words.specs.Regions.{region, put, closed};
ghost use Rattle.model.specs.declared.Event.TheVariants as event;
ghost use Rattle.layout.specs.Places.{First};
ghost use Rattle.layout.specs.Sectors.{SectorRoom, Plain};
ghost use Rattle.tables.specs.Raw.{closed_with, front_at, ZerosFrom, statuses_at, unused_at, waiting_at, dirty_at, clean_at, holds_at};
ghost use Rattle.tables.specs.Telling.{telling};
ghost use Rattle.tables.specs.Changed.{CountFits, Changed};

use layout::{Geometry, Layout};
use model::{BlockAddress, Event, QueueKind, Queued, Refusal, Reply, Sector, SectorAddress};
use values::idle;

// The low seven bits of each of four bytes, to which a number can be added inside the byte; then their top bits.
const LOWS: u32 = 0x7f7f_7f7f;

const TOPS: u32 = 0x8080_8080;

// One event and no more.
pub fn blank(first: Event) -> Reply
    ensures { result ≡ telling first }
{
    Reply {
        first,
        queued: [idle(); 2],
        queues: 0,
        tickets: [0; 8],
        count: 0,
    }
}

// What a refused call tells.
pub fn refused(n: Refusal) -> Reply
    ensures { result ≡ telling (event.Refused n) }
{
    blank(Event::Refused(n))
}

// Of the elements from `from` to `to` the first `by` go; the others move down, and `zero` stands in the places that this leaves at the end.
fn close<T: Copy>(s: &mut [T], from: usize, to: usize, by: usize, zero: T)
    requires within { (from + by ≤ to) × (to ≤ length s.old) }
    requires cloned { T.is_infallible zero × ((y : T) → T.is_clone zero y → y ≡ zero) }
    ensures { s.new ≡ closed_with zero s.old from (to - from) by }
{
    s.copy_within(from + by..to, from);
    s[to - by..to].fill(zero);
}

// The first of `n` miss addresses from `at` that is the address, or `n`: no Option, since those who ask go on with
// `e < n`, which `First` says both cases of. The first address is looked at by itself: the entry then comes from two places, and the compiler
// carries no running address of a column through the search.
pub fn find_entry(longs: &[u64], at: usize, n: usize, address: SectorAddress) -> usize
    requires { at + n ≤ length longs.now }
    ensures { First longs.now at n address.0 result }
{
    if 0 < n && SectorAddress(longs[at]) == address {
        return 0;
    }
    longs[at..at + n]
        .iter()
        .position(|x| SectorAddress(*x) == address)
        .unwrap_or(n)
}

// `n` numbers from `at`, then zeros. Mostly there is one, which asks for no loop: `copy_from_slice` takes some 40 instructions more a fill.
pub fn copy_out(words: &[u32], at: usize, n: usize) -> [u32; 8]
    requires { (1 ≤ n) × (n ≤ 8) × (at + n ≤ length words.now) }
    ensures { result ≡ pad_to 8 (region words.now at n) }
{
    let mut out = [0u32; 8];
    out[0] = words[at];
    for i in 1..n {
        out[i] = words[at + i];
    }
    out
}

// ---- the queue

// The entry at the head.
pub fn front(at: Layout, longs: &[u64], words: &[u32], marks: &[u8]) -> Queued
    requires { (at.queue < length longs.now) × (at.backs + 4 ≤ length words.now) × (at.kinds < length marks.now) }
    ensures { result ≡ front_at longs.now at.queue words.now at.backs marks.now at.kinds }
{
    let l = at.queue;
    let w = at.backs;
    let m = at.kinds;
    Queued {
        address: longs[l],
        masks: [words[w], words[w + 1], words[w + 2], words[w + 3]],
        kind: QueueKind::from(marks[m]),
    }
}

// Takes the head out of the first `n` places; the others move down by one, and the last of them is zero. One loop over
// the three columns: mostly one entry moves, and three calls of `close` take some 40 instructions more.
pub fn pop(at: Layout, longs: &mut [u64], words: &mut [u32], marks: &mut [u8], n: usize)
    requires { (1 ≤ n) × (at.queue + n ≤ length longs.old) × (at.backs + 4 * n ≤ length words.old) × (at.kinds + n ≤ length marks.old) }
    ensures { (longs.new ≡ closed longs.old at.queue n 1)
        × (words.new ≡ closed words.old at.backs (4 * n) 4)
        × (marks.new ≡ closed marks.old at.kinds n 1) }
{
    let q = at.queue;
    let b = at.backs;
    let k = at.kinds;
    let last = n - 1;
    for i in 0..last {
        longs[q + i] = longs[q + i + 1];
        marks[k + i] = marks[k + i + 1];
        let w = b + 4 * i;
        words[w] = words[w + 4];
        words[w + 1] = words[w + 5];
        words[w + 2] = words[w + 6];
        words[w + 3] = words[w + 7];
    }
    longs[q + last] = 0;
    marks[k + last] = 0;
    let w = b + 4 * last;
    words[w] = 0;
    words[w + 1] = 0;
    words[w + 2] = 0;
    words[w + 3] = 0;
}

// Puts an entry at place `n`, the first free one.
pub fn push(
    at: Layout,
    longs: &mut [u64],
    words: &mut [u32],
    marks: &mut [u8],
    n: usize,
    entry: Queued,
)
    requires { (at.queue + n < length longs.old) × (at.backs + 4 * n + 4 ≤ length words.old) × (at.kinds + n < length marks.old) }
    ensures { (longs.new ≡ put longs.old (at.queue + n) (entry.address ∷ []))
        × (words.new ≡ put words.old (at.backs + 4 * n) entry.masks)
        × (marks.new ≡ put marks.old (at.kinds + n) (queue_kind_number entry.kind ∷ [])) }
{
    let l = at.queue + n;
    let w = at.backs + 4 * n;
    let m = at.kinds + n;
    longs[l] = entry.address;
    words[w..w + 4].copy_from_slice(&entry.masks);
    marks[m] = u8::from(entry.kind);
}

// ---- the miss table, of `readers` ticket places an entry

// A row of numbers, of which the first `n` may not be 0, becomes 0. Mostly there is one, which asks for no loop.
fn clear_row(words: &mut [u32], at: usize, n: usize, row: usize)
    requires { (1 ≤ n) × (n ≤ row) × (at + row ≤ length words.old) × ZerosFrom words.old at n row }
    ensures { words.new ≡ put words.old at (replicate row 0) }
{
    if 1 < n {
        words[at..at + n].fill(0);
    } else {
        words[at] = 0;
    }
}

// Takes entry `e`, which has `count` tickets, out of the first `n`; later ones close up, and the last of them is zero. Behind the last
// nothing moves.
pub fn remove(
    at: Layout,
    longs: &mut [u64],
    words: &mut [u32],
    marks: &mut [u8],
    e: usize,
    n: usize,
    readers: usize,
    count: usize,
)
    requires le_count { (1 ≤ count) × (count ≤ readers) × ZerosFrom words.old (at.tickets + readers * e) count readers }
    requires e_lt_n { (e < n) × (at.misses + n ≤ length longs.old) × (at.tickets + readers * n ≤ length words.old) × (at.sent + n ≤ length marks.old) × (at.counts + n ≤ length marks.old) }
    ensures { (longs.new ≡ closed longs.old (at.misses + e) (n - e) 1)
        × (words.new ≡ closed words.old (at.tickets + readers * e) (readers * (n - e)) readers)
        × (marks.new ≡ closed (closed marks.old (at.sent + e) (n - e) 1) (at.counts + e) (n - e) 1) }
{
    if e + 1 == n {
        longs[at.misses + e] = 0;
        clear_row(words, at.tickets + readers * e, count, readers);
        marks[at.sent + e] = 0;
        marks[at.counts + e] = 0;
        return;
    }
    close(longs, at.misses + e, at.misses + n, 1, 0);
    close(
        words,
        at.tickets + readers * e,
        at.tickets + readers * n,
        readers,
        0,
    );
    close(marks, at.sent + e, at.sent + n, 1, 0);
    close(marks, at.counts + e, at.counts + n, 1, 0);
}

// A ticket joins entry `e`, which has `n` of them, behind these.
pub fn append_ticket(
    at: Layout,
    words: &mut [u32],
    marks: &mut [u8],
    e: usize,
    n: usize,
    readers: usize,
    ticket: u32,
)
    requires { (n < 8) × (at.tickets + readers * e + n < length words.old) × (at.counts + e < length marks.old) }
    ensures { (words.new ≡ put words.old (at.tickets + readers * e + n) (ticket ∷ []))
        × (marks.new ≡ put marks.old (at.counts + e) ((n + 1) ∷ [])) }
{
    let w = at.tickets + readers * e + n;
    let m = at.counts + e;
    words[w] = ticket;
    marks[m] = (n + 1) as u8;
}

// An unsent entry with one ticket at place `e`, the first free one.
pub fn new_entry(
    at: Layout,
    longs: &mut [u64],
    words: &mut [u32],
    marks: &mut [u8],
    e: usize,
    readers: usize,
    address: SectorAddress,
    ticket: u32,
)
    requires { (at.misses + e < length longs.old) × (at.tickets + readers * e < length words.old) × (at.counts + e < length marks.old) }
    ensures { (longs.new ≡ put longs.old (at.misses + e) (address.0 ∷ []))
        × (words.new ≡ put words.old (at.tickets + readers * e) (ticket ∷ []))
        × (marks.new ≡ put marks.old (at.counts + e) (1 ∷ [])) }
{
    let l = at.misses + e;
    let w = at.tickets + readers * e;
    let m = at.counts + e;
    longs[l] = address.0;
    words[w] = ticket;
    marks[m] = 1;
}

// ---- a line's tag and statuses

// The four status bytes of line `l` as one number, so that a test reads them once.
pub fn statuses_at(marks: &[u8], l: usize) -> u32
    requires { 4 * l + 4 ≤ length marks.now }
    ensures { result ≡ statuses_at marks.now l }
{
    let i = 4 * l;
    u32::from_le_bytes([marks[i], marks[i + 1], marks[i + 2], marks[i + 3]])
}

// Whether all four sectors of line `l` are INVALID.
pub fn is_unused(marks: &[u8], l: usize) -> bool
    requires { 4 * l + 4 ≤ length marks.now }
    ensures { result ≡ unused_at marks.now l }
{
    statuses_at(marks, l) == 0
}

// Whether a sector of line l is RESERVED: a byte 1 is 0 in x, the one byte whose top bit 127 more does not set.
pub fn is_waiting(marks: &[u8], l: usize) -> bool
    requires { 4 * l + 4 ≤ length marks.now }
    ensures { result ≡ waiting_at marks.now l }
{
    let x = statuses_at(marks, l) ^ 0x0101_0101;
    ((((x & LOWS) + LOWS) | x) & TOPS) != TOPS
}

// Whether a sector of line l is MODIFIED: a byte above 2, as any such number reads, has its top bit or gets it from 125 more.
pub fn is_dirty(marks: &[u8], l: usize) -> bool
    requires { 4 * l + 4 ≤ length marks.now }
    ensures { result ≡ dirty_at marks.now l }
{
    let x = statuses_at(marks, l);
    ((((x & LOWS) + 0x7d7d_7d7d) | x) & TOPS) != 0
}

// Whether every sector of line l is INVALID or VALID: 0 and 2 have no bit but the second.
pub fn is_clean(marks: &[u8], l: usize) -> bool
    requires { 4 * l + 4 ≤ length marks.now }
    ensures { result ≡ clean_at marks.now l }
{
    (statuses_at(marks, l) & 0xfdfd_fdfd) == 0
}

// Tags are block addresses. The tag is compared first: most ways differ there.
pub fn holds_block(longs: &[u64], marks: &[u8], l: usize, block: BlockAddress) -> bool
    requires { (l < length longs.now) × (4 * l + 4 ≤ length marks.now) }
    ensures { result ≡ holds_at longs.now marks.now block.0 l }
{
    BlockAddress(longs[l]) == block && !is_unused(marks, l)
}

// ---- a line of which one sector changes

// Sector `k` of the line becomes `x`, and the dirty count follows: the line `was` dirty, and `is` dirty then. Mostly the caller knows that
// without a look at the line.
pub fn change(
    g: Geometry,
    words: &mut [u32],
    marks: &mut [u8],
    line: usize,
    k: usize,
    x: Sector,
    was: bool,
    is: bool,
)
    requires sector_room { SectorRoom g words.old marks.old × (line < lines_of g.settings) × (k < 4) × Plain g.at line marks.old }
    requires dirty_in_bounds { (g.at.dirty < length words.old) × CountFits g.at line words.old marks.old × (was ≡ dirty_at marks.old line) }
    ensures { Changed g.settings g.at line k x is words.old marks.old words.new marks.new }
{
    layout::recount(words, g.at.dirty, was, is);
    layout::replace(g, words, marks, line, k, x);
}
