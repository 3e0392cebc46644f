// Sectors in the slices: one of them; a line's four lifted as one array and stored whole, column by column; one of a line's four
// replaced, by way of the array; four with one of them changed, for a line taken over.
ghost use Rattle.std.specs.Prelude.{◌≡◌, ◌+◌, ◌*◌, ◌≤◌, ◌<◌, length, get_or, set, true, ℕ};
ghost use lib.Seq.{sets};
ghost use Rattle.model.specs.Numbers.{status_number};
ghost use Rattle.model.specs.Range.{lines_of};
ghost use Rattle.model.specs.Lent.{bit, sector_at, sectors_at};
ghost use Rattle.words.specs.Words.{pick};
ghost use Rattle.words.specs.Regions.{put};
ghost use Rattle.layout.specs.Sectors.{SectorRoom, LineRoom, Plain, Column, Stand, StoredBack, OthersStored, but_one, statuses, masks, readables};

use crate::{Geometry, Layout};
use model::{Sector, Status};

// Sector `i` of all lines.
pub fn sector_at(g: Geometry, words: &[u32], marks: &[u8], i: usize) -> Sector
    requires { SectorRoom g words.now marks.now × (i < 4 * lines_of g.settings) }
    ensures { result ≡ sector_at g.settings words.now marks.now i }
{
    Sector {
        status: Status::from(marks[i]),
        mask: words[g.at.masks + i],
        readable: marks[g.at.readables + i] == 1,
    }
}

// The four sectors of a line.
pub fn lift(g: Geometry, words: &[u32], marks: &[u8], line: usize) -> [Sector; 4]
    requires { SectorRoom g words.now marks.now × (line < lines_of g.settings) }
    ensures { result ≡ sectors_at g.settings words.now marks.now line }
{
    let i = 4 * line;
    [
        sector_at(g, words, marks, i),
        sector_at(g, words, marks, i + 1),
        sector_at(g, words, marks, i + 2),
        sector_at(g, words, marks, i + 3),
    ]
}

// The masks of four sectors.
fn masks_of(four: [Sector; 4]) -> [u32; 4]
    ensures { result ≡ masks four }
{
    four.map(|x| x.mask)
}

// Their statuses, as they are stored.
fn statuses_of(four: [Sector; 4]) -> [u8; 4]
    ensures { result ≡ statuses four }
{
    four.map(|x| u8::from(x.status))
}

// Whether each of them is readable, as it is stored.
fn readables_of(four: [Sector; 4]) -> [u8; 4]
    ensures { result ≡ readables four }
{
    four.map(|x| u8::from(x.readable))
}

// Stores the four sectors of a line back.
pub fn store(at: Layout, words: &mut [u32], marks: &mut [u8], line: usize, four: [Sector; 4])
    requires { (at.masks + 4 * line + 4 ≤ length words.old) × (4 * line + 4 ≤ length marks.old) × (at.readables + 4 * line + 4 ≤ length marks.old) }
    ensures { (words.new ≡ put words.old (at.masks + 4 * line) (masks four))
        × (marks.new ≡ put (put marks.old (4 * line) (statuses four)) (at.readables + 4 * line) (readables four)) }
{
    let s = 4 * line;
    let w = at.masks + s;
    let r = at.readables + s;
    words[w..w + 4].copy_from_slice(&masks_of(four));
    marks[s..s + 4].copy_from_slice(&statuses_of(four));
    marks[r..r + 4].copy_from_slice(&readables_of(four));
}

// Element `i` becomes `is` where `was` stands; not of the sector that changes, which is stored by itself.
fn keep<T: Copy + PartialEq>(s: &mut [T], i: usize, other: bool, was: T, is: T)
    requires exact { (x y : T) → T.eq x y ≡ true → x ≡ y }
    requires there { (i < length s.old) × (get_or s.old i was ≡ was) }
    ensures { s.new ≡ set s.old i (pick other is was) }
{
    if other & (was != is) {
        s[i] = is;
    }
}

// An element of each of four sectors, from `at` on, where `was` stand: all but sector `k`'s.
fn keep_column<T: Copy + PartialEq>(s: &mut [T], at: usize, k: usize, was: [T; 4], is: [T; 4])
    requires exact { (x y : T) → T.eq x y ≡ true → x ≡ y }
    requires there { (at + 4 ≤ length s.old) × ((j : ℕ) (d : T) → j < 4 → get_or s.old (at + j) d ≡ get_or was j d) }
    ensures { (d : T) → s.new ≡ sets s.old at (set is k (get_or was k d)) }
{
    keep(s, at, k != 0, was[0], is[0]);
    keep(s, at + 1, k != 1, was[1], is[1]);
    keep(s, at + 2, k != 2, was[2], is[2]);
    keep(s, at + 3, k != 3, was[3], is[3]);
}

// Stores the four sectors of a line back, of which `found` stand there: all but sector `k`, which the caller stores.
fn store_others(
    at: Layout,
    words: &mut [u32],
    marks: &mut [u8],
    line: usize,
    k: usize,
    found: [Sector; 4],
    four: [Sector; 4],
)
    requires { LineRoom at line words.old marks.old × Stand at line found words.old marks.old }
    ensures { OthersStored at line k found four words.old marks.old words.new marks.new }
{
    let q = 4 * line;
    keep_column(words, at.masks + q, k, masks_of(found), masks_of(four));
    keep_column(marks, q, k, statuses_of(found), statuses_of(four));
    keep_column(
        marks,
        at.readables + q,
        k,
        readables_of(found),
        readables_of(four),
    );
}

// Stores sector `k` of a line.
fn store_one(at: Layout, words: &mut [u32], marks: &mut [u8], line: usize, k: usize, x: Sector)
    requires { LineRoom at line words.old marks.old × (k < 4) }
    ensures { (words.new ≡ set words.old (at.masks + 4 * line + k) x.mask)
        × (marks.new ≡ set (set marks.old (4 * line + k) (status_number x.status)) (at.readables + 4 * line + k) (bit x.readable)) }
{
    let q = 4 * line;
    let w = at.masks + q;
    let r = at.readables + q;
    words[w + k] = x.mask;
    marks[q + k] = u8::from(x.status);
    marks[r + k] = u8::from(x.readable);
}

// The four of a line with sector `k` changed to `x` are stored back but for that. In each arm it is known which one that is and that the
// others stand there, so that the compiler writes none of them.
fn store_rest(
    at: Layout,
    words: &mut [u32],
    marks: &mut [u8],
    line: usize,
    k: usize,
    f: [Sector; 4],
    x: Sector,
)
    requires { LineRoom at line words.old marks.old × Stand at line f words.old marks.old × (k < 4) }
    ensures { OthersStored at line k f (set f k x) words.old marks.old words.new marks.new }
{
    match k {
        0 => store_others(at, words, marks, line, 0, f, [x, f[1], f[2], f[3]]),
        1 => store_others(at, words, marks, line, 1, f, [f[0], x, f[2], f[3]]),
        2 => store_others(at, words, marks, line, 2, f, [f[0], f[1], x, f[3]]),
        _ => store_others(at, words, marks, line, 3, f, [f[0], f[1], f[2], x]),
    }
}

// Sector `k` of a line becomes `x`: the line's four sectors are lifted as one array, one place is changed, and the array is stored back,
// that place last.
pub fn replace(g: Geometry, words: &mut [u32], marks: &mut [u8], line: usize, k: usize, x: Sector)
    requires { SectorRoom g words.old marks.old × (line < lines_of g.settings) × (k < 4) × Plain g.at line marks.old }
    ensures { StoredBack g.at line (set (sectors_at g.settings words.old marks.old line) k x)
        words.old marks.old words.new marks.new }
{
    let found = lift(g, words, marks, line);
    store_rest(g.at, words, marks, line, k, found, x);
    store_one(g.at, words, marks, line, k, x);
}

// One of two.
fn either<T: Drop>(first: bool, x: T, y: T) -> T
    ensures { result ≡ pick first x y }
{
    if first { x } else { y }
}

// One of two sectors, number by number: the compiler chooses between numbers without a jump, where one by sector numbers is mostly guessed wrong.
fn sector_or(first: bool, x: Sector, y: Sector) -> Sector
    ensures { result ≡ pick first x y }
{
    Sector {
        status: either(first, x.status, y.status),
        mask: either(first, x.mask, y.mask),
        readable: either(first, x.readable, y.readable),
    }
}

// The four with sector `k` changed. `k` is a byte, so that the compiler compares four at once, as it does the statuses.
pub fn with_sector(four: [Sector; 4], k: u8, x: Sector) -> [Sector; 4]
    requires { k < 4 }
    ensures { result ≡ set four k x }
{
    [
        sector_or(k == 0, x, four[0]),
        sector_or(k == 1, x, four[1]),
        sector_or(k == 2, x, four[2]),
        sector_or(k == 3, x, four[3]),
    ]
}
