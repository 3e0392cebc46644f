// Conditions 2 to 10, 17, 27 and 28 of sound tables: lines and their sectors. A line looks only into its own set, a RESERVED sector only
// into the miss table.
ghost use Rattle.std.specs.Prelude.{◌≡◌, true, not, ◌+◌, ◌*◌, ◌-◌, ◌≤◌, ◌<◌, eqb, length};
ghost use Rattle.words.specs.Words.{every};
ghost use Rattle.model.specs.Range.{lines_of};
ghost use Rattle.model.specs.Lent.{status_at};
ghost use Rattle.model.specs.SoundLent as is;
ghost use Rattle.layout.specs.Held.{held};
ghost use Rattle.soundness.specs.Shapes.{marks_shape, mask_shape};

use crate::first::FineLines;
use crate::search::has_entry;
use layout::Slices;
use model::SectorAddress;

// Some sector of line `l` isn't INVALID.
// The four by themselves, here and where a line is dirty or a place clean: the compiler asks them at once.
fn live(t: &Slices, l: usize) -> bool
    requires { l < lines_of t.now.geometry.settings }
    ensures { result ≡ held t.now is.live l }
{
    (t.marks[4 * l] != 0)
        | (t.marks[4 * l + 1] != 0)
        | (t.marks[4 * l + 2] != 0)
        | (t.marks[4 * l + 3] != 0)
}

// Line `m` isn't live, or its tag is not that of line `l`.
fn apart(t: &Slices, l: usize, m: usize) -> bool
    requires { (l < lines_of t.now.geometry.settings) × (m < lines_of t.now.geometry.settings) }
    ensures { result ≡ held t.now is.apart l m }
{
    t.longs[m] != t.longs[l] || !live(t, m)
}

// No live line from `first` up to line `l` has the tag of line `l`.
fn no_twin(t: &Slices, first: usize, l: usize) -> bool
    requires { (first ≤ l) × (l < lines_of t.now.geometry.settings) }
    ensures { result ≡ every (l - first) (λ w. held t.now is.apart l (first + w)) }
{
    (first..l).all(|m| apart(t, l, m))
}

// The conditions on one line's tag and cycles.
fn line_fine(t: &Slices, l: usize) -> bool
    requires { l < lines_of t.now.geometry.settings }
    ensures { result ≡ held t.now is.line_fine l }
{
    let ways = t.geometry.settings.ways;
    let tag = t.longs[l];
    let cycle = t.words[1 + l];
    let taken = t.words[t.geometry.at.taken + l];
    let latest = t.words[0];
    if !live(t, l) {
        return (tag == 0) & (cycle == 0) & (taken == 0);
    }
    let set = l / ways;
    let home = values::set_index(tag, t.geometry.settings.sets);
    (tag % 128 == 0)
        & (tag < 0x1_0000_0000_0000)
        & (home == set)
        & (cycle <= latest)
        & (taken <= cycle)
        & no_twin(t, set * ways, l)
}

// Those on every line.
pub(crate) fn lines_fine(t: &Slices) -> bool
    ensures { result ≡ held t.now is.lines_fine }
{
    let s = t.geometry.settings;
    (0..s.sets * s.ways).all(|l| line_fine(t, l))
}

// Conditions 2, 3 and what 6 asks of the status. With no branch, and on behind a fault, so that the loop compiles to several sectors at
// a time; apart from the masks, since bytes alone go four times as many.
fn marks_shaped(t: &Slices) -> bool
    ensures { let s = t.now.geometry.settings in
        result ≡ every (4 * lines_of s) (marks_shape s t.now.marks.now) }
{
    let s = t.geometry.settings;
    let readables = t.geometry.at.readables;
    let marks = t.marks;
    let mut fine = true;
    for i in 0..4 * (s.sets * s.ways) {
        let status = marks[i];
        let readable = marks[readables + i];
        fine = fine & ((status <= 3) & (readable <= 1) & ((readable != 0) | (status == 3)));
    }
    fine
}

// Conditions 4, 5 and what 6 asks of the mask, in the same way.
fn masks_shaped(t: &Slices) -> bool
    ensures { let s = t.now.geometry.settings in
        result ≡ every (4 * lines_of s) (mask_shape s t.now.words.now t.now.marks.now) }
{
    let s = t.geometry.settings;
    let at = t.geometry.at;
    let words = t.words;
    let marks = t.marks;
    let mut fine = true;
    for i in 0..4 * (s.sets * s.ways) {
        let status = marks[i];
        let readable = marks[at.readables + i];
        let mask = words[at.masks + i];
        let said = (status == 1) | ((mask != 0) == (status == 3));
        fine = fine & (said & ((readable != 0) | (mask != 0xFFFF_FFFF)));
    }
    fine
}

// Conditions 2 to 6.
fn sectors_shaped(t: &Slices) -> bool
    ensures { result ≡ every (4 * lines_of t.now.geometry.settings) (held t.now is.sector_shape) }
{
    marks_shaped(t) & masks_shaped(t)
}

// Condition 17. The lines are fine, so a RESERVED sector's tag is below 2^48 and its address fits.
fn sector_backed(f: &FineLines, i: usize) -> bool
    requires { i < 4 * lines_of f.now.slices.geometry.settings }
    ensures { result ≡ held f.now.slices is.sector_backed i }
{
    let t = &f.slices;
    if t.marks[i] != 1 {
        return true;
    }
    let sector = (i % 4) as u64;
    let a = SectorAddress(t.longs[i / 4] + 32 * sector);
    has_entry(t, t.geometry.settings.misses, a)
}

// None of the sixteen sectors from `first` on is RESERVED. Few are, and the compiler asks this of all sixteen at once.
fn none_reserved(marks: &[u8], first: usize) -> bool
    requires { first + 16 ≤ length marks.now }
    ensures { result ≡ every 16 (λ k. not (eqb (status_at marks.now (first + k)) 1)) }
{
    let mut none = true;
    for status in &marks[first..first + 16] {
        none = none & (*status != 1);
    }
    none
}

// Condition 17 of `n` sectors from `first` on.
fn backed_from(f: &FineLines, first: usize, n: usize) -> bool
    requires { first + n ≤ 4 * lines_of f.now.slices.geometry.settings }
    ensures { result ≡ every n (λ k. held f.now.slices is.sector_backed (first + k)) }
{
    (first..first + n).all(|i| sector_backed(f, i))
}

// The same of sixteen.
fn sixteen_backed(f: &FineLines, first: usize) -> bool
    requires { first + 16 ≤ 4 * lines_of f.now.slices.geometry.settings }
    ensures { result ≡ every 16 (λ k. held f.now.slices is.sector_backed (first + k)) }
{
    none_reserved(f.slices.marks, first) || backed_from(f, first, 16)
}

// Sixteen sectors at a time, then the rest.
fn sectors_backed(f: &FineLines) -> bool
    ensures { result ≡ every (4 * lines_of f.now.slices.geometry.settings) (held f.now.slices is.sector_backed) }
{
    let s = f.slices.geometry.settings;
    let n = 4 * (s.sets * s.ways);
    let groups = n / 16;
    (0..groups).all(|g| sixteen_backed(f, 16 * g)) && backed_from(f, 16 * groups, n % 16)
}

// The conditions on all sectors: each by itself, then against the miss table.
pub(crate) fn sectors_fine(f: &FineLines) -> bool
    ensures { result ≡ every (4 * lines_of f.now.slices.geometry.settings) (held f.now.slices is.sector_fine) }
{
    sectors_shaped(&f.slices) & sectors_backed(f)
}
