// "Probe and victim": what an access meets in its set, read off the lent slices. Nothing is written here; another crate acts.
// First whether a line is a candidate. Then the ways of a set: the match, the victim. Last the decision.
#![tactic(auto)]

ghost use Rattle.std.specs.Prelude.{◌≡◌, ℕ, ◌+◌, ◌*◌, ◌≤◌, ◌<◌, length, true};
ghost use Rattle.words.specs.Words.{some};
ghost use Rattle.model.specs.Range.{lines_of};
ghost use Rattle.model.specs.Tree.{is_in, power_to16};
ghost use Rattle.model.specs.Probe.{or_else};
ghost use Rattle.tables.specs.Raw.{waiting_at, dirty_at};
ghost use Rattle.probe.specs.Scan.{candidate_at, found_in, last_unused_in, earliest_in, ages_from, victim_in, enough_in, tree_in};
ghost use Rattle.probe.specs.Values.{masks_at, on_match, on_miss, busy_or_held, taken_over};
ghost use Rattle.probe.specs.Decided.{Decided};

use layout::{Geometry, Slices};
use model::{Access, Answer, BlockAddress, Refusal};

// No cycle is above it.
const LATEST: u32 = 0xffff_ffff;

// The rule that goes by the cycle at which a line was taken.
// A number and no enum, as `trees::TREE` is.
const FIFO: usize = 1;

// What becomes of the way: it has the block, or is taken over.
#[derive(Clone, Copy, PartialEq, Eq)]
pub enum Meeting {
    Met,
    Taken,
}

// The write-back of a dirty line: its block, and the masks of its four sectors.
#[derive(Clone, Copy)]
pub struct Back {
    pub block: u64,
    pub masks: [u32; 4],
}

// What an access meets: the way and its line's number, the answer, and the write-back of the line that was there, if that was dirty.
#[derive(Clone, Copy)]
pub struct Decision {
    pub meeting: Meeting,
    pub way: usize,
    pub line: usize,
    pub answer: Answer,
    pub back: Option<Back>,
}

// `enough`: so many lines of the cache are dirty that a dirty line may go. It is the same for a whole set, so that its jump is foreseen; a
// jump on what each line holds would not be.
fn is_candidate(marks: &[u8], l: usize, enough: bool) -> bool
    requires { 4 * l + 4 ≤ length marks.now }
    ensures { result ≡ candidate_at marks.now enough l }
{
    if enough {
        return !tables::is_waiting(marks, l);
    }
    tables::is_clean(marks, l)
}

// The first way of the set that has the block; the set's lines begin at `base`.
// Way 0 is looked at by itself: the compiler then makes no running address for those that are found there. By one chain over all ways `run` takes
// more than 1.15 times the instructions of plain Rust.
fn find(longs: &[u64], marks: &[u8], base: usize, ways: usize, block: BlockAddress) -> Option<usize>
    requires { (1 ≤ ways) × (base + ways ≤ length longs.now) × (4 * (base + ways) ≤ length marks.now) }
    ensures { result ≡ found_in longs.now marks.now base ways block.0 }
{
    if tables::holds_block(longs, marks, base, block) {
        return Some(0);
    }
    (1..ways).find(|&w| tables::holds_block(longs, marks, base + w, block))
}

// Whether a way of the set has a RESERVED sector.
fn some_waiting(marks: &[u8], base: usize, ways: usize) -> bool
    requires { 4 * (base + ways) ≤ length marks.now }
    ensures { result ≡ some ways (λ w. waiting_at marks.now (base + w)) }
{
    (0..ways).any(|w| tables::is_waiting(marks, base + w))
}

// The last way of the set that is wholly invalid.
fn last_unused(marks: &[u8], base: usize, ways: usize) -> Option<usize>
    requires { 4 * (base + ways) ≤ length marks.now }
    ensures { result ≡ last_unused_in marks.now base ways }
{
    for v in (0..ways).rev() {
        if tables::is_unused(marks, base + v) {
            return Some(v);
        }
    }
    None
}

// The candidates of the set, a mask with bit w for way w.
fn candidates(marks: &[u8], base: usize, ways: usize, enough: bool) -> u32
    requires { (ways ≤ 16) × (4 * (base + ways) ≤ length marks.now) }
    ensures { (w : ℕ) → w < ways → is_in result w ≡ candidate_at marks.now enough (base + w) }
{
    let mut mask: u32 = 0;
    for w in 0..ways {
        if is_candidate(marks, base + w, enough) {
            mask = trees::marked(mask, w);
        }
    }
    mask
}

// The candidate that the set's tree chooses.
fn chosen_by_tree(marks: &[u8], base: usize, ways: usize, enough: bool, tree: u32) -> Option<usize>
    requires { (power_to16 ways ≡ true) × (4 * (base + ways) ≤ length marks.now) }
    ensures { result ≡ tree_in marks.now base ways enough tree }
{
    trees::choose(tree, candidates(marks, base, ways, enough), ways)
}

// "100 × dirty ≥ P × lines", by the count that the tables keep.
fn enough_dirty(t: &Slices) -> bool
    ensures { result ≡ enough_in t.now.geometry.settings t.now.words.now }
{
    let s = t.geometry.settings;
    let dirty = t.words[t.geometry.at.dirty] as usize;
    s.dirty * (s.sets * s.ways) <= 100 * dirty
}

// Where the cycles begin by which the rule compares candidates.
fn ages_from(g: Geometry) -> usize
    ensures { result ≡ ages_from g.settings }
{
    if g.settings.rule == FIFO {
        return g.at.taken;
    }
    1
}

// The way to take over by the cycles that begin at `ages`, in one pass down the ways: a wholly invalid one ends it, else the
// candidate with the earliest cycle, the lowest way among equals. `ways` stands for none yet, whose cycle no other is above.
// A number and no Option for none yet: `cycle` then says by itself that any candidate is taken.
fn victim_by_age(
    words: &[u32],
    marks: &[u8],
    ages: usize,
    base: usize,
    ways: usize,
    enough: bool,
) -> Option<usize>
    requires { (ages + (base + ways) ≤ length words.now) × (4 * (base + ways) ≤ length marks.now) }
    ensures { result ≡ or_else (last_unused_in marks.now base ways) (earliest_in words.now marks.now ages base ways enough) }
{
    let mut best = ways;
    let mut cycle = LATEST;
    for w in (0..ways).rev() {
        let l = base + w;
        if tables::is_unused(marks, l) {
            return Some(w);
        }
        let k = words[ages + l];
        if k <= cycle {
            if is_candidate(marks, l, enough) {
                best = w;
                cycle = k;
            }
        }
    }
    if best < ways {
        return Some(best);
    }
    None
}

// The way to take over by the set's tree: the last wholly invalid one, else the candidate that the tree chooses.
fn victim_by_tree(marks: &[u8], base: usize, ways: usize, enough: bool, tree: u32) -> Option<usize>
    requires { (power_to16 ways ≡ true) × (4 * (base + ways) ≤ length marks.now) }
    ensures { result ≡ or_else (last_unused_in marks.now base ways) (tree_in marks.now base ways enough tree) }
{
    let free = last_unused(marks, base, ways);
    match free {
        Some(w) => Some(w),
        None => chosen_by_tree(marks, base, ways, enough, tree),
    }
}

// The way to take over in set `i`, whose lines begin at `base`: the last wholly invalid one, else the candidate that the rule chooses.
fn victim(t: &Slices, i: usize, base: usize, enough: bool) -> Option<usize>
    requires { (i < t.now.geometry.settings.sets) × (base + t.now.geometry.settings.ways ≤ lines_of t.now.geometry.settings) }
    ensures { result ≡ victim_in t.now.geometry.settings t.now.words.now t.now.marks.now i base enough }
{
    let s = t.geometry.settings;
    if s.rule == trees::TREE {
        let tree = t.words[t.geometry.at.trees + i];
        return victim_by_tree(t.marks, base, s.ways, enough, tree);
    }
    let ages = ages_from(t.geometry);
    victim_by_age(t.words, t.marks, ages, base, s.ways, enough)
}

// The four masks of line l.
fn masks_at(t: &Slices, l: usize) -> [u32; 4]
    requires { l < lines_of t.now.geometry.settings }
    ensures { result ≡ masks_at t.now.geometry.settings t.now.words.now l }
{
    let first = t.geometry.at.masks;
    let i = 4 * l;
    [
        t.words[first + i],
        t.words[first + (i + 1)],
        t.words[first + (i + 2)],
        t.words[first + (i + 3)],
    ]
}

// Way w has the block: the answer by its sector.
fn on_match(t: &Slices, base: usize, w: usize, x: Access) -> Decision
    requires { base + w < lines_of t.now.geometry.settings }
    ensures { result ≡ on_match t.now.geometry.settings t.now.words.now t.now.marks.now base w x }
{
    let line = base + w;
    let k = values::sector_index(values::address_of(x));
    let answer = values::answer_of(
        x,
        layout::sector_at(t.geometry, t.words, t.marks, 4 * line + k),
    );
    Decision {
        meeting: Meeting::Met,
        way: w,
        line,
        answer,
        back: None,
    }
}

// Way w is taken over; a dirty line is written back.
fn on_miss(t: &Slices, base: usize, w: usize) -> Decision
    requires { base + w < lines_of t.now.geometry.settings }
    ensures { result ≡ on_miss t.now.geometry.settings t.now.longs.now t.now.words.now base w (dirty_at t.now.marks.now (base + w)) }
{
    let line = base + w;
    let clean = Decision {
        meeting: Meeting::Taken,
        way: w,
        line,
        answer: Answer::Miss,
        back: None,
    };
    if !tables::is_dirty(t.marks, line) {
        return clean;
    }
    let back = Back {
        block: t.longs[line],
        masks: masks_at(t, line),
    };
    Decision {
        back: Some(back),
        ..clean
    }
}

// No way can be taken over: the set is busy if a way of it has a RESERVED sector, held if none has.
fn busy_or_held(marks: &[u8], base: usize, ways: usize) -> Refusal
    requires { 4 * (base + ways) ≤ length marks.now }
    ensures { result ≡ busy_or_held marks.now base ways }
{
    if some_waiting(marks, base, ways) {
        Refusal::SetBusy
    } else {
        Refusal::SetHeld
    }
}

// No way of set `i` has the block.
fn take_over(t: &Slices, i: usize, base: usize) -> Result<Decision, Refusal>
    requires { (i < t.now.geometry.settings.sets) × (base + t.now.geometry.settings.ways ≤ lines_of t.now.geometry.settings) }
    ensures { let s = t.now.geometry.settings in
        result ≡ taken_over s t.now.longs.now t.now.words.now t.now.marks.now base s.ways
        (victim_in s t.now.words.now t.now.marks.now i base (enough_in s t.now.words.now)) }
{
    let enough = enough_dirty(t);
    let v = victim(t, i, base, enough);
    match v {
        Some(w) => Ok(on_miss(t, base, w)),
        None => Err(busy_or_held(t.marks, base, t.geometry.settings.ways)),
    }
}

// The first line of a set. In 32 bits: the compiler then multiplies once, and not once for each slice.
fn first_line(set: usize, ways: usize) -> usize
    requires { (set < 256) × (ways ≤ 16) × (set * ways ≤ 1024) }
    ensures { result ≡ set * ways }
{
    ((set as u32) * (ways as u32)) as usize
}

// What the access meets, or that its set is busy or held.
pub fn decide(t: &Slices, x: Access) -> Result<Decision, Refusal>
    ensures { Decided t.now.geometry.settings t.now.longs.now t.now.words.now t.now.marks.now x result }
{
    let ways = t.geometry.settings.ways;
    let address = values::address_of(x);
    let set = values::set_index(address, t.geometry.settings.sets);
    let base = first_line(set, ways);
    let found = find(t.longs, t.marks, base, ways, values::block_of(address));
    match found {
        Some(w) => Ok(on_match(t, base, w, x)),
        None => take_over(t, set, base),
    }
}
