// The published dirty percentage, in 32-bit floats, beside the engine's whole-number rule (document 02, L11): triples of lines, dirty
// and P, the two answers, the list of the places where they differ, and which sizes are a cache's.
#![tactic(auto)]

ghost use Rattle.std.specs.Prelude.{◌≡◌, ◌+◌, ◌≤◌, true, false, [], MatchResult};
ghost use Rattle.percentage.specs.Differences.{differ, differences_from, rows_left, tables_left, Startable, FirstOf, Next, FindsNext, Lists};
ghost use Rattle.percentage.specs.Percent.{float_meets, whole_meets, percent_in_range, PercentRanged, out_of_range, share_of, Legal};

use model::Refusal;

// A number of lines, how many of them are dirty, and P.
#[derive(Clone, Copy, Default, PartialEq, Eq)]
pub struct Triple {
    pub lines: u32,
    pub dirty: u32,
    pub percent: u32,
}

impl Triple {
    // Lines from 1 to 1,024, dirty from 0 to lines, and P from 0 to 100.
    pub fn in_range(self) -> bool
        ensures { result ≡ percent_in_range self.dirty self.lines self.percent }
    {
        1 <= self.lines && self.lines <= 1024 && self.dirty <= self.lines && self.percent <= 100
    }
}

// A triple in range.
#[derive(Clone, Copy)]
struct Ranged {
    triple: Triple,
    ghost ranged: { PercentRanged triple.dirty triple.lines triple.percent },
}

impl TryFrom<Triple> for Ranged {
    type Error = Refusal;

    ghost try_from_gives = { λ t r. MatchResult r
        (λ x. (x.triple ≡ t) × (percent_in_range t.dirty t.lines t.percent ≡ true))
        (λ e. (e ≡ out_of_range) × (percent_in_range t.dirty t.lines t.percent ≡ false)) };

    fn try_from(triple: Triple) -> Result<Ranged, Refusal> {
        if triple.in_range() {
            Ok(Ranged { triple })
        } else {
            Err(Refusal::SettingOutOfRange)
        }
    }
}

impl Ranged {
    // dirty / lines, times 100, each rounded once to an `f32`, and whether that is at least P.
    fn float_meets(self) -> bool
        ensures { result ≡ float_meets self.triple.dirty self.triple.lines self.triple.percent }
    {
        let Triple {
            lines,
            dirty,
            percent,
        } = self.triple;
        let part = dirty as f32 / lines as f32;
        let percentage = part * 100.0;
        percentage >= percent as f32
    }

    // 100 × dirty ≥ P × lines.
    fn whole_meets(self) -> bool
        ensures { result ≡ whole_meets self.triple.dirty self.triple.lines self.triple.percent }
    {
        let Triple {
            lines,
            dirty,
            percent,
        } = self.triple;
        100 * dirty >= percent * lines
    }

    // Whether the two answers differ.
    fn differs(self) -> bool
        ensures { result ≡ differ self.triple.dirty self.triple.lines self.triple.percent }
    {
        self.float_meets() != self.whole_meets()
    }
}

// The float answer.
pub fn float_share(t: Triple) -> Result<bool, Refusal>
    ensures { result ≡ share_of (percent_in_range t.dirty t.lines t.percent) (float_meets t.dirty t.lines t.percent) }
{
    Ok(Ranged::try_from(t)?.float_meets())
}

// The engine's answer, with the same refusals.
pub fn whole_share(t: Triple) -> Result<bool, Refusal>
    ensures { result ≡ share_of (percent_in_range t.dirty t.lines t.percent) (whole_meets t.dirty t.lines t.percent) }
{
    Ok(Ranged::try_from(t)?.whole_meets())
}

// The first difference of these lines and this dirty count, with P from `from` to 100.
fn first_in_row(lines: u32, dirty: u32, from: u32) -> Option<Triple>
    requires { Startable dirty lines from }
    ensures { FirstOf (differences_from dirty lines from) (rows_left lines (dirty + 1)) result }
{
    for percent in from..101 {
        let triple = Triple {
            lines,
            dirty,
            percent,
        };
        if (Ranged { triple }).differs() {
            return Some(triple);
        }
    }
    None
}

// The first difference of these lines, with dirty from `from` to lines, and every P.
fn first_in_rows(lines: u32, from: u32) -> Option<Triple>
    requires { (1 ≤ lines) × (lines ≤ 1024) × (from ≤ lines + 1) }
    ensures { FirstOf (rows_left lines from) (tables_left (lines + 1)) result }
{
    for dirty in from..lines + 1 {
        if let Some(triple) = first_in_row(lines, dirty, 0) {
            return Some(triple);
        }
    }
    None
}

// The first difference with lines from `from` to 1,024, and every dirty count and P.
fn first_in_tables(from: u32) -> Option<Triple>
    requires { (1 ≤ from) × (from ≤ 1025) }
    ensures { FirstOf (tables_left from) [] result }
{
    for lines in from..1025 {
        if let Some(triple) = first_in_rows(lines, 0) {
            return Some(triple);
        }
    }
    None
}

// The first difference from a place on, which may be one past the last P: every dirty count and P is tried.
fn next(place: Triple) -> Option<Triple>
    requires { Startable place.dirty place.lines place.percent }
    ensures { Next place.dirty place.lines place.percent result }
{
    let Triple {
        lines,
        dirty,
        percent,
    } = place;
    first_in_row(lines, dirty, percent)
        .or_else(|| first_in_rows(lines, dirty + 1))
        .or_else(|| first_in_tables(lines + 1))
}

// The first difference from a triple on, it included.
pub fn next_difference(t: Triple) -> Result<Option<Triple>, Refusal>
    ensures { FindsNext (percent_in_range t.dirty t.lines t.percent) t.dirty t.lines t.percent result }
{
    let ranged = Ranged::try_from(t)?;
    Ok(next(ranged.triple))
}

// Writes each difference to the front of `out`, by lines, then dirty, then P, rising, and says how many there are. They are
// twenty: with less room nothing is written.
// `n` is how many there are and the place of the next.
pub fn list(out: &mut [Triple]) -> Option<usize>
    ensures { Lists out.old out.new result }
{
    if out.len() < 20 {
        return None;
    }
    let mut place = Triple {
        lines: 1,
        dirty: 0,
        percent: 0,
    };
    let mut n = 0;
    while let Some(found) = next(place) {
        out[n] = found;
        n += 1;
        place = Triple {
            lines: found.lines,
            dirty: found.dirty,
            percent: found.percent + 1,
        };
    }
    Some(n)
}

// Whether settings in range have this many lines: some number of ways divides it and leaves a divisor of 256, the power of two
// that is the number of sets.
pub fn legal_size(lines: u32) -> bool
    ensures { Legal lines result }
{
    if lines < 1 || 1024 < lines {
        return false;
    }
    for ways in 1..17 {
        if lines % ways == 0 && 256 % (lines / ways) == 0 {
            return true;
        }
    }
    false
}
