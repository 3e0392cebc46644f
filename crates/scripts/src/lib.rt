// What the test programs share: the numbers of a script's line, how much of a slice is lent, and whether lent tables hold the
// same numbers as others.
#![tactic(auto)]

ghost use Rattle.std.specs.Prelude.{◌≡◌, min, ◌≤◌};
ghost use Rattle.model.specs.Lent.{lent};
ghost use Rattle.scripts.specs.Numbers.{number_word};
ghost use Rattle.scripts.specs.Same.{Tells};

use text::Number;

// The next word of a line as a number; 0, at the end of the line, where it is none.
pub fn number_next(line: &[u8], at: usize) -> Number
    ensures { result ≡ number_word line.now at }
{
    let none = Number {
        value: 0,
        next: line.len(),
    };
    text::parse_number(line, text::skip_spaces(line, at)).unwrap_or(none)
}

// The smaller of two, as for a part of a slice that may be asked to be longer than that. A function of its own and not `min` at each place,
// since an edit of it shows what else would be lent (`more_lent_than_there_is`).
pub fn least(a: usize, b: usize) -> usize
    ensures { (result ≡ min a b) × (result ≤ b) }
{
    a.min(b)
}

// Whether three lent slices hold what three others hold.
pub fn same_tables(
    longs: &[u64],
    long: &[u64],
    words: &[u32],
    word: &[u32],
    marks: &[u8],
    mark: &[u8],
) -> bool
    ensures { Tells (lent longs.now words.now marks.now)
        (lent long.now word.now mark.now) result }
{
    longs == long && words == word && marks == mark
}
