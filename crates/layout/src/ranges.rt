// Refusals 1 and 2 (document 01): the settings in range, and the lengths that they fix for the three slices. `&` and `|` between
// tests look at both sides.
ghost use Rattle.std.specs.Prelude.{◌≡◌, true};
ghost use Rattle.model.specs.Range.{rule_fine, in_range};
ghost use Rattle.model.specs.Layout.{longs_length, words_length, marks_length};
ghost use Rattle.model.specs.Lent.{lent, lengths_fit};
ghost use Rattle.layout.specs.Powers.{power_to};

use model::Settings;

// Whether `n` is a power of two from 1 to `most`.
pub fn power_to(n: usize, most: usize) -> bool
    ensures { result ≡ power_to most n }
{
    n.is_power_of_two() & (n <= most)
}

// A rule that there is; a tree goes over a power of two of ways.
fn rule_fine(s: Settings) -> bool
    ensures { result ≡ rule_fine s }
{
    (s.rule <= 1) | ((s.rule == 2) & power_to(s.ways, 16))
}

// Refusal 1 does not apply. Sets and ways are held to their ranges before they are multiplied.
pub fn in_range(s: Settings) -> bool
    ensures { result ≡ in_range s }
{
    if !(power_to(s.sets, 256) & ((1 <= s.ways) & (s.ways <= 16))) {
        return false;
    }
    (s.sets * s.ways <= 1024)
        & (s.dirty <= 100)
        & ((1 <= s.misses) & (s.misses <= 64))
        & ((1 <= s.readers) & (s.readers <= 8))
        & ((2 <= s.queue) & (s.queue <= 64))
        & rule_fine(s)
}

// How long `longs` is: tags, miss addresses, queue addresses.
pub fn longs_length(s: Settings) -> usize
    requires { in_range s ≡ true }
    ensures { result ≡ longs_length s }
{
    s.sets * s.ways + s.misses + s.queue
}

// How long `words` is: cycles, masks, tickets, the queue's masks, the dirty count, taken cycles, trees.
pub fn words_length(s: Settings) -> usize
    requires { in_range s ≡ true }
    ensures { result ≡ words_length s }
{
    let lines = s.sets * s.ways;
    1 + 5 * lines + s.readers * s.misses + 4 * s.queue + 1 + lines + s.sets
}

// How long `marks` is: statuses, readable marks, sent marks, ticket counts, queue kinds.
pub fn marks_length(s: Settings) -> usize
    requires { in_range s ≡ true }
    ensures { result ≡ marks_length s }
{
    8 * (s.sets * s.ways) + 2 * s.misses + s.queue
}

// Refusal 2 does not apply.
pub fn lengths_fit(s: Settings, longs: &[u64], words: &[u32], marks: &[u8]) -> bool
    requires { in_range s ≡ true }
    ensures { result ≡ lengths_fit s (lent longs.now words.now marks.now) }
{
    (longs.len() == longs_length(s))
        & (words.len() == words_length(s))
        & (marks.len() == marks_length(s))
}
