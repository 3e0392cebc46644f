// Numbers and words as text: a number put into a slice of bytes, a number read from a line, where words begin and end; in `rules`
// the names of the replacement rules. What is put goes to a place of a slice and gives the place behind it: `Put` says that it is there
// whole or not at all, and that the rest of the slice stays.
#![tactic(auto)]

pub mod rules;

ghost use Rattle.std.specs.Prelude.{◌≡◌, ◌+◌, ◌-◌, ◌≤◌, ◌<◌, ℕ, Bool, length, take, get_or, replicate};
ghost use Rattle.std.proofs.lemmas.List.Edits.{sets};
ghost use Rattle.words.specs.Regions.{room};
ghost use Rattle.text.specs.Digits.{glyph_of, digits, digit_count, spelled, decimal, hexadecimal, padded, Put, grown_of, number_of, number_in, hex_at, parse_number};
ghost use Rattle.text.specs.Words.{is_space, in_word, in_line, past, skip_spaces, word_end, word_at, line_end, part_of, same_text};

// A number of a line, and the place behind it.
#[derive(Clone, Copy, PartialEq, Eq, Debug)]
pub struct Number {
    pub value: u64,
    pub next: usize,
}

// Why a place of a line holds no number.
#[derive(Clone, Copy, PartialEq, Eq, Debug)]
pub enum NotANumber {
    NoDigit,
    TooLarge,
}

// Whether a byte parts words.
fn is_space(c: u8) -> bool
    ensures { result ≡ is_space c }
{
    matches!(c, b' ' | b'\t' | b'\r')
}

// What a word is made of: a comment begins with `#`.
fn in_word(c: u8) -> bool
    ensures { result ≡ in_word c }
{
    !is_space(c) && c != b'#'
}

// What a line is made of.
fn in_line(c: u8) -> bool
    ensures { result ≡ in_line c }
{
    c != b'\n'
}

// The first place from `at` on whose character does not pass.
fn run_end<F: Fn(u8) -> bool>(s: &[u8], at: usize, passes: F) -> usize
    ghost p: { ℕ → Bool }
    requires callable { F.IsAlwaysCallable passes }
    requires tests { (c : ℕ) (b : Bool) → F.post passes c b → b ≡ p c }
    ensures { result ≡ past p s.now at }
{
    for i in at..s.len() {
        if !passes(s[i]) {
            return i;
        }
    }
    at.max(s.len())
}

// The first place from `at` on that holds no space.
pub fn skip_spaces(line: &[u8], at: usize) -> usize
    ensures { result ≡ skip_spaces line.now at }
{
    run_end(line, at, is_space)
}

// The place behind the word at `at`: `at` itself where no word stands there.
pub fn word_end(line: &[u8], at: usize) -> usize
    ensures { result ≡ word_end line.now at }
{
    run_end(line, at, in_word)
}

// Where the line that begins at `at` ends: at its line feed, or at the end of the text.
pub fn line_end(text: &[u8], at: usize) -> usize
    ensures { result ≡ line_end text.now at }
{
    run_end(text, at, in_line)
}

// The text from one place to another; nothing where these are no part of it.
pub fn part(text: &[u8], from: usize, to: usize) -> &[u8]
    ensures { result.now ≡ part_of text.now from to }
{
    text.get(from..to).unwrap_or(&text[..0])
}

// The character of a digit.
fn glyph(d: u64) -> u8
    requires { d < 16 }
    ensures { result ≡ glyph_of d }
{
    if d < 10 {
        b'0' + d as u8
    } else {
        b'a' + (d - 10) as u8
    }
}

// How many digits a number has in a base. It divides until nothing is left: no index is counted.
fn count_digits(n: u64, base: u64) -> usize
    requires { 1 < base }
    ensures { result ≡ digit_count base n }
{
    let mut k = 1;
    let mut rest = n;
    while base <= rest {
        rest /= base;
        k += 1;
    }
    k
}

// The last k digits of n, from `at` on. Not by `write!`, which gives a padded number in parts: `Put` says all of it or nothing.
fn spell(n: u64, base: u64, k: usize, out: &mut [u8], at: usize)
    requires { (0 < base) × (base ≤ 16) × (at + k ≤ length out.old) }
    ensures { out.new ≡ sets out.old at (digits base k n) }
{
    let mut rest = n;
    for i in (0..k).rev() {
        out[at + i] = glyph(rest % base);
        rest /= base;
    }
}

// Whether n bytes fit behind `at`.
fn has_room(out: &[u8], at: usize, n: usize) -> bool
    ensures { result ≡ room out.now at n }
{
    at <= out.len() && n <= out.len() - at
}

// k of one character, from `at` on.
fn fill(c: u8, k: usize, out: &mut [u8], at: usize)
    requires { at + k ≤ length out.old }
    ensures { out.new ≡ sets out.old at (replicate k c) }
{
    out[at..at + k].fill(c);
}

// All of s, from `at` on.
fn copy(s: &[u8], out: &mut [u8], at: usize)
    requires { at + length s.now ≤ length out.old }
    ensures { out.new ≡ sets out.old at s.now }
{
    out[at..at + s.len()].copy_from_slice(s);
}

// n in a base, behind as many of a character as make it `width` characters.
fn put_padded(n: u64, base: u64, width: usize, c: u8, out: &mut [u8], at: usize) -> usize
    requires { (1 < base) × (base ≤ 16) }
    ensures { Put out.old at (padded width c (spelled base n)) result out.new }
{
    let k = count_digits(n, base);
    let pad = width.saturating_sub(k);
    let size = pad + k;
    if !has_room(out, at, size) {
        return at;
    }
    fill(c, pad, out, at);
    spell(n, base, k, out, at + pad);
    at + size
}

// n with no zero in front.
pub fn put_decimal(n: u64, out: &mut [u8], at: usize) -> usize
    ensures { Put out.old at (decimal n) result out.new }
{
    put_padded(n, 10, 0, b' ', out, at)
}

// n at the right of `width` places.
pub fn put_right(n: u64, width: usize, out: &mut [u8], at: usize) -> usize
    ensures { Put out.old at (padded width 32 (decimal n)) result out.new }
{
    put_padded(n, 10, width, b' ', out, at)
}

// n as eight hexadecimal digits, or more where it has more.
pub fn put_word(n: u64, out: &mut [u8], at: usize) -> usize
    ensures { Put out.old at (padded 8 48 (spelled 16 n)) result out.new }
{
    put_padded(n, 16, 8, b'0', out, at)
}

// `0x`, then n's hexadecimal digits.
pub fn put_hex(n: u64, out: &mut [u8], at: usize) -> usize
    ensures { Put out.old at (hexadecimal n) result out.new }
{
    let k = count_digits(n, 16);
    if !has_room(out, at, 2) || !has_room(out, at + 2, k) {
        return at;
    }
    let start = at + 2;
    copy(b"0x", out, at);
    spell(n, 16, k, out, start);
    start + k
}

// Puts text at a place, if there is room for all of it.
pub fn put_text(s: &[u8], out: &mut [u8], at: usize) -> usize
    ensures { Put out.old at s.now result out.new }
{
    if !has_room(out, at, s.len()) {
        return at;
    }
    copy(s, out, at);
    at + s.len()
}

// The first n bytes of s, or all of it where it has fewer.
pub fn front(s: &[u8], n: usize) -> &[u8]
    ensures { result.now ≡ take n s.now }
{
    &s[..n.min(s.len())]
}

// The byte at a place; 0 past the end.
fn byte_at(s: &[u8], at: usize) -> u8
    ensures { result ≡ get_or s.now at 0 }
{
    s.get(at).copied().unwrap_or(0)
}

// A number with one digit more, if 64 bits hold it.
fn with_digit(value: u64, base: u32, d: u32) -> Option<u64>
    ensures { result ≡ grown_of value base d }
{
    value.checked_mul(base as u64)?.checked_add(d as u64)
}

// The number that was read, if there was a digit.
fn number_of(at: usize, next: usize, value: u64) -> Result<Number, NotANumber>
    requires { at ≤ next }
    ensures { result ≡ number_of at (next - at) value }
{
    if next == at {
        return Err(NotANumber::NoDigit);
    }
    Ok(Number { value, next })
}

// The number in a base at a place, as far as its digits go.
fn number_from(s: &[u8], at: usize, base: u32) -> Result<Number, NotANumber>
    requires { (1 < base) × (base ≤ 16) }
    ensures { result ≡ number_in base s.now at }
{
    let mut value = 0;
    for i in at..s.len() {
        let Some(d) = (s[i] as char).to_digit(base) else {
            return number_of(at, i, value);
        };
        value = with_digit(value, base, d).ok_or(NotANumber::TooLarge)?;
    }
    number_of(at, at.max(s.len()), value)
}

// Whether a number in base 16 begins here.
fn is_hex(s: &[u8], at: usize) -> bool
    ensures { result ≡ hex_at s.now at }
{
    byte_at(s, at) == b'0' && byte_at(s, at + 1) == b'x'
}

// The number at a place of a line: decimal, or hexadecimal behind `0x`.
pub fn parse_number(line: &[u8], at: usize) -> Result<Number, NotANumber>
    ensures { result ≡ parse_number line.now at }
{
    if is_hex(line, at) {
        number_from(line, at + 2, 16)
    } else {
        number_from(line, at, 10)
    }
}

// The word at a place of a line; none where a space, a comment or the end stands there.
fn word_at(line: &[u8], at: usize) -> &[u8]
    ensures { result.now ≡ word_at line.now at }
{
    part(line, at, word_end(line, at))
}

// Whether the word at a place of a line is this one.
pub fn word_is(line: &[u8], at: usize, word: &[u8]) -> bool
    ensures { result ≡ same_text (word_at line.now at) word.now }
{
    word_at(line, at) == word
}
