// Which setting is outside its range.
ghost use Rattle.std.specs.Prelude.{◌≡◌};
ghost use Rattle.model.specs.Records.{number_at};
ghost use Rattle.words.specs.Words.{within};
ghost use Rattle.wording.specs.Pieces.{Puts};
ghost use Rattle.wording.specs.Settings.{last_words, range_words, ranged_words, first_words, bad_words};
ghost use Rattle.wording.specs.Shown.{range_of};

use crate::rows::Piece::{Decimal, Words};
use crate::rows::put_all;
use records::Number;

// A setting with its range.
#[derive(Clone, Copy)]
struct Ranged {
    name: &'static [u8],
    number: u8,
    least: u8,
    most: u8,
}

impl Ranged {
    // The setting at a place of a settings record's body.
    fn read(b: &[u8], at: usize, name: &'static [u8], least: u8, most: u8) -> Ranged
        ensures { result ≡ record { name = name.entry; number = number_at b.now at 1; least = least; most = most } }
    {
        Ranged {
            name,
            number: u8::read(b, at),
            least,
            most,
        }
    }

    fn is_within(self) -> bool
        ensures { result ≡ within self.least self.most self.number }
    {
        self.least <= self.number && self.number <= self.most
    }

    // What it is, and what it has to be.
    fn put(self, out: &mut [u8], at: usize) -> usize
        ensures { Puts out.old at (range_words (range_of self)) result out.new }
    {
        let pieces = [
            Words(self.name),
            Words(b" is "),
            Decimal(self.number as u64),
            Words(b", and has to be "),
            Decimal(self.least as u64),
            Words(b" to "),
            Decimal(self.most as u64),
        ];
        put_all(&pieces, out, at)
    }
}

// Those before are in range: the rule is not, or a tree over these ways, or else sets times ways.
fn put_last(ways: u8, rule: u8, out: &mut [u8], at: usize) -> usize
    ensures { Puts out.old at (last_words ways rule) result out.new }
{
    if 2 < rule {
        let rule = Decimal(rule as u64);
        return put_all(
            &[
                Words(b"rule is "),
                rule,
                Words(b", and has to be 0, 1 or 2"),
            ],
            out,
            at,
        );
    }
    if rule == 2 && !layout::power_to(ways as usize, 16) {
        let ways = Decimal(ways as u64);
        let words = Words(b", and has to be a power of two under rule tree");
        return put_all(&[Words(b"ways is "), ways, words], out, at);
    }
    put_all(&[Words(b"sets times ways has to be at most 1024")], out, at)
}

// The first setting behind sets that is outside its range.
fn put_ranged(b: &[u8], out: &mut [u8], at: usize) -> usize
    ensures { Puts out.old at (ranged_words b.now) result out.new }
{
    let settings = [
        Ranged::read(b, 2, b"ways", 1, 16),
        Ranged::read(b, 3, b"dirty", 0, 100),
        Ranged::read(b, 4, b"misses", 1, 64),
        Ranged::read(b, 5, b"readers", 1, 8),
        Ranged::read(b, 6, b"queue", 2, 64),
    ];
    for x in settings {
        if !x.is_within() {
            return x.put(out, at);
        }
    }
    put_last(u8::read(b, 2), u8::read(b, 7), out, at)
}

// Of a settings record's body.
fn put_first(b: &[u8], out: &mut [u8], at: usize) -> usize
    ensures { Puts out.old at (first_words b.now) result out.new }
{
    let sets = u16::read(b, 0);
    if layout::power_to(sets as usize, 256) {
        return put_ranged(b, out, at);
    }
    let sets = Decimal(sets as u64);
    let words = Words(b", and has to be a power of two, 1 to 256");
    put_all(&[Words(b"sets is "), sets, words], out, at)
}

// Of the settings record at the front of s.
pub(crate) fn put_bad(s: &[u8], out: &mut [u8], at: usize) -> usize
    ensures { Puts out.old at (bad_words s.now) result out.new }
{
    let a = text::put_text(b"bad settings at byte 0: ", out, at);
    match records::read_at(s, 0) {
        Ok(body) => put_first(&s[body.start..body.next], out, a),
        Err(_) => put_first(&s[..0], out, a),
    }
}
