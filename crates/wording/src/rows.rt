// A line as data: its words and values in order. One loop puts any of them. Not by `write!`: `Puts` says where each piece goes
// when there is no room for all of them.
ghost use Rattle.std.specs.Prelude.{map};
ghost use Rattle.text.specs.Digits.{Put};
ghost use Rattle.wording.specs.Pieces.{Puts};
ghost use Rattle.wording.specs.Shown.{shown};

// Words as they stand, a number in decimal or hexadecimal, a mask, a rule.
#[derive(Clone, Copy)]
pub(crate) enum Piece<'a> {
    Words(&'a [u8]),
    Decimal(u64),
    Hex(u64),
    Mask(u32),
    Rule(u8),
}

impl Piece<'_> {
    fn put(&self, out: &mut [u8], at: usize) -> usize
        ensures { Put out.old at (shown self.now) result out.new }
    {
        match *self {
            Piece::Words(s) => text::put_text(s, out, at),
            Piece::Decimal(n) => text::put_decimal(n, out, at),
            Piece::Hex(n) => text::put_hex(n, out, at),
            Piece::Mask(m) => text::put_word(m as u64, out, at),
            Piece::Rule(n) => text::rules::put_rule(n as u64, out, at),
        }
    }
}

// One piece after another.
pub(crate) fn put_all(pieces: &[Piece], out: &mut [u8], at: usize) -> usize
    ensures { Puts out.old at (map shown pieces.now) result out.new }
{
    let mut at = at;
    for piece in pieces {
        at = piece.put(out, at);
    }
    at
}
