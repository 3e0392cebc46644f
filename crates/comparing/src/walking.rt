// Two logs that come in parts, side by side: `begin`, then `step` on what is to come of both, over and over. The steps end each pair in
// order, and say which differ.
ghost use Rattle.std.specs.Prelude.{◌≡◌};
ghost use Rattle.comparing.specs.Steps.{walk_beginning, ahead, onward, pairs_differing, lowest_of, next_pair, pair_over, stepped};
ghost use Rattle.comparing.specs.Steps.{moved, side_behind, begun_side, record_row};

use crate::{Ahead, Log, Side, Step, Walk};

impl Ahead<'_> {
    // The length of the next record of a group in the bytes to come, 0 where the group is over; nothing where more bytes have to show it.
    // `begun` says that some of the group is passed.
    #[tactic(auto, using(crate::proofs::Parts::whole_test), unfolding(crate::specs::Steps::ahead))]
    fn next_record(self, begun: bool) -> Option<usize>
        ensures { result ≡ ahead begun self.entry.bytes.now self.entry.ends }
    {
        let s = self.bytes;
        if s.is_empty() {
            return if self.ends { Some(0) } else { None };
        }
        if begun && crate::starts(s[0]) {
            return Some(0);
        }
        let n = records::length_of(s[0]) as usize;
        if self.ends || n < s.len() {
            return Some(crate::past(s, 0));
        }
        None
    }
}

impl Side {
    // Whether some of the group is passed.
    fn begun(self) -> bool
        ensures { result ≡ begun_side self }
    {
        self.passed != 0
    }

    // A side with n more bytes of its group passed.
    fn moved(self, n: usize) -> Side
        ensures { result ≡ moved self n }
    {
        Side {
            place: self.place,
            passed: self.passed.wrapping_add(n),
        }
    }

    // The side of the next pair.
    fn behind(self) -> Side
        ensures { result ≡ side_behind self }
    {
        Side {
            place: self.place.wrapping_add(self.passed),
            passed: 0,
        }
    }
}

impl Walk {
    // A walk that stands at the first pair.
    pub fn begin() -> Walk
        ensures { result ≡ walk_beginning }
    {
        let side = Side {
            place: 0,
            passed: 0,
        };
        Walk {
            number: 0,
            first: side,
            second: side,
            same: true,
            differing: 0,
            lowest: None,
        }
    }

    // Behind a row.
    fn row_passed(self, m: usize, n: usize, same: bool) -> Walk
        ensures { result ≡ onward self m n same }
    {
        Walk {
            first: self.first.moved(m),
            second: self.second.moved(n),
            same: self.same && same,
            ..self
        }
    }

    // The pairs that differ, with this one.
    #[tactic(auto, unfolding(crate::specs::Steps::pairs_differing))]
    fn differing(self) -> usize
        ensures { result ≡ pairs_differing self }
    {
        if self.same {
            self.differing
        } else {
            self.differing.wrapping_add(1)
        }
    }

    // The lowest number of those.
    #[tactic(auto, unfolding(crate::specs::Steps::lowest_of))]
    fn lowest(self) -> Option<usize>
        ensures { result ≡ lowest_of self }
    {
        if self.same {
            self.lowest
        } else {
            self.lowest.or(Some(self.number))
        }
    }

    // Behind a pair.
    fn pair_passed(self) -> Walk
        ensures { result ≡ next_pair self }
    {
        Walk {
            number: self.number.wrapping_add(1),
            first: self.first.behind(),
            second: self.second.behind(),
            same: true,
            differing: self.differing(),
            lowest: self.lowest(),
        }
    }

    // Where both groups are over: the pair's end, or that of both logs.
    #[tactic(auto, unfolding(crate::specs::Steps::pair_over))]
    fn pair_over(self) -> Step
        ensures { result ≡ pair_over self }
    {
        if self.first.passed == 0 && self.second.passed == 0 {
            return Step::Over;
        }
        Step::Pair {
            differs: !self.same,
            next: self.pair_passed(),
        }
    }

    // The next records, of m and n bytes.
    #[tactic(auto, using(crate::proofs::Parts::row_next), unfolding(crate::specs::Steps::record_row))]
    fn row(self, a: &[u8], b: &[u8], m: usize, n: usize) -> Step
        ensures { result ≡ record_row self a.now b.now m n }
    {
        if m == 0 && n == 0 {
            return self.pair_over();
        }
        let same = crate::same(crate::bytes_between(a, 0, m), crate::bytes_between(b, 0, n));
        Step::Row {
            first: m,
            second: n,
            same,
            next: self.row_passed(m, n, same),
        }
    }

    // The next step, by what is to come of the two logs.
    #[tactic(auto, unfolding(crate::specs::Steps::stepped))]
    pub fn step(self, first: Ahead, second: Ahead) -> Step
        ensures { result ≡ stepped self first.entry.bytes.now first.entry.ends second.entry.bytes.now second.entry.ends }
    {
        let Some(m) = first.next_record(self.first.begun()) else {
            return Step::Wants(Log::First);
        };
        let Some(n) = second.next_record(self.second.begun()) else {
            return Step::Wants(Log::Second);
        };
        self.row(first.bytes, second.bytes, m, n)
    }
}
