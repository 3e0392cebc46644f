// Fresh tables, written over whatever stands in slices of the right lengths.
ghost use Rattle.std.specs.Prelude.{◌≡◌};
ghost use Rattle.model.specs.Tables.{start};
ghost use Rattle.model.specs.Lent.{lent, encode};
ghost use Rattle.model.specs.Inner.{Sized};

use model::Settings;

// Fresh tables: all invalid and readable, all empty, cycle 0.
pub fn make_fresh(s: Settings, longs: &mut [u64], words: &mut [u32], marks: &mut [u8])
    requires { Sized s longs.old words.old marks.old }
    ensures { lent longs.new words.new marks.new ≡ encode s (start s) }
{
    let sectors = 4 * (s.sets * s.ways);
    longs.fill(0);
    words.fill(0);
    marks.fill(0);
    marks[sectors..2 * sectors].fill(1);
}
