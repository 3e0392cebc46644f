// Condition 26 of sound tables: the stored count is that of the lines with a MODIFIED sector. Only here the lines are counted.
ghost use Rattle.std.specs.Prelude.{◌≡◌, ◌<◌};
ghost use Rattle.words.specs.Words.{count_below};
ghost use Rattle.model.specs.Range.{lines_of};
ghost use Rattle.model.specs.SoundLent as is;
ghost use Rattle.layout.specs.Held.{held};

use layout::Slices;

// Some sector of line `l` is MODIFIED.
fn dirty(t: &Slices, l: usize) -> bool
    requires { l < lines_of t.now.geometry.settings }
    ensures { result ≡ held t.now is.dirty_line l }
{
    (t.marks[4 * l] == 3)
        | (t.marks[4 * l + 1] == 3)
        | (t.marks[4 * l + 2] == 3)
        | (t.marks[4 * l + 3] == 3)
}

// How many lines have a MODIFIED sector. A `for` and no `filter`, which leaves a branch a line, mostly guessed wrong where some lines are dirty:
// so the loop compiles to several lines at a time.
fn dirty_lines(t: &Slices) -> usize
    ensures { result ≡ count_below (lines_of t.now.geometry.settings) (held t.now is.dirty_line) }
{
    let s = t.geometry.settings;
    let mut count = 0;
    for l in 0..s.sets * s.ways {
        if dirty(t, l) {
            count += 1;
        }
    }
    count
}

// Whether the stored count of dirty lines is right.
pub(crate) fn count_fine(t: &Slices) -> bool
    ensures { result ≡ held t.now is.count_fine }
{
    t.words[t.geometry.at.dirty] as usize == dirty_lines(t)
}
