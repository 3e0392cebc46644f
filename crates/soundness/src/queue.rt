// Conditions 19, 21 to 23 and 25 of sound tables: the queue.
ghost use Rattle.std.specs.Prelude.{◌≡◌, ◌<◌};
ghost use Rattle.words.specs.Words.{every};
ghost use Rattle.model.specs.SoundLent as is;
ghost use Rattle.layout.specs.Held.{held};

use crate::search::has_unsent;
use layout::Slices;
use model::SectorAddress;

// The conditions on one queue place, by its kind.
fn place_fine(t: &Slices, p: usize) -> bool
    requires { p < t.now.geometry.settings.queue }
    ensures { result ≡ held t.now is.place_fine p }
{
    let at = &t.geometry.at;
    let a = t.longs[at.queue + p];
    let clean = (t.words[at.backs + 4 * p] == 0)
        & (t.words[at.backs + (4 * p + 1)] == 0)
        & (t.words[at.backs + (4 * p + 2)] == 0)
        & (t.words[at.backs + (4 * p + 3)] == 0);
    let kind = t.marks[at.kinds + p];
    match kind {
        0 => clean & (a == 0),
        1 => clean & has_unsent(t, SectorAddress(a)),
        2 => (a % 128 == 0) & (a < 0x1_0000_0000_0000) & !clean,
        _ => false,
    }
}

// Those on every queue place.
pub(crate) fn places_fine(t: &Slices) -> bool
    ensures { result ≡ every t.now.geometry.settings.queue (held t.now is.place_fine) }
{
    (0..t.geometry.settings.queue).all(|p| place_fine(t, p))
}
