// How settings shape the lent slices, below every check and step on them: here where each part begins; `geometry`
// what always goes together; `ranges` refusals 1 and 2,
// `places` which places of a table are in use, `sectors` a line's four sectors lifted and stored, `dirty` the count of dirty lines, `fresh` fresh tables.
#![tactic(auto)]

mod dirty;
mod fresh;
mod geometry;
mod places;
mod ranges;
mod sectors;

ghost use Rattle.std.specs.Prelude.{◌≡◌, true};
ghost use Rattle.model.specs.Range.{in_range};
ghost use Rattle.layout.specs.Layout.{LaysOut};

pub use dirty::{recount, some_modified};
pub use fresh::make_fresh;
pub use geometry::{Geometry, Slices};
use model::Settings;
pub use places::{find_mark, gathered, used};
pub use ranges::{in_range, lengths_fit, longs_length, marks_length, power_to, words_length};
pub use sectors::{lift, replace, sector_at, store, with_sector};

// Where each part of the tables begins, behind the part before it.
#[derive(Clone, Copy)]
pub struct Layout {
    pub misses: usize,
    pub queue: usize,
    pub masks: usize,
    pub tickets: usize,
    pub backs: usize,
    pub dirty: usize,
    pub taken: usize,
    pub trees: usize,
    pub readables: usize,
    pub sent: usize,
    pub counts: usize,
    pub kinds: usize,
}

// Where each part of the slices begins.
pub fn layout_of(s: Settings) -> Layout
    requires { in_range s ≡ true }
    ensures { LaysOut s result }
{
    let lines = s.sets * s.ways;
    let tickets = 1 + 5 * lines;
    let backs = tickets + s.readers * s.misses;
    let dirty = backs + 4 * s.queue;
    let taken = dirty + 1;
    let sent = 8 * lines;
    Layout {
        misses: lines,
        queue: lines + s.misses,
        masks: 1 + lines,
        tickets,
        backs,
        dirty,
        taken,
        trees: taken + lines,
        readables: 4 * lines,
        sent,
        counts: sent + s.misses,
        kinds: sent + 2 * s.misses,
    }
}
