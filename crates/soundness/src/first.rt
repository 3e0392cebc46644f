// What is asked first of tables, and what the other conditions rely on.
ghost use Rattle.std.specs.Prelude.{◌≡◌, true};
ghost use Rattle.model.specs.SoundLent as is;
ghost use Rattle.layout.specs.Held.{held};
ghost use Rattle.soundness.specs.Queued.{Queued};

use layout::Slices;

// Slices whose lines are fine, and where the queue's used places end.
#[derive(Clone, Copy)]
pub(crate) struct FineLines<'a> {
    pub(crate) slices: Slices<'a>,
    pub(crate) queued: usize,
    ghost fine: { held slices is.lines_fine ≡ true },
    ghost ends: { Queued slices.geometry.settings slices.marks.now queued },
}
