// What always goes together: settings with where their parts begin, and these with three slices of the lengths that the settings fix.
ghost use Rattle.std.specs.Prelude.{◌≡◌, true};
ghost use Rattle.model.specs.Range.{in_range};
ghost use Rattle.model.specs.Inner.{Sized};
ghost use Rattle.layout.specs.Layout.{LaysOut};

use crate::{Layout, layout_of};
use model::Settings;

// Settings, and where each part of the tables begins under them.
#[derive(Clone, Copy)]
pub struct Geometry {
    pub settings: Settings,
    pub at: Layout,
    pub ghost laid: { LaysOut settings at },
}

impl Geometry {
    // Of settings in range.
    pub fn new(settings: Settings) -> Self
        requires { in_range settings ≡ true }
        ensures { result.settings ≡ settings }
    {
        Geometry {
            settings,
            at: layout_of(settings),
        }
    }
}

// The three slices, of the lengths that the settings fix, for those who only read them. Who writes them takes the three by themselves, as
// they are lent: behind a struct that lends what it may write only a length is known afterwards.
#[derive(Clone, Copy)]
pub struct Slices<'a> {
    pub geometry: Geometry,
    pub longs: &'a [u64],
    pub words: &'a [u32],
    pub marks: &'a [u8],
    pub ghost sized: { Sized geometry.settings longs.now words.now marks.now },
}
