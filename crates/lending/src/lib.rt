// What C lends as plain numbers: settings come as one slice, so that a later setting moves no signature.
#![tactic(auto)]

ghost use Rattle.std.specs.Prelude.{◌≡◌, get_or};
ghost use Rattle.lending.specs.Lending.{settings_from};

use model::Settings;

// How many settings there are at the least and at the most: the rule may be left out.
const FEWEST: usize = 6;

const MOST: usize = 7;

// The number at a place of the settings; 0 behind their end.
fn number(settings: &[u32], place: usize) -> usize
    ensures { result ≡ get_or settings.now place 0 }
{
    settings.get(place).map_or(0, |n| *n as usize)
}

// By their places; all 0, which is out of range, for another number of them.
pub fn settings_from(settings: &[u32]) -> Settings
    ensures { result ≡ settings_from settings.now }
{
    if (settings.len() < FEWEST) | (MOST < settings.len()) {
        return Settings {
            sets: 0,
            ways: 0,
            dirty: 0,
            misses: 0,
            readers: 0,
            queue: 0,
            rule: 0,
        };
    }
    Settings {
        sets: number(settings, 0),
        ways: number(settings, 1),
        dirty: number(settings, 2),
        misses: number(settings, 3),
        readers: number(settings, 4),
        queue: number(settings, 5),
        rule: number(settings, 6),
    }
}
