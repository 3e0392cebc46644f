// The dirty count: whether four sectors make a line dirty, and the count when a line changes.
ghost use Rattle.std.specs.Prelude.{◌≡◌, ◌+◌, ◌-◌, ◌≤◌, ◌<◌, [], ◌∷◌, length, get_or};
ghost use Rattle.words.specs.Words.{one};
ghost use Rattle.words.specs.Regions.{put};
ghost use Rattle.layout.specs.Sectors.{some_modified};

use model::{Sector, Status};

// Whether one of the four is MODIFIED.
pub fn some_modified(four: [Sector; 4]) -> bool
    ensures { result ≡ some_modified four }
{
    four.iter().any(|s| s.status == Status::Modified)
}

// The count at `place`, when a line that was dirty or not becomes so or not.
pub fn recount(words: &mut [u32], place: usize, was: bool, is: bool)
    requires { (place < length words.old) × (get_or words.old place 0 ≤ 1024) × (one was ≤ get_or words.old place 0) }
    ensures { words.new ≡ put words.old place ((get_or words.old place 0 + one is - one was) ∷ []) }
{
    words[place] = words[place] + u32::from(is) - u32::from(was);
}
