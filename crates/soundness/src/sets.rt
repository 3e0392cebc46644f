// Condition 29 of sound tables: no tree has a bit beyond the nodes in use, and none has any under another rule.
ghost use Rattle.std.specs.Prelude.{◌≡◌, ◌≤◌};
ghost use Rattle.words.specs.Words.{every};
ghost use Rattle.model.specs.SoundLent as is;
ghost use Rattle.layout.specs.Held.{held};
ghost use Rattle.soundness.specs.Limits.{tree_limit};

use layout::Slices;
use model::Settings;

// What every tree is below.
fn limit(s: Settings) -> u32
    requires { (1 ≤ s.ways) × (s.ways ≤ 16) }
    ensures { result ≡ tree_limit s }
{
    if s.rule == trees::TREE {
        return trees::limit(s.ways);
    }
    1
}

// The condition on every set's tree.
pub(crate) fn trees_fine(t: &Slices) -> bool
    ensures { result ≡ every t.now.geometry.settings.sets (held t.now is.set_fine) }
{
    let first = t.geometry.at.trees;
    let sets = t.geometry.settings.sets;
    let most = limit(t.geometry.settings);
    t.words[first..first + sets].iter().all(|tree| *tree < most)
}
