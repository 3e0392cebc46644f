// "Rule byte 2": the binary tree over the ways of a set, a number with one bit a node. The choice among the candidates, a mask with bit w
// for way w, and the tree after an access: each a recursive descent over a span of ways, whose width halves at each call.
#![tactic(auto)]

ghost use Rattle.std.specs.Prelude.{◌≡◌, true, ℕ, ◌+◌, ◌-◌, ◌^◌, ◌≤◌, ◌<◌};
ghost use Rattle.model.specs.Tree.{with_bit, is_in, named, pointed, some_from, goes, descent, tree_choice, side_of, turned, touched_tree, power_to16, levels, Span};

// The rule byte. A number and no enum: the settings hold any number until refusal 1 looks at it.
pub const TREE: usize = 2;

// What a tree is below: a bit for each node in use, of which there is one fewer than ways.
pub fn limit(ways: usize) -> u32
    requires { (1 ≤ ways) × (ways ≤ 16) }
    ensures { result ≡ 2 ^ (ways - 1) }
{
    1u32 << (ways - 1)
}

// The half that a node names: 0 the lower, 1 the upper. A number and no enum: the node and the first way below are sums with it.
// A node is worked out anew at each step from the one above: a type of it would be made and opened at every call.
fn named_half(tree: u32, node: usize) -> usize
    requires { (1 ≤ node) × (node ≤ 32) }
    ensures { result ≡ named tree node }
{
    (tree >> (node - 1) & 1) as usize
}

// The tree with a node that names `half`.
fn point(tree: u32, node: usize, half: usize) -> u32
    requires { (1 ≤ node) × (node ≤ 32) × (half < 2) }
    ensures { result ≡ pointed tree node half }
{
    let bit = 1u32 << (node - 1);
    if half == 1 {
        tree | bit
    } else {
        (tree | bit) - bit
    }
}

// Whether one of `width` ways from `first` is a candidate.
fn has_candidate(candidates: u32, first: usize, width: usize) -> bool
    requires { first + width ≤ 16 }
    ensures { result ≡ some_from (is_in candidates) first width }
{
    (candidates >> first & ((1u32 << width) - 1)) != 0
}

// The half to go to below a node, each `half` ways wide: the one that the node names if it has a candidate, else the other.
fn side(tree: u32, candidates: u32, node: usize, first: usize, half: usize) -> usize
    requires { (1 ≤ node) × (node ≤ 32) × (first + half + half ≤ 16) }
    ensures { (result < 2) × ((k : ℕ) → half ≡ 2 ^ k → result ≡ goes (is_in candidates) tree k node first) }
{
    let h = named_half(tree, node);
    if has_candidate(candidates, first + h * half, half) {
        h
    } else {
        1 - h
    }
}

// The way chosen among `width` ways from `first`, below a node. A recursion and no loop: the specification asks for a recursive descent.
fn descend(tree: u32, candidates: u32, node: usize, first: usize, width: usize) -> usize
    requires { Span node first width }
    ensures { (k : ℕ) → width ≡ 2 ^ k → result ≡ descent (is_in candidates) tree k node first }
{
    if width == 1 {
        return first;
    }
    let half = width / 2;
    let h = side(tree, candidates, node, first, half);
    descend(tree, candidates, 2 * node + h, first + h * half, half)
}

// The way chosen among the candidates, if there is one.
pub fn choose(tree: u32, candidates: u32, ways: usize) -> Option<usize>
    requires { power_to16 ways ≡ true }
    ensures { result ≡ tree_choice (is_in candidates) tree (levels ways) }
{
    if has_candidate(candidates, 0, ways) {
        let w = descend(tree, candidates, 1, 0, ways);
        Some(w)
    } else {
        None
    }
}

// The half, each `half` ways wide, that a way lies in.
fn side_of(first: usize, half: usize, way: usize) -> usize
    requires { first + half ≤ 16 }
    ensures { (result < 2) × ((k : ℕ) → half ≡ 2 ^ k → result ≡ side_of k first way) }
{
    if way < first + half { 0 } else { 1 }
}

// The tree after an access to a way, one of `width` ways from `first` below a node: the node names the half not taken. A
// recursion for the same reason.
fn turn(tree: u32, node: usize, first: usize, width: usize, way: usize) -> u32
    requires { Span node first width }
    ensures { (k : ℕ) → width ≡ 2 ^ k → result ≡ turned tree k node first way }
{
    if width == 1 {
        return tree;
    }
    let half = width / 2;
    let h = side_of(first, half, way);
    let next = point(tree, node, 1 - h);
    turn(next, 2 * node + h, first + h * half, half, way)
}

// The tree after an access to a way.
pub fn touched(tree: u32, way: usize, ways: usize) -> u32
    requires { power_to16 ways ≡ true }
    ensures { result ≡ touched_tree tree (levels ways) way }
{
    turn(tree, 1, 0, ways, way)
}

// A mask of candidates with one way more.
pub fn marked(candidates: u32, way: usize) -> u32
    requires { way < 32 }
    ensures { result ≡ with_bit candidates way 1 }
{
    candidates | 1u32 << way
}
