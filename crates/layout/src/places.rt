// Which places of a table are in use, by a byte for each place that isn't 0 in those.
ghost use Rattle.std.specs.Prelude.{◌≡◌, ◌+◌, ◌≤◌, length, get_or};
ghost use Rattle.model.specs.SoundLent as is;
ghost use Rattle.layout.specs.Places.{First};

// The first of `n` bytes from `at` that is `mark`, or `n`: no Option, since `n` is then how many places are in use (`First`).
pub fn find_mark(marks: &[u8], at: usize, n: usize, mark: u8) -> usize
    requires { at + n ≤ length marks.now }
    ensures { First marks.now at n mark result }
{
    marks[at..at + n]
        .iter()
        .position(|x| *x == mark)
        .unwrap_or(n)
}

// The first of `n` bytes from `at` that is 0, or `n`: how many places of a table are in use, where those stand first.
pub fn used(marks: &[u8], at: usize, n: usize) -> usize
    requires { at + n ≤ length marks.now }
    ensures { First marks.now at n 0 result }
{
    find_mark(marks, at, n, 0)
}

// Conditions 12 and 20 of sound tables: of the `n` bytes from `at` those that aren't 0 stand first.
pub fn gathered(marks: &[u8], at: usize, n: usize) -> bool
    requires { (1 ≤ n) × (at + n ≤ length marks.now) }
    ensures { result ≡ is.gathered n (λ i. get_or marks.now (at + i) 0) }
{
    (0..n - 1).all(|i| (marks[at + i] != 0) | (marks[at + (i + 1)] == 0))
}
