// How much of the bytes that wait is run: all of them, or those before the last record.
ghost use Rattle.std.specs.Prelude.{◌≡◌, ◌≤◌, length};
ghost use Rattle.streaming.specs.Scopes.{before_last, part_end};

// All of a stream, its events written to standard output; or all before its last record, its events dropped.
// Two ways and no closure: `Ran` and `Rested` say which it is.
#[derive(Clone, Copy)]
pub enum Scope {
    All,
    BeforeLast,
}

// Where the last record begins, whole or cut short. At a kind that is no command's the runner stops, so that all is for the
// runner to judge.
fn last_start(s: &[u8]) -> usize
    ensures { (result ≡ before_last 0 s.now) × (result ≤ length s.now) }
{
    let mut at = 0;
    // A record says how long it is: no index counts by one.
    while at < s.len() {
        let kind = s[at];
        if !records::is_command(kind) {
            return s.len();
        }
        let body = records::length_of(kind) as usize;
        if s.len() - at <= 1 + body {
            return at;
        }
        at += 1 + body;
    }
    at
}

impl Scope {
    // Where the part that is run ends.
    pub fn part_end(self, s: &[u8]) -> usize
        ensures { (result ≡ part_end self s.now) × (result ≤ length s.now) }
    {
        match self {
            Scope::All => s.len(),
            Scope::BeforeLast => last_start(s),
        }
    }
}
