// Where a program's bytes go: standard output, and standard error for what it has to say; and text as it is formatted.
#![tactic(auto)]

ghost use Rattle.std.specs.Prelude.{◌≡◌, ◌+◌, ◌-◌, ◌≤◌, min, ◌++◌, length, take};

use std::fmt;
use std::fmt::Write as _;
use std::io::{Error, ErrorKind, Stderr, Stdout};

// Both, as `main` is given them.
#[derive(Clone, Copy)]
pub struct Output {
    out: Stdout,
    err: Stderr,
}

// Text as it is formatted, as far as there is room.
#[derive(Drop)]
pub struct Page<const N: usize> {
    bytes: [u8; N],
    len: usize,
    ghost within: { len ≤ N },
}

impl<const N: usize> Page<N> {
    pub fn new() -> Page<N>
        ensures { result.len ≡ 0 }
    {
        Page {
            bytes: [0; N],
            len: 0,
        }
    }

    // What was formatted.
    pub fn text(&self) -> &[u8]
        ensures { result.now ≡ take self.now.len self.now.bytes }
    {
        &self.bytes[..self.len]
    }

    // How many bytes there still is room for.
    pub fn room(&self) -> usize
        ensures { result ≡ N - self.now.len }
    {
        N - self.len
    }

    // These bytes behind what was formatted, as far as there is room.
    pub fn push(&mut self, s: &[u8])
        ensures len { self.new.len ≡ min N (self.old.len + length s.now) }
        ensures text { take self.new.len self.new.bytes ≡ take N (take self.old.len self.old.bytes ++ s.now) }
    {
        let start = self.len;
        let n = s.len().min(N - start);
        let end = start + n;
        let bytes = &mut self.bytes[..];
        bytes[start..end].copy_from_slice(&s[..n]);
        self.len = end;
    }

    // As if nothing had been formatted.
    pub fn clear(&mut self)
        ensures { self.new.len ≡ 0 }
    {
        self.len = 0;
    }
}

impl<const N: usize> fmt::Write for Page<N> {
    // Behind what was formatted, as `push`.
    ghost write_str_gives = { λ p s q. take q.len q.bytes ≡ take N (take p.len p.bytes ++ s) };

    fn write_str(&mut self, s: &str) -> fmt::Result {
        self.push(s.as_bytes());
        Ok(())
    }
}

// Behind the system's own words for an error stands its number.
const NUMBER: &[u8] = b" (os error ";

// The words without the number.
fn without_number(s: &[u8]) -> &[u8] {
    match s.windows(NUMBER.len()).position(|w| w == NUMBER) {
        Some(end) => &s[..end],
        None => s,
    }
}

impl Output {
    pub fn new(out: Stdout, err: Stderr) -> Output {
        Output { out, err }
    }

    // Writes to standard error. Where that fails, nothing can be said.
    pub fn say(self, s: &[u8]) {
        let _ = self.err.write_all(s);
    }

    // What prints itself, on standard error.
    pub fn say_shown<D: fmt::Display + Drop>(self, shown: D) {
        let _ = self.err.print(shown);
    }

    // A number, in decimal digits, on standard error.
    pub fn say_number(self, n: u64) {
        let _ = self.err.print(n);
    }

    // Says a line on standard error: what failed, a colon and the system's words for why.
    pub fn fail(self, what: &[u8], why: Error) {
        let mut line: Page<256> = Page::new();
        let _ = write!(line, "{why}");
        self.say(what);
        self.say(b": ");
        self.say(without_number(line.text()));
        self.say(b"\n");
    }

    // Writes to standard output; says whether it went, and on standard error why it did not. A reader that has gone away is nobody to tell.
    // A bool and no Result: why it failed is said here, and nobody has use for it.
    pub fn write(self, s: &[u8]) -> bool {
        match self.out.write_all(s) {
            Ok(()) => true,
            Err(why) => {
                if why.kind() != ErrorKind::BrokenPipe {
                    self.fail(b"write", why);
                }
                false
            }
        }
    }

    // Writes to standard output, for a program that goes on whether it went or not.
    pub fn put(self, s: &[u8]) {
        let _ = self.out.write_all(s);
    }

    // A number, in decimal digits, in the same way.
    pub fn put_number(self, n: u64) {
        let _ = self.out.print(n);
    }
}
